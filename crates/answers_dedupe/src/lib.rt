// What the library answers to the vectors on duplicates, in their own notation.
#![tactic(auto)]

ghost use Rattle.std.specs.Prelude.{◌≤◌, length, IfSome};

use dedupe::Key;
use tables::places;

// The number of the line that starts there, as a length of a text.
fn length_at(line: &[u8], from: usize) -> u32 {
    (notation::number_at(line, from) % 1024) as u32
}

// A text that is a call, a mode and a band, one after the other, by the lengths of the first two, which stand in the line.
fn key_at(line: &[u8], from: usize) -> Key {
    let call = length_at(line, from) % 1024;
    let mode = length_at(line, notation::after(line, from, b' ')) % 1024;
    Key {
        call: places::stands(0, call),
        mode: places::stands(call, mode),
        band: places::stands(call + mode, 1024),
    }
}

// Where the lengths of the second text stand.
fn second_lengths(line: &[u8], from: usize) -> usize {
    notation::after(line, notation::after(line, from, b' '), b' ')
}

fn put_tests(line: &[u8], s: &[u8], t: &[u8], out: &mut [u8]) -> Option<usize>
    ensures { IfSome result (λ n. n ≤ length out.new) }
{
    let from = notation::after_text(line, notation::after_text(line, 0));
    let k = key_at(line, from);
    let o = key_at(line, second_lengths(line, from));
    let tests = [
        dedupe::in_log(s, k, t, o) as u64,
        dedupe::in_file(s, k, t, o) as u64,
        dedupe::same_natural_key(s, k, t, o) as u64,
    ];
    notation::put_numbers(out, 0, &tests)
}

// The answer to the line, put at the front of out; nothing where its operation is unknown.
pub fn answer(op: &[u8], line: &[u8], a: &mut [u8], b: &mut [u8], out: &mut [u8]) -> Option<usize>
    ensures { IfSome result (λ n. n ≤ length out.new) }
{
    match op {
        b"moment" => {
            let (s, t) = notation::texts_in(line, a, b);
            notation::put_number_or_none(out, times::moment_of(s, t))
        }
        b"keys" => {
            let (s, t) = notation::texts_in(line, a, b);
            put_tests(line, s, t, out)
        }
        _ => None,
    }
}
