// What the library answers to the vectors on frequencies, in their own notation.
#![tactic(auto)]

ghost use Rattle.std.specs.Prelude.{◌≤◌, length, IfSome};

use mhz::Hz;
use notation::{put_byte, put_none, put_number};

fn put_hertz(out: &mut [u8], hz: Hz) -> Option<usize>
    ensures { IfSome result (λ n. n ≤ length out.new) }
{
    match hz {
        Hz::Absent => put_none(out),
        Hz::Is(v) => put_number(out, 0, v),
        Hz::Outside => None,
    }
}

fn put_megahertz(out: &mut [u8], hz: u64) -> Option<usize>
    ensures { IfSome result (λ n. n ≤ length out.new) }
{
    let at = put_byte(out, 0, b'|').unwrap_or(0);
    let next = mhz::hz_to_mhz_string(hz, out, at).ok()?;
    put_byte(out, next, b'|')
}

// The answer to the line, put at the front of out; nothing where its operation is unknown.
pub fn answer(op: &[u8], line: &[u8], a: &mut [u8], out: &mut [u8]) -> Option<usize>
    ensures { IfSome result (λ n. n ≤ length out.new) }
{
    match op {
        b"hertz" => put_hertz(out, mhz::mhz_string_to_hz(notation::text_in(line, 0, a))),
        b"megahertz" => put_megahertz(
            out,
            notation::number_at(line, notation::after(line, 0, b' ')),
        ),
        _ => None,
    }
}
