// What the library answers to the vectors on bands and modes, in their own notation.
#![tactic(auto)]

ghost use Rattle.std.specs.Prelude.{◌≤◌, length, IfSome};

use normalize::{classes, modes};
use notation::{put_bars, put_byte, text_in};
use tables::{ModeClass, Name, Place, places};

const LONGEST: usize = 16_777_216;

// The answer `none` from `at` on, a byte at a time: behind one that has no room it goes on from the front.
fn put_none(out: &mut [u8], at: usize) -> Option<usize>
    ensures { IfSome result (λ n. n ≤ length out.new) }
{
    let n = put_byte(out, at, b'n').unwrap_or(0);
    let o = put_byte(out, n, b'o').unwrap_or(0);
    let m = put_byte(out, o, b'n').unwrap_or(0);
    put_byte(out, m, b'e')
}

fn put_name(out: &mut [u8], at: usize, name: Name) -> Option<usize>
    ensures { IfSome result (λ n. n ≤ length out.new) }
{
    put_bars(out, at, name.bytes.get(..name.len)?)
}

// What a place in s stands for.
fn put_place(out: &mut [u8], at: usize, s: &[u8], p: Place) -> Option<usize>
    ensures { IfSome result (λ n. n ≤ length out.new) }
{
    let part = places::part(s, p);
    match p.kind {
        0 => put_none(out, at),
        1 => put_bars(out, at, part),
        2 => notation::put_bars_by(out, at, part, letters::raise),
        _ => put_name(out, at, places::name_of(p)),
    }
}

fn put_class(out: &mut [u8], class: Option<ModeClass>) -> Option<usize>
    ensures { IfSome result (λ n. n ≤ length out.new) }
{
    match class {
        Some(c) => put_name(out, 0, classes::class_name(c)),
        None => put_none(out, 0),
    }
}

// A submode that is blank leaves the mode to split: what comes out is then in the text of the mode. Behind what has no room the
// answer goes on from the front.
fn put_modes(out: &mut [u8], mode: &[u8], submode: Option<&[u8]>) -> Option<usize>
    ensures { IfSome result (λ n. n ≤ length out.new) }
{
    if LONGEST < mode.len() {
        return None;
    }
    let (second, s) = match submode {
        Some(t) if LONGEST < t.len() => return None,
        Some(t) => (t, places::stands(0, t.len() as u32)),
        None => (mode, places::absent()),
    };
    let m = places::stands(0, mode.len() as u32);
    let pair = modes::normalize_modes(mode, m, second, s);
    let at = put_place(out, 0, mode, pair.mode).unwrap_or(0);
    let next = put_byte(out, at, b' ').unwrap_or(0);
    let own = if places::is_empty(places::tidy(second, s)) {
        mode
    } else {
        second
    };
    put_place(out, next, own, pair.submode)
}

// The answer to the line, put at the front of out; nothing where its operation is unknown.
pub fn answer(op: &[u8], line: &[u8], a: &mut [u8], b: &mut [u8], out: &mut [u8]) -> Option<usize>
    ensures { IfSome result (λ n. n ≤ length out.new) }
{
    match op {
        b"frequency" => {
            let hz = notation::number_at(line, notation::after(line, 0, b' '));
            put_place(out, 0, line, bands::band_for_freq_hz(hz))
        }
        b"band" => put_place(out, 0, line, bands::canonical_band(text_in(line, 0, a))),
        b"mode" => {
            let (s, t) = notation::texts_in(line, a, b);
            let submode = if text::byte(line, notation::after_text(line, 0)) == b'|' {
                Some(t)
            } else {
                None
            };
            put_modes(out, s, submode)
        }
        b"class" => put_class(out, classes::mode_class(text_in(line, 0, a))),
        b"class_named" => put_class(out, classes::parse_class(text_in(line, 0, a))),
        _ => None,
    }
}
