// Rust's grammar of an f64. Digits are held only while they can still be in the window, so that any number of them overflows nothing.
ghost use Rattle.std.specs.Prelude.{◌≡◌, ◌+◌, ◌≤◌, ◌<◌, length, drop, eqb, ◌++◌};
ghost use Rattle.text.specs.Pick.{pick, either};
ghost use Rattle.mhz.specs.Digits.{is_digit, digits_of, after_digits};
ghost use Rattle.mhz.specs.Number.{negative, whole_part, fraction_part, after_decimal, decimal_of, is_infinity, number_in};
ghost use Rattle.mhz.specs.Reading.{number_hertz};
ghost use Rattle.mhz.specs.Steps.{held, grown, power_held, exponent_held, word_hertz};

use super::{Hz, window};

// Digits read up to `at`.
#[derive(Clone, Copy)]
pub struct Run {
    at: usize,
    held: u64,
}

// A decimal up to its exponent, which stands at `at`.
#[derive(Clone, Copy)]
pub struct Mantissa {
    at: usize,
    held: u64,
    fraction: usize,
    count: usize,
}

// Ten to the size, or to less the size where `minus`.
#[derive(Clone, Copy)]
pub struct Power {
    minus: bool,
    size: u64,
}

fn is_digit(b: u8) -> bool
    ensures { result ≡ is_digit b }
{
    text::inside(b, b'0', b'9')
}

// Kept beside `usize::from`: its promise is in the word of the specs, on which the laws of the texts rest.
fn one_if(t: bool) -> usize
    ensures { result ≡ pick t 1 0 }
{
    usize::from(t)
}

// The digit b after those that are held.
#[tactic(auto, unfolding(crate::specs::Steps::grown))]
fn grow(most: u64, n: u64, b: u8) -> u64
    requires { (most ≤ 9007199254740992) × (0x30 ≤ b) }
    ensures { result ≡ grown most n b }
{
    if n <= most {
        n * 10 + u64::from(b - b'0')
    } else {
        n
    }
}

fn digits_from(s: &[u8], from: usize, most: u64, n: u64) -> Run
    requires { (from ≤ length s.now) × (most ≤ 9007199254740992) }
    ensures at_value { result.at ≡ from + length (digits_of (drop from s.now)) }
    ensures s_value { drop result.at s.now ≡ after_digits (drop from s.now) }
    ensures held_value { result.held ≡ held most n (digits_of (drop from s.now)) }
    ensures from_le_at { (from ≤ result.at) × (result.at ≤ length s.now) }
{
    let mut held = n;
    for at in from..s.len() {
        let b = s[at];
        if !is_digit(b) {
            return Run { at, held };
        }
        held = grow(most, held, b);
    }
    Run { at: s.len(), held }
}

// Where there is no point the run after it is empty, since the run before it ended at no digit.
fn mantissa_from(s: &[u8], start: usize) -> Mantissa
    requires { start ≤ length s.now }
    ensures s_value { drop result.at s.now ≡ after_decimal (drop start s.now) }
    ensures held_value { result.held ≡ held 9007199254740992 0 (whole_part (drop start s.now) ++ fraction_part (drop start s.now)) }
    ensures fraction_value { result.fraction ≡ length (fraction_part (drop start s.now)) }
    ensures count_value { result.count ≡ length (whole_part (drop start s.now)) + length (fraction_part (drop start s.now)) }
    ensures at_in_bounds { result.at ≤ length s.now }
{
    let whole = digits_from(s, start, 9007199254740992, 0);
    let point = whole.at;
    let from = point + one_if(text::byte(s, point) == b'.');
    let rest = digits_from(s, from, 9007199254740992, whole.held);
    let end = rest.at;
    Mantissa {
        at: end,
        held: rest.held,
        fraction: end - from,
        count: point - start + (end - from),
    }
}

fn power_from(s: &[u8], from: usize, minus: bool) -> Option<Power>
    requires { from ≤ length s.now }
    ensures { result ≡ power_held minus (drop from s.now) }
{
    let run = digits_from(s, from, 65535, 0);
    if run.at == from || run.at != s.len() {
        return None;
    }
    Some(Power {
        minus,
        size: run.held,
    })
}

fn is_sign(b: u8) -> bool
    ensures { result ≡ either (eqb b 0x2B) (eqb b 0x2D) }
{
    b == b'+' || b == b'-'
}

fn opens_exponent(b: u8) -> bool
    ensures { result ≡ either (eqb b 0x65) (eqb b 0x45) }
{
    b == b'e' || b == b'E'
}

fn exponent_at(s: &[u8], at: usize) -> Option<Power>
    requires { at ≤ length s.now }
    ensures { result ≡ exponent_held (drop at s.now) }
{
    if at == s.len() {
        return Some(Power {
            minus: false,
            size: 0,
        });
    }
    let b = s[at];
    if opens_exponent(b) {
        let after = at + 1;
        let sign = text::byte(s, after);
        power_from(s, after + one_if(is_sign(sign)), sign == b'-')
    } else {
        None
    }
}

fn decimal(s: &[u8], start: usize, negative: bool) -> Hz
    requires { start ≤ length s.now }
    ensures { result ≡ number_hertz (decimal_of negative (drop start s.now)) }
{
    let m = mantissa_from(s, start);
    if m.count == 0 {
        return Hz::Absent;
    }
    match exponent_at(s, m.at) {
        None => Hz::Absent,
        Some(p) => window::of_decimal(negative, m.held, m.fraction, p.minus, p.size),
    }
}

#[tactic(auto, unfolding(crate::specs::Number::is_infinity))]
fn is_infinity(w: &[u8]) -> bool
    ensures { result ≡ is_infinity w.now }
{
    letters::same_raised(w, b"INF") || letters::same_raised(w, b"INFINITY")
}

fn word(w: &[u8], negative: bool) -> Hz
    ensures { result ≡ word_hertz negative w.now }
{
    if is_infinity(w) {
        if negative {
            Hz::Absent
        } else {
            Hz::Is(u64::MAX)
        }
    } else if letters::same_raised(w, b"NAN") {
        Hz::Is(0)
    } else {
        Hz::Absent
    }
}

// Every word begins above the digits, the sign and the point, and no decimal does.
pub fn of_text(s: &[u8]) -> Hz
    ensures { result ≡ number_hertz (number_in s.now) }
{
    let first = text::byte(s, 0);
    let start = one_if(is_sign(first));
    if text::byte(s, start) > b'9' {
        word(&s[start..], first == b'-')
    } else {
        decimal(s, start, first == b'-')
    }
}
