// Numbers in decimal digits, as Rust's `parse` reads them.
#![tactic(auto)]

ghost use Rattle.std.specs.Prelude.{◌≡◌};
ghost use Rattle.text.specs.Pick.{pick};
ghost use Rattle.decimal.specs.Decimal.{all_digits, digits_of, unsigned_of, above_zero, below_zero, signed_of};

// 2 ^ 63: no number above zero has this size, and one below zero has it at most.
const HALF: u64 = 9_223_372_036_854_775_808;

// A number by its size, and whether it is below zero; zero is not.
#[derive(Clone, Copy, PartialEq, Eq)]
pub struct Signed {
    pub negative: bool,
    pub size: u64,
}

// Every byte a digit.
pub fn all_digits(s: &[u8]) -> bool
    ensures { result ≡ all_digits s.now }
{
    for &b in s {
        if !text::inside(b, 0x30, 0x39) {
            return false;
        }
    }
    true
}

// Digits alone, at least one.
pub fn parse_digits(s: &[u8]) -> Option<u64>
    ensures { result ≡ digits_of s.now }
{
    if s.is_empty() {
        return None;
    }
    let mut n: u64 = 0;
    for &d in s {
        if d < 0x30 || 0x39 < d {
            return None;
        }
        n = n.checked_mul(10)?.checked_add(u64::from(d - 0x30))?;
    }
    Some(n)
}

// As Rust's `parse::<u64>`: a plus may stand before the digits.
#[tactic(auto, using(crate::proofs::SignLaws::with_plus, crate::proofs::SignLaws::without_plus))]
pub fn parse_unsigned(s: &[u8]) -> Option<u64>
    ensures { result ≡ unsigned_of s.now }
{
    if text::byte(s, 0) == 0x2B {
        parse_digits(&s[1..])
    } else {
        parse_digits(s)
    }
}

#[tactic(auto, unfolding(crate::specs::Decimal::above_zero, crate::specs::Decimal::below_zero))]
fn with_sign(negative: bool, n: Option<u64>) -> Option<Signed>
    ensures { result ≡ pick negative (below_zero n) (above_zero n) }
{
    let size = n?;
    if size < HALF || (negative && size == HALF) {
        Some(Signed {
            negative: negative && 0 < size,
            size,
        })
    } else {
        None
    }
}

// As Rust's `parse::<i64>`: a plus or a minus may stand before the digits.
#[tactic(auto, using(crate::proofs::SignLaws::with_minus, crate::proofs::SignLaws::without_minus))]
pub fn parse_signed(s: &[u8]) -> Option<Signed>
    ensures { result ≡ signed_of s.now }
{
    if text::byte(s, 0) == 0x2D {
        with_sign(true, parse_digits(&s[1..]))
    } else {
        with_sign(false, parse_unsigned(s))
    }
}
