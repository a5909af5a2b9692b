// The calls of `ox_text` for C and Rust, each under the promise that it has there: `ox_text` is a library of other crates, and what a library
// has is exported by a static library over it.
#![tactic(auto)]

ghost use Rattle.std.specs.Prelude.{◌≡◌};
ghost use Rattle.decimal.specs.Digits.{decimal};
ghost use Rattle.ox_text.specs.Texts.{check_of, trim_of, blank_of, same_of, same_raised_of, order_of, find_of, unsigned_answer, signed_answer};
ghost use Rattle.ox_text.specs.Writing.{Wrote};

use ox_text::{Checked, Found, Numbered, Ordered, Told, Trimmed, Written};

#[unsafe(no_mangle)]
pub extern "C" fn ox_text_check(s: &[u8]) -> Checked
    ensures { result ≡ check_of s.now }
{
    ox_text::ox_text_check(s)
}

#[unsafe(no_mangle)]
pub extern "C" fn ox_text_trim(s: &[u8]) -> Trimmed
    ensures { result ≡ trim_of s.now }
{
    ox_text::ox_text_trim(s)
}

#[unsafe(no_mangle)]
pub extern "C" fn ox_text_blank(s: &[u8]) -> Told
    ensures { result ≡ blank_of s.now }
{
    ox_text::ox_text_blank(s)
}

#[unsafe(no_mangle)]
pub extern "C" fn ox_text_same(a: &[u8], b: &[u8]) -> Told
    ensures { result ≡ same_of a.now b.now }
{
    ox_text::ox_text_same(a, b)
}

// The case of ASCII letters aside.
#[unsafe(no_mangle)]
pub extern "C" fn ox_text_same_raised(a: &[u8], b: &[u8]) -> Told
    ensures { result ≡ same_raised_of a.now b.now }
{
    ox_text::ox_text_same_raised(a, b)
}

// The byte order of the two in capitals.
#[unsafe(no_mangle)]
pub extern "C" fn ox_text_order_raised(a: &[u8], b: &[u8]) -> Ordered
    ensures { result ≡ order_of a.now b.now }
{
    ox_text::ox_text_order_raised(a, b)
}

#[unsafe(no_mangle)]
pub extern "C" fn ox_text_find(s: &[u8], from: usize, b: u8) -> Found
    ensures { result ≡ find_of s.now from b }
{
    ox_text::ox_text_find(s, from, b)
}

// As Rust's `parse::<u64>`.
#[unsafe(no_mangle)]
pub extern "C" fn ox_text_unsigned(s: &[u8]) -> Numbered
    ensures { result ≡ unsigned_answer s.now }
{
    ox_text::ox_text_unsigned(s)
}

// As Rust's `parse::<i64>`.
#[unsafe(no_mangle)]
pub extern "C" fn ox_text_signed(s: &[u8]) -> Numbered
    ensures { result ≡ signed_answer s.now }
{
    ox_text::ox_text_signed(s)
}

// n in decimal at the front of the output; 13 where it does not fit.
#[unsafe(no_mangle)]
pub extern "C" fn ox_text_digits(n: u64, out: &mut [u8]) -> Written
    ensures { Wrote result out.old out.new (decimal n) }
{
    ox_text::ox_text_digits(n, out)
}
