// What `text`, `letters`, `decimal` and `output` do to plain texts. A text is refused with 1 above 16,777,216 bytes, then with 2
// where it is not UTF-8; `place` is then the first bad byte's, and 0 otherwise. The crate `ox_text_c` exports these calls to C.
#![tactic(auto)]

ghost use Rattle.std.specs.Prelude.{◌≡◌, length};
ghost use Rattle.decimal.specs.Digits.{decimal};
ghost use Rattle.ox_text.specs.Texts.{check_of, trim_of, untold_of, blank_of, same_of, same_raised_of, order_number, order_of, find_from, find_of, unnumbered_of, of_unsigned, of_signed, unsigned_answer, signed_answer};
ghost use Rattle.ox_text.specs.Writing.{Wrote, of_written};

use decimal::Signed;
use refusals::{Refusal, check_text, check_texts, number, place};
use std::cmp::Ordering;

// `place` is the first bad byte's after 2, and the length of an accepted text.
#[repr(C)]
#[derive(Clone, Copy)]
pub struct Checked {
    pub refusal: u32,
    pub place: usize,
}

#[repr(C)]
#[derive(Clone, Copy)]
pub struct Trimmed {
    pub refusal: u32,
    pub place: usize,
    pub start: usize,
    pub end: usize,
}

#[repr(C)]
#[derive(Clone, Copy)]
pub struct Told {
    pub refusal: u32,
    pub place: usize,
    pub yes: bool,
}

// 0 less, 1 equal, 2 greater.
#[repr(C)]
#[derive(Clone, Copy)]
pub struct Ordered {
    pub refusal: u32,
    pub place: usize,
    pub order: u32,
}

#[repr(C)]
#[derive(Clone, Copy)]
pub struct Found {
    pub refusal: u32,
    pub place: usize,
    pub at: usize,
}

// Kept: C takes no Option, so whether there is one is a field.
#[repr(C)]
#[derive(Clone, Copy)]
pub struct Numbered {
    pub refusal: u32,
    pub place: usize,
    pub present: bool,
    pub negative: bool,
    pub size: u64,
}

#[repr(C)]
#[derive(Clone, Copy)]
pub struct Written {
    pub refusal: u32,
    pub length: usize,
}

impl From<Result<usize, Refusal>> for Written {
    ghost from_gives = { λ written r. r ≡ of_written written };

    #[tactic(auto, unfolding(crate::specs::Writing::of_written))]
    fn from(written: Result<usize, Refusal>) -> Written {
        match written {
            Ok(length) => Written { refusal: 0, length },
            Err(why) => Written {
                refusal: number(why),
                length: 0,
            },
        }
    }
}

#[tactic(auto, unfolding(crate::specs::Texts::check_of))]
pub fn ox_text_check(s: &[u8]) -> Checked
    ensures { result ≡ check_of s.now }
{
    match check_text(s) {
        Err(why) => Checked {
            refusal: number(why),
            place: place(why),
        },
        Ok(()) => Checked {
            refusal: 0,
            place: s.len(),
        },
    }
}

#[tactic(auto, unfolding(crate::specs::Texts::trim_of))]
pub fn ox_text_trim(s: &[u8]) -> Trimmed
    ensures { result ≡ trim_of s.now }
{
    match check_text(s) {
        Err(why) => Trimmed {
            refusal: number(why),
            place: place(why),
            start: 0,
            end: 0,
        },
        Ok(()) => {
            let start = text::space::trim_start(s);
            let kept = text::space::trim_end(&s[start..]);
            Trimmed {
                refusal: 0,
                place: 0,
                start,
                end: start + kept,
            }
        }
    }
}

// A test that a refusal leaves unanswered.
#[tactic(auto, unfolding(crate::specs::Texts::untold_of))]
pub fn untold(why: Refusal) -> Told
    ensures { result ≡ untold_of why }
{
    Told {
        refusal: number(why),
        place: place(why),
        yes: false,
    }
}

#[tactic(auto, unfolding(crate::specs::Texts::blank_of))]
pub fn ox_text_blank(s: &[u8]) -> Told
    ensures { result ≡ blank_of s.now }
{
    match check_text(s) {
        Err(why) => untold(why),
        Ok(()) => Told {
            refusal: 0,
            place: 0,
            yes: text::space::is_blank(s),
        },
    }
}

#[tactic(auto, unfolding(crate::specs::Texts::same_of))]
pub fn ox_text_same(a: &[u8], b: &[u8]) -> Told
    ensures { result ≡ same_of a.now b.now }
{
    match check_texts(a, b) {
        Err(why) => untold(why),
        Ok(()) => Told {
            refusal: 0,
            place: 0,
            yes: letters::same(a, b),
        },
    }
}

// The case of ASCII letters aside.
#[tactic(auto, unfolding(crate::specs::Texts::same_raised_of))]
pub fn ox_text_same_raised(a: &[u8], b: &[u8]) -> Told
    ensures { result ≡ same_raised_of a.now b.now }
{
    match check_texts(a, b) {
        Err(why) => untold(why),
        Ok(()) => Told {
            refusal: 0,
            place: 0,
            yes: letters::same_raised(a, b),
        },
    }
}

// Kept: both types are std's.
fn order_number(o: Ordering) -> u32
    ensures { result ≡ order_number o }
{
    match o {
        Ordering::Less => 0,
        Ordering::Equal => 1,
        Ordering::Greater => 2,
    }
}

// The byte order of the two in capitals.
#[tactic(auto, unfolding(crate::specs::Texts::order_of))]
pub fn ox_text_order_raised(a: &[u8], b: &[u8]) -> Ordered
    ensures { result ≡ order_of a.now b.now }
{
    match check_texts(a, b) {
        Err(why) => Ordered {
            refusal: number(why),
            place: place(why),
            order: 0,
        },
        Ok(()) => Ordered {
            refusal: 0,
            place: 0,
            order: order_number(letters::order_raised(a, b)),
        },
    }
}

// The first place from `from` on where b stands, or the length.
#[tactic(auto, unfolding(crate::specs::Texts::find_from))]
fn find_from(s: &[u8], from: usize, b: u8) -> usize
    ensures { result ≡ find_from s.now from b }
{
    if from <= s.len() {
        text::find(s, from, b)
    } else {
        s.len()
    }
}

#[tactic(auto, unfolding(crate::specs::Texts::find_of))]
pub fn ox_text_find(s: &[u8], from: usize, b: u8) -> Found
    ensures { result ≡ find_of s.now from b }
{
    match check_text(s) {
        Err(why) => Found {
            refusal: number(why),
            place: place(why),
            at: 0,
        },
        Ok(()) => Found {
            refusal: 0,
            place: 0,
            at: find_from(s, from, b),
        },
    }
}

#[tactic(auto, unfolding(crate::specs::Texts::unnumbered_of))]
fn unnumbered(why: Refusal) -> Numbered
    ensures { result ≡ unnumbered_of why }
{
    Numbered {
        refusal: number(why),
        place: place(why),
        present: false,
        negative: false,
        size: 0,
    }
}

#[tactic(auto, unfolding(crate::specs::Texts::of_signed))]
fn of_signed(n: Option<Signed>) -> Numbered
    ensures { result ≡ of_signed n }
{
    let present = n.is_some();
    let Signed { negative, size } = n.unwrap_or(Signed {
        negative: false,
        size: 0,
    });
    Numbered {
        refusal: 0,
        place: 0,
        present,
        negative,
        size,
    }
}

#[tactic(auto, unfolding(crate::specs::Texts::of_unsigned, crate::specs::Texts::of_signed))]
fn of_unsigned(n: Option<u64>) -> Numbered
    ensures { result ≡ of_unsigned n }
{
    of_signed(n.map(|size| Signed {
        negative: false,
        size,
    }))
}

// As Rust's `parse::<u64>`.
#[tactic(auto, unfolding(crate::specs::Texts::unsigned_answer))]
pub fn ox_text_unsigned(s: &[u8]) -> Numbered
    ensures { result ≡ unsigned_answer s.now }
{
    match check_text(s) {
        Err(why) => unnumbered(why),
        Ok(()) => of_unsigned(decimal::parse_unsigned(s)),
    }
}

// As Rust's `parse::<i64>`.
#[tactic(auto, unfolding(crate::specs::Texts::signed_answer))]
pub fn ox_text_signed(s: &[u8]) -> Numbered
    ensures { result ≡ signed_answer s.now }
{
    match check_text(s) {
        Err(why) => unnumbered(why),
        Ok(()) => of_signed(decimal::parse_signed(s)),
    }
}

// n in decimal at the front of the output; 13 where it does not fit.
pub fn ox_text_digits(n: u64, out: &mut [u8]) -> Written
    ensures { Wrote result out.old out.new (decimal n) }
{
    let size = output::decimal_size(n);
    if out.len() < size {
        return Written {
            refusal: number(Refusal::ShortOutput),
            length: 0,
        };
    }
    let length = output::put_decimal(out, 0, n);
    Written { refusal: 0, length }
}
