// What the library answers to the vectors on texts, in their own notation.
#![tactic(auto)]

ghost use Rattle.std.specs.Prelude.{◌≤◌, length, IfSome};

use decimal::Signed;
use notation::{
    put_byte, put_none, put_number, put_number_or_none, put_numbers, text_in, texts_in,
};
use std::cmp::Ordering;

// The first byte kept and the first one after.
fn put_trimmed(out: &mut [u8], s: &[u8]) -> Option<usize>
    ensures { IfSome result (λ n. n ≤ length out.new) }
{
    let start = text::space::trim_start(s);
    let end = start + text::space::trim_end(&s[start..]);
    put_numbers(out, 0, &[start as u64, end as u64])
}

// Where the byte stands in s, by the two numbers behind the line's text: from where on, and which.
fn place(line: &[u8], s: &[u8]) -> usize {
    let at = notation::after_text(line, 0);
    let from = notation::number_at(line, at) as usize;
    let wanted = notation::number_at(line, notation::after(line, at, b' '));
    if from <= s.len() {
        text::find(s, from, (wanted % 256) as u8)
    } else {
        0
    }
}

fn put_signed(out: &mut [u8], n: Option<Signed>) -> Option<usize>
    ensures { IfSome result (λ n. n ≤ length out.new) }
{
    let Some(Signed { negative, size }) = n else {
        return put_none(out);
    };
    let at = if negative {
        put_byte(out, 0, b'-').unwrap_or(0)
    } else {
        0
    };
    put_number(out, at, size)
}

fn put_digits(out: &mut [u8], n: u64) -> Option<usize>
    ensures { IfSome result (λ n. n ≤ length out.new) }
{
    let at = put_byte(out, 0, b'|').unwrap_or(0);
    let end = put_number(out, at, n).unwrap_or(0);
    put_byte(out, end, b'|')
}

fn order(s: &[u8], t: &[u8]) -> u64 {
    match letters::order_raised(s, t) {
        Ordering::Less => 0,
        Ordering::Equal => 1,
        Ordering::Greater => 2,
    }
}

// The answer to the line, put at the front of out; nothing where its operation is unknown.
pub fn answer(op: &[u8], line: &[u8], a: &mut [u8], b: &mut [u8], out: &mut [u8]) -> Option<usize>
    ensures { IfSome result (λ n. n ≤ length out.new) }
{
    match op {
        b"utf8" => put_number(out, 0, text::utf8::valid_up_to(text_in(line, 0, a)) as u64),
        b"trim" => put_trimmed(out, text_in(line, 0, a)),
        b"find" => put_number(out, 0, place(line, text_in(line, 0, a)) as u64),
        b"unsigned" => put_number_or_none(out, decimal::parse_unsigned(text_in(line, 0, a))),
        b"signed" => put_signed(out, decimal::parse_signed(text_in(line, 0, a))),
        b"digits" => put_digits(
            out,
            notation::number_at(line, notation::after(line, 0, b' ')),
        ),
        b"same" => {
            let (s, t) = texts_in(line, a, b);
            put_number(out, 0, letters::same(s, t) as u64)
        }
        b"same_raised" => {
            let (s, t) = texts_in(line, a, b);
            put_number(out, 0, letters::same_raised(s, t) as u64)
        }
        b"order" => {
            let (s, t) = texts_in(line, a, b);
            put_number(out, 0, order(s, t))
        }
        _ => None,
    }
}
