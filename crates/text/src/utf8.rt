// UTF-8, as Unicode's table 3-7 has it.
ghost use Rattle.std.specs.Prelude.{◌≡◌, ◌+◌, ◌≤◌, ◌<◌, length, drop};
ghost use Rattle.text.specs.Pick.{pick};
ghost use Rattle.text.specs.Utf8.{cont, long_char, char_len, valid_up_to, second3, second4, utf8};
ghost use Rattle.text.specs.Blocks.{Passed, UpTo};

use super::{byte, inside};

// How many bytes are looked at together.
const BLOCK: usize = 256;

// Texts of fewer bytes are looked at byte by byte.
const SHORT: usize = 8;

fn choose(t: bool, a: u8, b: u8) -> u8
    ensures { result ≡ pick t a b }
{
    if t { a } else { b }
}

fn continues(b: u8) -> bool
    ensures { result ≡ cont b }
{
    inside(b, 0x80, 0xBF)
}

#[tactic(auto, unfolding(crate::specs::Utf8::second3))]
fn second_of_3(a: u8, b: u8) -> bool
    ensures { result ≡ second3 a b }
{
    inside(
        b,
        choose(a <= 0xE0, 0xA0, 0x80),
        choose(inside(a, 0xED, 0xED), 0x9F, 0xBF),
    )
}

#[tactic(auto, unfolding(crate::specs::Utf8::second4))]
fn second_of_4(a: u8, b: u8) -> bool
    ensures { result ≡ second4 a b }
{
    inside(
        b,
        choose(a <= 0xF0, 0x90, 0x80),
        choose(0xF4 <= a, 0x8F, 0xBF),
    )
}

#[tactic(auto, unfolding(crate::specs::Utf8::long_char))]
fn long_char(a: u8, b: u8, c: u8, d: u8) -> usize
    ensures { result ≡ long_char a b c d }
{
    match a {
        0xC2..=0xDF if continues(b) => 2,
        0xE0..=0xEF if second_of_3(a, b) && continues(c) => 3,
        0xF0..=0xF4 if second_of_4(a, b) && continues(c) && continues(d) => 4,
        _ => 0,
    }
}

// How many bytes the character at i has, 0 where none begins there.
fn char_at(s: &[u8], i: usize) -> usize
    requires { i < length s.now }
    ensures value { result ≡ char_len (drop i s.now) }
    ensures result_in_bounds { i + result ≤ length s.now }
{
    let a = s[i];
    if a <= 0x7F {
        return 1;
    }
    long_char(a, byte(s, i + 1), byte(s, i + 2), byte(s, i + 3))
}

// From `from` on, character by character: the place where none begins, or the first place from `to` on.
fn chars_up_to(s: &[u8], from: usize, to: usize) -> usize
    requires { (from ≤ to) × (to ≤ length s.now) }
    ensures { Passed s.now from to result }
{
    let mut i = from;
    while i < to {
        if s[i] <= 0x7F {
            i += 1;
            continue;
        }
        let w = char_at(s, i);
        if w == 0 {
            return i;
        }
        i += w;
    }
    i
}

// A byte that no byte of s is above.
#[tactic(auto, unfolding(crate::specs::Blocks::UpTo))]
fn largest(s: &[u8]) -> u8
    ensures { UpTo s.now result }
{
    let mut top: u8 = 0;
    for &b in s {
        top = top.max(b);
    }
    top
}

// Where the block from i on ends.
fn block_end(i: usize, len: usize) -> usize
    requires { i < len }
    ensures { (i < result) × (result ≤ len) }
{
    i + (len - i).min(BLOCK)
}

// A block of ASCII is whole characters and is passed at once.
fn blocks_up_to(s: &[u8]) -> usize
    ensures { result ≡ valid_up_to s.now }
{
    let mut i = 0;
    while i < s.len() {
        let e = block_end(i, s.len());
        if largest(&s[i..e]) <= 0x7F {
            i = e;
        } else {
            let j = chars_up_to(s, i, e);
            if j < e {
                return j;
            }
            i = j;
        }
    }
    i
}

// How many bytes of ASCII stand in front.
fn ascii_in_front(s: &[u8]) -> usize
    ensures { Passed s.now 0 0 result }
{
    for i in 0..s.len() {
        if 0x7F < s[i] {
            return i;
        }
    }
    s.len()
}

// The place of the first byte that belongs to no whole character, or the length. For the few bytes of a name no block pays.
pub fn valid_up_to(s: &[u8]) -> usize
    ensures { result ≡ valid_up_to s.now }
{
    if s.len() < SHORT {
        let i = ascii_in_front(s);
        if i == s.len() {
            return i;
        }
        return chars_up_to(s, i, s.len());
    }
    blocks_up_to(s)
}

pub fn is_utf8(s: &[u8]) -> bool
    ensures { result ≡ utf8 s.now }
{
    valid_up_to(s) == s.len()
}
