// White space (Unicode's White_Space), and texts trimmed of it.
ghost use Rattle.std.specs.Prelude.{◌≡◌, reverse, ◌+◌, ◌≤◌, ◌<◌, length, get_or, drop};
ghost use Rattle.text.specs.Pick.{pick, within};
ghost use Rattle.text.specs.Walk.{lead};
ghost use Rattle.text.specs.Space.{space1, space2, space80, space3, space_ahead, width, trim_start, trim_end, trimmed, blank};

use super::inside;

#[tactic(auto, unfolding(crate::specs::Space::space1))]
fn is_space1(a: u8) -> bool
    ensures { result ≡ space1 a }
{
    inside(a, 0x09, 0x0D) || a == 0x20
}

#[tactic(auto, unfolding(crate::specs::Space::space2))]
fn is_space2(a: u8, b: u8) -> bool
    ensures { result ≡ space2 a b }
{
    a == 0xC2 && (b == 0x85 || b == 0xA0)
}

#[tactic(auto, unfolding(crate::specs::Space::space80))]
fn is_space80(c: u8) -> bool
    ensures { result ≡ space80 c }
{
    inside(c, 0x80, 0x8A) || inside(c, 0xA8, 0xA9) || c == 0xAF
}

#[tactic(auto, unfolding(crate::specs::Space::space3))]
fn is_space3(a: u8, b: u8, c: u8) -> bool
    ensures { result ≡ space3 a b c }
{
    (a == 0xE1 && b == 0x9A && c == 0x80)
        || (a == 0xE2 && b == 0x80 && is_space80(c))
        || (a == 0xE2 && b == 0x81 && c == 0x9F)
        || (a == 0xE3 && b == 0x80 && c == 0x80)
}

#[tactic(auto, unfolding(crate::specs::Space::width))]
fn width_of(p: bool, q: bool, r: bool) -> usize
    ensures { result ≡ width p q r }
{
    if p {
        1
    } else if q {
        2
    } else if r {
        3
    } else {
        0
    }
}

// Visible ASCII or DEL, which neither begins nor ends white space.
fn is_plain(a: u8) -> bool
    ensures { result ≡ within a 0x21 0x7F }
{
    inside(a, 0x21, 0x7F)
}

// The byte at i, counted from the end where `back`, or 0 past all of them.
#[inline(always)]
fn byte_from(s: &[u8], i: usize, back: bool) -> u8
    ensures { result ≡ get_or (pick back (reverse s.now) s.now) i 0 }
{
    if i < s.len() {
        s[if back { s.len() - 1 - i } else { i }]
    } else {
        0
    }
}

// How many bytes of white space stand at i, read from the end where `back`.
#[inline(always)]
fn space_from(s: &[u8], i: usize, back: bool) -> usize
    requires { i < length s.now }
    ensures value { result ≡ space_ahead back (drop i (pick back (reverse s.now) s.now)) }
    ensures result_in_bounds { i + result ≤ length s.now }
{
    let a = byte_from(s, i, back);
    if is_plain(a) {
        return 0;
    }
    let one = is_space1(a);
    if one {
        return 1;
    }
    let b = byte_from(s, i + 1, back);
    let c = byte_from(s, i + 2, back);
    if back {
        width_of(one, is_space2(b, a), is_space3(c, b, a))
    } else {
        width_of(one, is_space2(a, b), is_space3(a, b, c))
    }
}

// How many bytes of white space s begins with, or ends with where `back`.
#[inline(always)]
fn spaces(s: &[u8], back: bool) -> usize
    ensures value { result ≡ lead (space_ahead back) (pick back (reverse s.now) s.now) }
    ensures upper_bound { result ≤ length s.now }
{
    let mut i = 0;
    while i < s.len() {
        let w = space_from(s, i, back);
        if w == 0 {
            return i;
        }
        i += w;
    }
    i
}

// Where the text of s starts, after white space.
pub fn trim_start(s: &[u8]) -> usize
    ensures value { result ≡ trim_start s.now }
    ensures upper_bound { result ≤ length s.now }
{
    spaces(s, false)
}

// Where the text of s ends, before white space.
pub fn trim_end(s: &[u8]) -> usize
    ensures value { result ≡ trim_end s.now }
    ensures upper_bound { result ≤ length s.now }
{
    s.len() - spaces(s, true)
}

// By itself, so that the two tests of `trim` are compiled into its callers and this is not.
#[inline(never)]
fn cut(s: &[u8]) -> &[u8]
    ensures { result.now ≡ trimmed s.now }
{
    let a = trim_start(s);
    let rest = &s[a..];
    let n = trim_end(rest);
    &rest[..n]
}

// s without the white space at both ends. Most texts have none, and two bytes tell.
#[inline(always)]
pub fn trim(s: &[u8]) -> &[u8]
    ensures { result.now ≡ trimmed s.now }
{
    if is_plain(byte_from(s, 0, false)) && is_plain(byte_from(s, 0, true)) {
        s
    } else {
        cut(s)
    }
}

// s is empty or white space throughout.
pub fn is_blank(s: &[u8]) -> bool
    ensures { result ≡ blank s.now }
{
    trim_start(s) == s.len()
}
