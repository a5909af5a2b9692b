// What Rust's `str` gives to rigflow, on byte slices: tests of bytes, the search for a byte, UTF-8 and white space.
#![tactic(auto)]

ghost use Rattle.std.specs.Prelude.{◌≡◌, ◌≤◌, length, get_or};
ghost use Rattle.text.specs.Pick.{both, either, within};
ghost use Rattle.text.specs.Walk.{ends};
ghost use Rattle.text.specs.Find.{other};

pub mod space;
pub mod utf8;

pub fn all(a: bool, b: bool) -> bool
    ensures { result ≡ both a b }
{
    a && b
}

pub fn any(a: bool, b: bool) -> bool
    ensures { result ≡ either a b }
{
    a || b
}

pub fn inside(x: u8, lo: u8, hi: u8) -> bool
    ensures { result ≡ within x lo hi }
{
    (lo..=hi).contains(&x)
}

// The byte at i, or 0 past the end.
pub fn byte(s: &[u8], i: usize) -> u8
    ensures { result ≡ get_or s.now i 0 }
{
    s.get(i).copied().unwrap_or(0)
}

// The place of the first b from `from` on, or the length.
pub fn find(s: &[u8], from: usize, b: u8) -> usize
    requires { from ≤ length s.now }
    ensures value { result ≡ ends (other b) s.now from }
    ensures lower_bound { (from ≤ result) × (result ≤ length s.now) }
{
    for i in from..s.len() {
        if s[i] == b {
            return i;
        }
    }
    s.len()
}
