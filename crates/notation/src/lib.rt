// The notation of recorded answers, a vector a line: OPERATION ARG.. = ANSWER, separated by blanks. A text stands in bars, where
// `%XX` is a byte that cannot stand for itself; a number is in decimal.
#![tactic(auto)]

ghost use Rattle.std.specs.Prelude.{◌≤◌, ◌<◌, ◌+◌, length, IfSome};

// The place after the first b from `from` on, or the end.
pub fn after(s: &[u8], from: usize, b: u8) -> usize
    ensures { result ≤ length s.now }
{
    if s.len() < from {
        return s.len();
    }
    let at = text::find(s, from, b);
    if at < s.len() { at + 1 } else { s.len() }
}

// The word from `from` on, up to a blank.
pub fn word(s: &[u8], from: usize) -> &[u8] {
    if s.len() < from {
        return s;
    }
    let end = text::find(s, from, b' ');
    &s[from..end]
}

// The text in bars from `from` on, decoded at the front of out; how many bytes it has.
pub fn text_at(s: &[u8], from: usize, out: &mut [u8]) -> usize
    ensures { result ≤ length out.new }
{
    let start = after(s, from, b'|');
    let end = text::find(s, start, b'|');
    decode(&s[start..end], out)
}

// The text itself.
pub fn text_in<'a>(s: &[u8], from: usize, out: &'a mut [u8]) -> &'a [u8]
    ensures { length result.now ≤ length out.old }
{
    let n = text_at(s, from, out);
    &out[..n]
}

// The text in bars of the line and the one behind it.
pub fn texts_in<'a>(line: &[u8], a: &'a mut [u8], b: &'a mut [u8]) -> (&'a [u8], &'a [u8])
    ensures { (length result.0.now ≤ length a.old) × (length result.1.now ≤ length b.old) }
{
    let first = text_in(line, 0, a);
    let second = text_in(line, after_text(line, 0), b);
    (first, second)
}

// The place after the text in bars from `from` on, and the blank behind it.
pub fn after_text(s: &[u8], from: usize) -> usize
    ensures { result ≤ length s.now }
{
    let start = after(s, from, b'|');
    let end = after(s, start, b'|');
    after(s, end, b' ')
}

// The number from `from` on, up to a blank, or 0 where none stands there.
pub fn number_at(s: &[u8], from: usize) -> u64 {
    decimal::parse_unsigned(word(s, from)).unwrap_or(0)
}

// The place after the argument, or the `=`, that stands at `at`.
fn next_argument(s: &[u8], at: usize) -> usize
    ensures { result ≤ length s.now }
{
    if text::byte(s, at) == b'|' {
        return after_text(s, at);
    }
    after(s, at, b' ')
}

// The line's own answer: what stands behind the `=` that follows its arguments.
pub fn answer(s: &[u8]) -> &[u8] {
    let mut at = after(s, 0, b' ');
    while at < s.len() {
        let next = next_argument(s, at);
        if text::byte(s, at) == b'=' {
            return &s[next..];
        }
        if next <= at {
            return s;
        }
        at = next;
    }
    s
}

fn hex(b: u8) -> u8
    ensures { result ≤ 15 }
{
    match b {
        b'A'..=b'F' => b - b'A' + 10,
        _ => b % 16,
    }
}

// The byte that stands in front, `%XX` being one, and what follows it. What is missing behind a `%` counts as 0.
fn first(s: &[u8]) -> Option<(u8, &[u8])>
    ensures { IfSome result (λ p. (length p.1.now < length s.now) × (length s.now ≤ length p.1.now + 3)) }
{
    match s {
        [] => None,
        [b'%', high, low, rest @ ..] => Some((hex(*high) * 16 + hex(*low), rest)),
        [b'%', high] => Some((hex(*high) * 16, &[])),
        [b'%'] => Some((0, &[])),
        [b, rest @ ..] => Some((*b, rest)),
    }
}

// The bytes that s stands for, put at the front of out.
pub fn decode(s: &[u8], out: &mut [u8]) -> usize
    ensures { result ≤ length out.new }
{
    let mut rest = s;
    for (k, slot) in out.iter_mut().enumerate() {
        let Some((b, tail)) = first(rest) else {
            return k;
        };
        *slot = b;
        rest = tail;
    }
    out.len()
}

// n in decimal, where there is room.
pub fn put_number(out: &mut [u8], at: usize, n: u64) -> Option<usize>
    ensures { IfSome result (λ n. n ≤ length out.new) }
{
    let size = output::decimal_size(n);
    if out.len() < size || out.len() - size < at {
        return None;
    }
    Some(output::put_decimal(out, at, n))
}

// The bytes of s, where there is room.
pub fn put_bytes(out: &mut [u8], at: usize, s: &[u8]) -> Option<usize>
    ensures { IfSome result (λ n. n ≤ length out.new) }
{
    if out.len() < s.len() || out.len() - s.len() < at {
        return None;
    }
    Some(output::put_bytes(out, at, s))
}

// b, where there is room.
pub fn put_byte(out: &mut [u8], at: usize, b: u8) -> Option<usize>
    ensures { IfSome result (λ n. n ≤ length out.new) }
{
    if out.len() <= at {
        return None;
    }
    Some(output::put_byte(out, at, b))
}

// The answer `none`, where there is room.
pub fn put_none(out: &mut [u8]) -> Option<usize>
    ensures { IfSome result (λ n. n ≤ length out.new) }
{
    put_bytes(out, 0, b"none")
}

// The answer n, or `none`, where there is room.
pub fn put_number_or_none(out: &mut [u8], n: Option<u64>) -> Option<usize>
    ensures { IfSome result (λ n. n ≤ length out.new) }
{
    match n {
        Some(v) => put_number(out, 0, v),
        None => put_none(out),
    }
}

// The numbers from `at` on, a blank before each but one at the very front, where there is room.
pub fn put_numbers<N: Copy + Into<u64>>(out: &mut [u8], at: usize, numbers: &[N]) -> Option<usize>
    requires { at ≤ length out.old }
    ensures { IfSome result (λ n. n ≤ length out.new) }
{
    let mut to = at;
    for &n in numbers {
        if 0 < to {
            to = put_byte(out, to, b' ')?;
        }
        to = put_number(out, to, n.into())?;
    }
    Some(to)
}

// Whether b stands for itself in a text in bars.
fn is_plain(b: u8) -> bool {
    b.is_ascii_graphic() && b != b'|' && b != b'%'
}

fn hex_digit(n: u8) -> u8
    requires { n ≤ 15 }
{
    if n < 10 { b'0' + n } else { b'7' + n }
}

// b as it stands in a text in bars, where there is room. What has none is left out, and what follows it goes on from the front.
fn put_coded(out: &mut [u8], at: usize, b: u8) -> Option<usize>
    ensures { IfSome result (λ n. n ≤ length out.new) }
{
    if is_plain(b) {
        return put_byte(out, at, b);
    }
    let sign = put_byte(out, at, b'%').unwrap_or(0);
    let high = put_byte(out, sign, hex_digit(b / 16)).unwrap_or(0);
    put_byte(out, high, hex_digit(b % 16))
}

// s in bars, each byte as f makes it, where there is room, and from the front again behind what has none.
pub fn put_bars_by<F: Fn(u8) -> u8>(out: &mut [u8], at: usize, s: &[u8], f: F) -> Option<usize>
    requires { F.IsAlwaysCallable f }
    ensures { IfSome result (λ n. n ≤ length out.new) }
{
    let mut to = put_byte(out, at, b'|').unwrap_or(0);
    for &b in s {
        to = put_coded(out, to, f(b)).unwrap_or(0);
    }
    put_byte(out, to, b'|')
}

// s in bars, where there is room.
pub fn put_bars(out: &mut [u8], at: usize, s: &[u8]) -> Option<usize>
    ensures { IfSome result (λ n. n ≤ length out.new) }
{
    put_bars_by(out, at, s, |b| b)
}
