// Bytes put into a lent output. Each function asks for room, writes just its own bytes, and gives the place after them.
#![tactic(auto)]

ghost use Rattle.std.specs.Prelude.{◌≡◌, [], ◌∷◌, length};
ghost use Rattle.decimal.specs.Digits.{digits, decimal};
ghost use Rattle.output.specs.Put.{Put, Room};

pub fn put_byte(out: &mut [u8], at: usize, b: u8) -> usize
    requires { Room out.old at (b ∷ []) }
    ensures { Put result out.old out.new at (b ∷ []) }
{
    out[at] = b;
    at + 1
}

#[tactic(auto, unfolding(crate::specs::Put::Put, crate::specs::Put::Room))]
pub fn put_bytes(out: &mut [u8], at: usize, src: &[u8]) -> usize
    requires { Room out.old at src.now }
    ensures { Put result out.old out.new at src.now }
{
    let end = at + src.len();
    out[at..end].copy_from_slice(src);
    end
}

// How many digits n has, at most k.
fn digit_count(k: usize, n: u64) -> usize
    ensures { result ≡ length (digits k n) }
{
    if k == 0 {
        return 0;
    }
    if n < 10 {
        return 1;
    }
    digit_count(k - 1, n / 10) + 1
}

// The digits of n, at most k.
fn put_digits(out: &mut [u8], at: usize, k: usize, n: u64) -> usize
    requires { Room out.old at (digits k n) }
    ensures { Put result out.old out.new at (digits k n) }
{
    if k == 0 {
        return at;
    }
    if n < 10 {
        return put_byte(out, at, 48 + n as u8);
    }
    let e = put_digits(out, at, k - 1, n / 10);
    put_byte(out, e, 48 + (n % 10) as u8)
}

// How many bytes n takes in decimal.
pub fn decimal_size(n: u64) -> usize
    ensures { result ≡ length (decimal n) }
{
    digit_count(20, n)
}

pub fn put_decimal(out: &mut [u8], at: usize, n: u64) -> usize
    requires { Room out.old at (decimal n) }
    ensures { Put result out.old out.new at (decimal n) }
{
    put_digits(out, at, 20, n)
}
