// Frequencies: a text that says megahertz, as whole hertz, and back. After `mhz_string_to_hz` and `hz_to_mhz_string` of `adif.rs`.
#![tactic(auto)]

ghost use Rattle.std.specs.Prelude.{◌≡◌, length};
ghost use Rattle.output.specs.Put.{Put, Room};
ghost use Rattle.mhz.specs.Reading.{read_hertz};
ghost use Rattle.mhz.specs.Digits.{last_digits};
ghost use Rattle.mhz.specs.Writing.{mhz_text, Written};

use refusals::Refusal;

mod number;
mod window;

// Not a number, or below zero; whole hertz; a number outside the exact window.
// Kept: three answers, of which only `Outside` is refused, so neither an Option nor a Result.
#[derive(Clone, Copy)]
pub enum Hz {
    Absent,
    Is(u64),
    Outside,
}

pub fn mhz_string_to_hz(mhz: &[u8]) -> Hz
    ensures { result ≡ read_hertz mhz.now }
{
    number::of_text(text::space::trim(mhz))
}

// The last k digits of n, from the last on.
fn put_last(out: &mut [u8], at: usize, k: usize, n: u64) -> usize
    requires { Room out.old at (last_digits k n) }
    ensures { Put result out.old out.new at (last_digits k n) }
{
    let mut rest = n;
    for i in 0..k {
        out[at + (k - i - 1)] = b'0' + (rest % 10) as u8;
        rest /= 10;
    }
    at + k
}

// How many bytes hz takes as megahertz.
pub fn mhz_size(hz: u64) -> usize
    ensures { result ≡ length (mhz_text hz) }
{
    output::decimal_size(hz / 1000000) + 7
}

pub fn put_mhz(out: &mut [u8], at: usize, hz: u64) -> usize
    requires { Room out.old at (mhz_text hz) }
    ensures { Put result out.old out.new at (mhz_text hz) }
{
    let point = output::put_decimal(out, at, hz / 1000000);
    let rest = output::put_byte(out, point, b'.');
    put_last(out, rest, 6, hz % 1000000)
}

// The place after what was written, or why nothing was: the frequency is too high, or the output too short.
pub fn hz_to_mhz_string(hz: u64, out: &mut [u8], at: usize) -> Result<usize, Refusal>
    ensures { Written result out.old out.new at hz }
{
    if hz >= 8589934592000000 {
        return Err(Refusal::FrequencyTooHigh);
    }
    if at > out.len() || out.len() - at < mhz_size(hz) {
        return Err(Refusal::ShortOutput);
    }
    Ok(put_mhz(out, at, hz))
}
