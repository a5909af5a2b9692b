// Binary64 in the exact window: a decimal's value by one product or quotient, and whole hertz of it, worked out from the bits.
#![tactic(auto)]

ghost use Rattle.std.specs.Prelude.{◌≡◌, ◌+◌, ◌^◌, ◌≤◌, ◌<◌};
ghost use Rattle.hertz.specs.Value.{ten_to, parsed};
ghost use Rattle.hertz.specs.Whole.{rounded, to_hz};

// 10 ^ k, exactly. The arms compile to a constant table; an indexed `const` would be laid on the stack at every call.
fn ten_to(k: usize) -> f64
    requires { k < 23 }
    ensures { result ≡ ten_to k }
{
    match k {
        0 => 1.0,
        1 => 10.0,
        2 => 100.0,
        3 => 1e3,
        4 => 1e4,
        5 => 1e5,
        6 => 1e6,
        7 => 1e7,
        8 => 1e8,
        9 => 1e9,
        10 => 1e10,
        11 => 1e11,
        12 => 1e12,
        13 => 1e13,
        14 => 1e14,
        15 => 1e15,
        16 => 1e16,
        17 => 1e17,
        18 => 1e18,
        19 => 1e19,
        20 => 1e20,
        21 => 1e21,
        _ => 1e22,
    }
}

// digits * 10 ^ up / 10 ^ down, rounded once: digits and the power of ten are exact.
pub fn value(digits: u64, up: usize, down: usize) -> f64
    requires digits_bound { digits ≤ 2 ^ 53 }
    requires up_bound { (up ≤ down + 22) × (down ≤ up + 22) }
    ensures { result ≡ parsed digits up down }
{
    if down <= up {
        (digits as f64) * ten_to(up - down)
    } else {
        (digits as f64) / ten_to(down - up)
    }
}

// x.round() as u64. From a half up to 2 ^ 64 the bits say digits * 2 ^ (exponent - 1075).
fn rounded_to_u64(x: f64) -> u64
    ensures { result ≡ rounded x }
{
    if x >= 0.5 {
        if x < 18446744073709551616.0 {
            let bits: u64 = f64::to_bits(x);
            let exponent: u64 = bits / 4503599627370496;
            let digits: u64 = bits % 4503599627370496 + 4503599627370496;
            if exponent < 1075 {
                ((digits >> (1074 - exponent)) + 1) / 2
            } else {
                digits << (exponent - 1075)
            }
        } else {
            0xffff_ffff_ffff_ffff
        }
    } else {
        0
    }
}

// (v * 1_000_000.0).round() as u64
pub fn to_hz(v: f64) -> u64
    ensures { result ≡ to_hz v }
{
    rounded_to_u64(v * 1_000_000.0)
}
