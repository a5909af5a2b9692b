// The exact window, and whole hertz of a decimal inside it.
ghost use Rattle.std.specs.Prelude.{◌≡◌, ◌+◌, ◌≤◌, ◌<◌};
ghost use Rattle.mhz.specs.Reading.{hertz_of, decimal_hertz};
ghost use Rattle.mhz.specs.Steps.{scaled_hertz};

use super::Hz;

fn of_value(v: f64) -> Hz
    ensures { result ≡ hertz_of v }
{
    if v < 0.0 {
        Hz::Absent
    } else {
        Hz::Is(hertz::to_hz(v))
    }
}

// digits * 10 ^ up / 10 ^ down, where the powers are near each other.
#[tactic(auto, unfolding(crate::specs::Steps::scaled_hertz, crate::specs::Reading::near, hertz::specs::Value::signed))]
fn scaled(negative: bool, digits: u64, up: usize, down: usize) -> Hz
    requires digits_bound { digits ≤ 9007199254740992 }
    requires up_bound { (up < 200000) × (down < 200000) }
    ensures { result ≡ scaled_hertz negative digits up down }
{
    if up > down + 22 || down > up + 22 {
        return Hz::Outside;
    }
    let v = hertz::value(digits, up, down);
    if negative { of_value(-v) } else { of_value(v) }
}

// Zero digits are zero hertz. With an exponent in its range, more than 65,557 fraction digits are too many.
#[tactic(auto, unfolding(crate::specs::Reading::decimal_hertz, crate::specs::Reading::in_window, crate::specs::Reading::near, crate::specs::Reading::up, crate::specs::Reading::down, crate::specs::Steps::scaled_hertz))]
pub fn of_decimal(negative: bool, digits: u64, fraction: usize, minus: bool, exponent: u64) -> Hz
    ensures { result ≡ decimal_hertz negative digits fraction minus exponent }
{
    if digits == 0 {
        return Hz::Is(0);
    }
    if digits > 9007199254740992 || exponent > 65535 || fraction > 65557 {
        return Hz::Outside;
    }
    if minus {
        scaled(negative, digits, 0, fraction + exponent as usize)
    } else {
        scaled(negative, digits, exponent as usize, fraction)
    }
}
