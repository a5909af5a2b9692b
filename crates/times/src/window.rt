// Whether two moments are near each other.
ghost use Rattle.std.specs.Prelude.{◌≡◌};
ghost use Rattle.times.specs.Window.{limit_of, apart, is_within};

// One more than the window, and 0 where it is below zero: a distance is within the window exactly if it is below this.
#[tactic(auto, using(crate::proofs::WindowLaws::below_zero_lem, crate::proofs::WindowLaws::casts, crate::proofs::WindowLaws::adds, crate::proofs::WindowLaws::limit_is))]
pub fn limit_of(window: i64) -> u64
    ensures { result ≡ limit_of window }
{
    if window < 0 {
        return 0;
    }
    window as u64 + 1
}

// How far apart two numbers are.
#[tactic(auto, using(crate::proofs::WindowLaws::before, crate::proofs::WindowLaws::after))]
pub fn distance(a: u64, b: u64) -> u64
    ensures { result ≡ apart a b }
{
    a.abs_diff(b)
}

// Both are moments, and their difference is at most the window.
#[tactic(auto, unfolding(crate::specs::Window::is_within))]
pub fn within_window(a: Option<u64>, b: Option<u64>, window: i64) -> bool
    ensures { result ≡ is_within a b window }
{
    match (a, b) {
        (Some(x), Some(y)) => distance(x, y) < limit_of(window),
        _ => false,
    }
}
