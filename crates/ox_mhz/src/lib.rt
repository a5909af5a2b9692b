// Megahertz texts to hertz, and back. A text is refused with 1, 2 and its place, and then with 15 where it is a number outside the
// exact window; a frequency to write with 14, and then with 13 where the output is too short.
#![tactic(auto)]

ghost use Rattle.std.specs.Prelude.{◌≡◌};
ghost use Rattle.ox_mhz.specs.Frequencies.{untuned_of, of_hz, frequency_of, WroteMhz};

use mhz::Hz;
use ox_text::Written;
use refusals::{Refusal, check_text, number, place};

// Not `present` where the text is no number, or one below zero.
// Kept: C takes no Option, so whether there is one is a field.
#[repr(C)]
#[derive(Clone, Copy)]
pub struct Frequency {
    pub refusal: u32,
    pub place: usize,
    pub present: bool,
    pub hz: u64,
}

impl From<Refusal> for Frequency {
    ghost from_gives = { λ why r. r ≡ untuned_of why };

    #[tactic(auto, unfolding(crate::specs::Frequencies::untuned_of))]
    fn from(why: Refusal) -> Frequency {
        Frequency {
            refusal: number(why),
            place: place(why),
            present: false,
            hz: 0,
        }
    }
}

impl From<Hz> for Frequency {
    ghost from_gives = { λ hz r. r ≡ of_hz hz };

    #[tactic(auto, unfolding(crate::specs::Frequencies::of_hz))]
    fn from(hz: Hz) -> Frequency {
        match hz {
            Hz::Absent => Frequency {
                refusal: 0,
                place: 0,
                present: false,
                hz: 0,
            },
            Hz::Is(n) => Frequency {
                refusal: 0,
                place: 0,
                present: true,
                hz: n,
            },
            Hz::Outside => Frequency::from(Refusal::InexactFrequency),
        }
    }
}

// As rigflow's `mhz_string_to_hz`.
#[tactic(auto, unfolding(crate::specs::Frequencies::frequency_of))]
#[unsafe(no_mangle)]
pub extern "C" fn ox_mhz_to_hz(mhz: &[u8]) -> Frequency
    ensures { result ≡ frequency_of mhz.now }
{
    match check_text(mhz) {
        Err(why) => Frequency::from(why),
        Ok(()) => Frequency::from(mhz::mhz_string_to_hz(mhz)),
    }
}

// As rigflow's `hz_to_mhz_string`, at the front of the output.
#[unsafe(no_mangle)]
pub extern "C" fn ox_hz_to_mhz(hz: u64, out: &mut [u8]) -> Written
    ensures { WroteMhz result out.old out.new hz }
{
    Written::from(mhz::hz_to_mhz_string(hz, out, 0))
}
