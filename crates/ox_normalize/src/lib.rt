// What `normalize` does: bands, modes and mode classes. A place in an answer is a part of a text of the call, or an entry of
// the table of bands or of modes, whose name `ox_entry_name` gives.
#![tactic(auto)]

ghost use Rattle.std.specs.Prelude.{◌≡◌, ◌≤◌, length};
ghost use Rattle.tables.specs.Bands.{band_for, every_band};
ghost use Rattle.tables.specs.Place.{place, stands, band_place, name_of};
ghost use Rattle.ox_normalize.specs.Normalizing.{band_of, band_known_of, given_place, normalized_of, unnormalized_of, normalize_of, classified_by, mode_class_of, class_named_of, modes_of, class_name_of};

use normalize::{classes, modes};
use ox_text::{Told, untold};
use refusals::{Refusal, check_text, check_texts};
use tables::{ModeClass, Name, Place, Span, places};

#[repr(C)]
#[derive(Clone, Copy)]
pub struct Placed {
    pub refusal: u32,
    pub place: usize,
    pub entry: Place,
}

// `split` where no submode was given, or a blank one: the submode of the answer is then in the text of the mode.
// Kept: a flag beside the places, since C has no enum of the two.
#[repr(C)]
#[derive(Clone, Copy)]
pub struct Normalized {
    pub refusal: u32,
    pub place: usize,
    pub mode: Place,
    pub submode: Place,
    pub split: bool,
}

// 0 to 3 phone, cw, digital, image.
// Kept: C takes no Option, so whether there is one is a field.
#[repr(C)]
#[derive(Clone, Copy)]
pub struct Classified {
    pub refusal: u32,
    pub place: usize,
    pub present: bool,
    pub class: u32,
}

#[unsafe(no_mangle)]
pub extern "C" fn ox_band_for_freq_hz(hz: u64) -> Place
    ensures { result ≡ band_place (band_for hz) }
{
    bands::band_for_freq_hz(hz)
}

#[unsafe(no_mangle)]
pub extern "C" fn ox_band_all() -> Span
    ensures { result ≡ every_band }
{
    bands::known_bands()
}

// The name of an entry of the bands (kind 3) or of the modes (kind 4), of no bytes where there is none.
#[unsafe(no_mangle)]
pub extern "C" fn ox_entry_name(kind: u32, entry: u32) -> Name
    ensures { result ≡ name_of (place kind entry 0) }
{
    places::name_of(Place {
        kind,
        start: entry,
        len: 0,
    })
}

#[tactic(auto, unfolding(crate::specs::Normalizing::band_of))]
#[unsafe(no_mangle)]
pub extern "C" fn ox_band_canonical(s: &[u8]) -> Placed
    ensures { result ≡ band_of s.now }
{
    match check_text(s) {
        Err(why) => Placed {
            refusal: refusals::number(why),
            place: refusals::place(why),
            entry: places::absent(),
        },
        Ok(()) => Placed {
            refusal: 0,
            place: 0,
            entry: bands::canonical_band(s),
        },
    }
}

#[tactic(auto, unfolding(crate::specs::Normalizing::band_known_of))]
#[unsafe(no_mangle)]
pub extern "C" fn ox_band_known(s: &[u8]) -> Told
    ensures { result ≡ band_known_of s.now }
{
    match check_text(s) {
        Err(why) => untold(why),
        Ok(()) => Told {
            refusal: 0,
            place: 0,
            yes: bands::is_known_band(s),
        },
    }
}

// The whole text as it stands, or absent.
#[tactic(auto, unfolding(crate::specs::Normalizing::given_place))]
fn given_place(s: &[u8], given: bool) -> Place
    requires { length s.now ≤ 16777216 }
    ensures { result ≡ given_place s.now given }
{
    if given {
        places::stands(0, s.len() as u32)
    } else {
        places::absent()
    }
}

#[tactic(auto, unfolding(crate::specs::Normalizing::unnormalized_of))]
fn unnormalized(why: Refusal) -> Normalized
    ensures { result ≡ unnormalized_of why }
{
    Normalized {
        refusal: refusals::number(why),
        place: refusals::place(why),
        mode: places::absent(),
        submode: places::absent(),
        split: false,
    }
}

#[tactic(auto, unfolding(crate::specs::Normalizing::normalized_of))]
fn mode_answer(mode: &[u8], submode: &[u8], given: bool) -> Normalized
    requires { (length mode.now ≤ 16777216) × (length submode.now ≤ 16777216) }
    ensures { result ≡ normalized_of mode.now submode.now given }
{
    let m = given_place(mode, true);
    let s = given_place(submode, given);
    let r = modes::normalize_modes(mode, m, submode, s);
    Normalized {
        refusal: 0,
        place: 0,
        mode: r.mode,
        submode: r.submode,
        split: places::is_empty(places::tidy(submode, s)),
    }
}

// `submode` counts only where `given` is true.
#[tactic(auto, unfolding(crate::specs::Normalizing::normalize_of))]
#[unsafe(no_mangle)]
pub extern "C" fn ox_mode_normalize(mode: &[u8], submode: &[u8], given: bool) -> Normalized
    ensures { result ≡ normalize_of mode.now submode.now given }
{
    match check_texts(mode, submode) {
        Err(why) => unnormalized(why),
        Ok(()) => mode_answer(mode, submode, given),
    }
}

#[tactic(auto, unfolding(crate::specs::Normalizing::classified_by, crate::specs::Normalizing::unclassified_of, crate::specs::Normalizing::classified_of))]
fn class_answer(c: Result<Option<ModeClass>, Refusal>) -> Classified
    ensures { result ≡ classified_by c }
{
    match c {
        Err(why) => Classified {
            refusal: refusals::number(why),
            place: refusals::place(why),
            present: false,
            class: 0,
        },
        Ok(None) => Classified {
            refusal: 0,
            place: 0,
            present: false,
            class: 0,
        },
        Ok(Some(class)) => Classified {
            refusal: 0,
            place: 0,
            present: true,
            class: classes::class_number(class),
        },
    }
}

// The class of a mode.
#[tactic(auto, unfolding(crate::specs::Normalizing::mode_class_of, crate::specs::Normalizing::classified_by))]
#[unsafe(no_mangle)]
pub extern "C" fn ox_mode_class(s: &[u8]) -> Classified
    ensures { result ≡ mode_class_of s.now }
{
    class_answer(check_text(s).map(|()| classes::mode_class(s)))
}

// The class that a text names.
#[tactic(auto, unfolding(crate::specs::Normalizing::class_named_of, crate::specs::Normalizing::classified_by))]
#[unsafe(no_mangle)]
pub extern "C" fn ox_class_named(s: &[u8]) -> Classified
    ensures { result ≡ class_named_of s.now }
{
    class_answer(check_text(s).map(|()| classes::parse_class(s)))
}

// The modes of a class by its number, and the name of it; none where there is no such class.
#[tactic(auto, unfolding(crate::specs::Normalizing::modes_of))]
#[unsafe(no_mangle)]
pub extern "C" fn ox_class_modes(class: u32) -> Span
    ensures { result ≡ modes_of class }
{
    if class < 4 {
        classes::modes_in_class(classes::class_numbered(class))
    } else {
        Span { first: 0, count: 0 }
    }
}

#[tactic(auto, unfolding(crate::specs::Normalizing::class_name_of, tables::specs::Place::name_of))]
#[unsafe(no_mangle)]
pub extern "C" fn ox_class_name(class: u32) -> Name
    ensures { result ≡ class_name_of class }
{
    if class < 4 {
        classes::class_name(classes::class_numbered(class))
    } else {
        places::name_of(places::absent())
    }
}
