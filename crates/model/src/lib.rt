// A contact: thirteen columns, each a place in a text, beside its numbers; and how it is normalised. After `model.rs`.
#![tactic(auto)]

ghost use Rattle.std.specs.Prelude.{◌≡◌, ◌≤◌, length};
ghost use Rattle.text.specs.Pick.{pick};
ghost use Rattle.tables.specs.Place.{or_else};
ghost use Rattle.normalize.specs.Normal.{modal};
ghost use Rattle.model.specs.Flags.{one_if};
ghost use Rattle.model.specs.Normal.{band_at, known_band, blank, normal_band_place, normal_band_rx_place, normal_qso};
ghost use Rattle.model.specs.Answer.{is_part, is_entry, is_fit, are_fit, is_placed, is_flagged, is_qso, no_frequency, no_dxcc, empty_qso, accepted, refused, normalized_to};

use columns::{BAND, BAND_RX, MODE, SUBMODE};
use normalize::modes;
use refusals::Refusal;
use tables::{Place, places};

// A frequency in hertz, if one is given. Flags are numbers, 0 or 1, here and below: who calls fills them, and in the place of a `bool` could
// stand a byte that is neither.
#[repr(C)]
#[derive(Clone, Copy)]
pub struct Frequency {
    pub given: u8,
    pub hz: u64,
}

// The number of the DXCC entity by its size, if one is given.
#[repr(C)]
#[derive(Clone, Copy)]
pub struct Dxcc {
    pub given: u8,
    pub negative: u8,
    pub size: u64,
}

// The columns stand in the order of `columns`; all other fields of a record stay rows.
#[repr(C)]
#[derive(Clone, Copy)]
pub struct Qso {
    pub columns: [Place; 13],
    pub freq: Frequency,
    pub freq_rx: Frequency,
    pub dxcc: Dxcc,
}

// A QSO, and whether the call that gives it refused.
#[derive(Clone, Copy)]
pub struct Answer {
    pub qso: Qso,
    pub verdict: Result<(), Refusal>,
}

// A flag.
pub fn one_if(yes: bool) -> u8
    ensures { result ≡ one_if yes }
{
    u8::from(yes)
}

pub fn no_frequency() -> Frequency
    ensures { result ≡ no_frequency }
{
    Frequency { given: 0, hz: 0 }
}

pub fn no_dxcc() -> Dxcc
    ensures { result ≡ no_dxcc }
{
    Dxcc {
        given: 0,
        negative: 0,
        size: 0,
    }
}

pub fn empty() -> Qso
    ensures { result ≡ empty_qso }
{
    Qso {
        columns: [places::absent(); 13],
        freq: no_frequency(),
        freq_rx: no_frequency(),
        dxcc: no_dxcc(),
    }
}

pub fn accepted(qso: Qso) -> Answer
    ensures { result ≡ accepted qso }
{
    Answer {
        qso,
        verdict: Ok(()),
    }
}

pub fn refused(why: Refusal, qso: Qso) -> Answer
    ensures { result ≡ refused why qso }
{
    Answer {
        qso,
        verdict: Err(why),
    }
}

// ---- which QSOs are QSOs of a text
#[tactic(auto, unfolding(crate::specs::Answer::is_part))]
fn is_part(text: &[u8], p: Place) -> bool
    ensures { result ≡ is_part text.now p }
{
    let end = p.start as usize + p.len as usize;
    end <= text.len() && text::utf8::is_utf8(places::part(text, p))
}

#[tactic(auto, unfolding(crate::specs::Answer::is_entry, tables::specs::Bands::band_names, tables::specs::Bands::bands, tables::specs::Modes::mode_names, tables::specs::Modes::modes))]
fn is_entry(p: Place) -> bool
    ensures { result ≡ is_entry p }
{
    places::is_absent(p) || p.kind == 3 && p.start < 19 || p.kind == 4 && p.start < 31
}

// Most columns of a record are absent.
#[tactic(auto, unfolding(crate::specs::Answer::is_fit, crate::specs::Answer::is_entry))]
pub fn is_fit(text: &[u8], p: Place) -> bool
    ensures { result ≡ is_fit text.now p }
{
    if places::is_absent(p) {
        true
    } else if places::in_text(p) {
        is_part(text, p)
    } else {
        is_entry(p)
    }
}

fn are_fit(text: &[u8], columns: [Place; 13]) -> bool
    ensures { result ≡ are_fit text.now columns }
{
    columns.iter().all(|&p| is_fit(text, p))
}

// An entry of the bands is no mode.
#[tactic(auto, unfolding(normalize::specs::Normal::modal, tables::specs::Modes::mode_names, tables::specs::Modes::modes))]
fn is_modal(p: Place) -> bool
    ensures { result ≡ modal p }
{
    p.kind <= 2 || p.kind == 4 && p.start < 31
}

#[tactic(auto, unfolding(crate::specs::Answer::is_placed))]
fn is_placed(text: &[u8], qso: Qso) -> bool
    ensures { result ≡ is_placed text.now qso }
{
    are_fit(text, qso.columns) && is_modal(qso.columns[MODE]) && is_modal(qso.columns[SUBMODE])
}

// Every flag is 0 or 1, also one that nothing else looks at.
#[tactic(auto, unfolding(crate::specs::Answer::is_flagged))]
fn is_flagged(qso: Qso) -> bool
    ensures { result ≡ is_flagged qso }
{
    let hertz = qso.freq.given <= 1 && qso.freq_rx.given <= 1;
    let entity = qso.dxcc.given <= 1 && qso.dxcc.negative <= 1;
    hertz && entity
}

#[tactic(auto, unfolding(crate::specs::Answer::is_qso))]
pub fn is_qso(text: &[u8], qso: Qso) -> bool
    ensures { result ≡ is_qso text.now qso }
{
    is_flagged(qso) && is_placed(text, qso)
}

// ---- normalising
#[tactic(auto, unfolding(crate::specs::Normal::band_at))]
fn band_at(f: Frequency) -> Place
    ensures { result ≡ band_at f }
{
    if f.given == 1 {
        bands::band_for_freq_hz(f.hz)
    } else {
        places::absent()
    }
}

#[tactic(auto, unfolding(crate::specs::Normal::known_band))]
fn known_band(text: &[u8], p: Place) -> Place
    ensures { result ≡ known_band text.now p }
{
    bands::canonical_band(places::part(text, p))
}

#[tactic(auto, unfolding(crate::specs::Normal::blank, crate::specs::Normal::is_blank))]
fn is_blank(text: &[u8], p: Place) -> bool
    ensures { result ≡ blank text.now p }
{
    places::is_absent(p)
        || places::in_text(p) && text::space::trim(places::part(text, p)).len() == 0
}

// The band of the frequency or of the column, as told; the column as it is where there is none.
fn settled_band(text: &[u8], p: Place, f: Frequency, derives: bool) -> Place
    ensures { result ≡ or_else (pick derives (band_at f) (known_band text.now p)) p }
{
    let band = if derives {
        band_at(f)
    } else {
        known_band(text, p)
    };
    places::or_else(band, p)
}

// A blank band comes from the frequency. A known one takes its canonical case: "40M" must become "40m", the form that comes from a
// frequency, or the same contact would look new.
#[tactic(auto, unfolding(crate::specs::Normal::normal_band_place))]
fn normal_band(text: &[u8], p: Place, f: Frequency) -> Place
    ensures { result ≡ normal_band_place text.now p f }
{
    settled_band(text, p, f, is_blank(text, p))
}

// The receiver's band comes from its frequency only where it is absent: a blank one is left alone.
#[tactic(auto, unfolding(crate::specs::Normal::normal_band_rx_place))]
fn normal_band_rx(text: &[u8], p: Place, f: Frequency) -> Place
    ensures { result ≡ normal_band_rx_place text.now p f }
{
    settled_band(text, p, f, places::is_absent(p))
}

impl Qso {
    // The whole QSO, with only mode, submode, band and band_rx changed.
    #[tactic(auto, unfolding(crate::specs::Normal::normal_qso, crate::specs::Normal::normal_columns))]
    pub fn normalize(mut self, text: &[u8]) -> Qso
        requires { length text.now ≤ 16777216 }
        ensures { result ≡ normal_qso text.now self }
    {
        let pair = modes::normalize_mode(text, self.columns[MODE], self.columns[SUBMODE]);
        let band = normal_band(text, self.columns[BAND], self.freq);
        let band_rx = normal_band_rx(text, self.columns[BAND_RX], self.freq_rx);
        self.columns[MODE] = pair.mode;
        self.columns[SUBMODE] = pair.submode;
        self.columns[BAND] = band;
        self.columns[BAND_RX] = band_rx;
        self
    }
}

// The same for any QSO: one that is none of the text comes back unchanged.
#[tactic(auto, unfolding(crate::specs::Answer::normalized_to))]
pub fn normalized(text: &[u8], qso: Qso) -> Answer
    ensures { result ≡ normalized_to text.now qso }
{
    if refusals::LONGEST < text.len() {
        return refused(Refusal::TooLong, qso);
    }
    if !is_qso(text, qso) {
        return refused(Refusal::BadRow, qso);
    }
    accepted(qso.normalize(text))
}
