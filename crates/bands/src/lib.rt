// The bands by frequency and by name. Bounds are those of ADIF's BAND, both ends inside, so that a dial on a band's edge is in
// the band; 60m is the whole 5 MHz allocation, since only some countries have channels there.
#![tactic(auto)]

ghost use Rattle.std.specs.Prelude.{◌≡◌, ◌≤◌, length};
ghost use Rattle.tables.specs.Table.{first_from, is_found};
ghost use Rattle.text.specs.Pick.{within};
ghost use Rattle.tables.specs.Bands.{band_for, band_named, every_band};
ghost use Rattle.tables.specs.Place.{band_place};

use tables::{Place, Span, places};

// Each band from its lowest frequency to its highest.
const BOUNDS: [(u64, u64); 19] = [
    (135_700, 137_800),
    (472_000, 479_000),
    (1_800_000, 2_000_000),
    (3_500_000, 4_000_000),
    (5_060_000, 5_450_000),
    (7_000_000, 7_300_000),
    (10_100_000, 10_150_000),
    (14_000_000, 14_350_000),
    (18_068_000, 18_168_000),
    (21_000_000, 21_450_000),
    (24_890_000, 24_990_000),
    (28_000_000, 29_700_000),
    (50_000_000, 54_000_000),
    (70_000_000, 71_000_000),
    (144_000_000, 148_000_000),
    (222_000_000, 225_000_000),
    (420_000_000, 450_000_000),
    (902_000_000, 928_000_000),
    (1_240_000_000, 1_300_000_000),
];

// The names as keys: 1, then the bytes in capitals.
const KEYS: [u64; 19] = [
    0x1_32_31_39_30_4D,
    0x1_36_33_30_4D,
    0x1_31_36_30_4D,
    0x1_38_30_4D,
    0x1_36_30_4D,
    0x1_34_30_4D,
    0x1_33_30_4D,
    0x1_32_30_4D,
    0x1_31_37_4D,
    0x1_31_35_4D,
    0x1_31_32_4D,
    0x1_31_30_4D,
    0x1_36_4D,
    0x1_34_4D,
    0x1_32_4D,
    0x1_31_2E_32_35_4D,
    0x1_37_30_43_4D,
    0x1_33_33_43_4D,
    0x1_32_33_43_4D,
];

// The first band that holds the frequency. The table is lent, since an index into a constant lays the whole table on the stack.
fn band_in(bounds: &[(u64, u64)], hz: u64) -> Option<u32>
    requires { length bounds.now ≤ 255 }
    ensures { result ≡ first_from (λ b. within hz b.0 b.1) 0 bounds.now }
{
    let i = bounds
        .iter()
        .position(|&(low, high)| hz <= high && low <= hz)?;
    Some(i as u32)
}

fn entry_of(f: Option<u32>) -> Place
    ensures { result ≡ band_place f }
{
    f.map_or(places::absent(), places::band_entry)
}

// The band of a frequency, or absent: never a guess.
pub fn band_for_freq_hz(hz: u64) -> Place
    ensures { result ≡ band_place (band_for hz) }
{
    entry_of(band_in(&BOUNDS, hz))
}

fn find_band(band: &[u8]) -> Option<u32>
    ensures { result ≡ band_named band.now }
{
    tables::first_key(&KEYS, tables::text_key(text::space::trim(band)))
}

// The entry of the band that the text names, so that "40M" is "40m". Absent if it names none: the caller leaves it alone.
pub fn canonical_band(band: &[u8]) -> Place
    ensures { result ≡ band_place (band_named band.now) }
{
    entry_of(find_band(band))
}

pub fn is_known_band(band: &[u8]) -> bool
    ensures { result ≡ is_found (band_named band.now) }
{
    find_band(band).is_some()
}

// The entries of every band, low to high.
pub fn known_bands() -> Span
    ensures { result ≡ every_band }
{
    Span {
        first: 0,
        count: 19,
    }
}
