// Modes and submodes brought to ADIF's own.
ghost use Rattle.std.specs.Prelude.{◌≡◌, ◌≤◌, length};
ghost use Rattle.normalize.specs.Normal.{entry_at, parent_of_key, alias_of_key, parent_entry, aliased_place, split_place, normal_places};

use super::ModePair;
use tables::{Place, first_key, number_at, places, text_key};

// The submodes as keys: 1, then the bytes of the name.
const SUBMODES: [u64; 10] = [
    0x1_50_53_4B_33_31, // PSK31
    0x1_50_53_4B_36_33, // PSK63
    0x1_50_53_4B_31_32_35, // PSK125
    0x1_51_50_53_4B_33_31, // QPSK31
    0x1_51_50_53_4B_36_33, // QPSK63
    0x1_46_54_34, // FT4
    0x1_4A_53_38, // JS8
    0x1_4A_54_36_35_41, // JT65A
    0x1_4A_54_36_35_42, // JT65B
    0x1_4A_54_36_35_43, // JT65C
];

// The number of each submode's parent among the modes.
const PARENTS: [u32; 10] = [14, 14, 14, 14, 14, 6, 6, 7, 7, 7];

// What operators and other software write that is not ADIF's mode: USB and LSB are sidebands.
const ALIASES: [u64; 7] = [
    0x1_55_53_42, // USB
    0x1_4C_53_42, // LSB
    0x1_43_57_55, // CWU
    0x1_43_57_4C, // CWL
    0x1_50_4B_54_55_53_42, // PKTUSB
    0x1_44_49_47, // DIG
    0x1_44_41_54_41, // DATA
];

// The number of the mode for which each alias stands.
const ALIASED: [u32; 7] = [0, 0, 4, 4, 6, 6, 6];

// The mode whose number stands at the entry that was found.
fn mode_at(numbers: &[u32], f: Option<u32>) -> Place
    ensures { result ≡ entry_at numbers.now f }
{
    f.map_or(
        places::absent(),
        |k| places::mode_entry(number_at(numbers, k)),
    )
}

fn parent_of_key(k: u64) -> Place
    ensures { result ≡ parent_of_key k }
{
    mode_at(&PARENTS, first_key(&SUBMODES, k))
}

fn alias_of_key(k: u64) -> Place
    ensures { result ≡ alias_of_key k }
{
    mode_at(&ALIASED, first_key(&ALIASES, k))
}

fn parent_of_submode(sm: &[u8]) -> Place
    ensures { result ≡ parent_entry sm.now }
{
    parent_of_key(text_key(sm))
}

fn alias_mode(text: &[u8], m: Place) -> Place
    ensures { result ≡ aliased_place text.now m }
{
    places::or_else(alias_of_key(text_key(places::part(text, m))), m)
}

// No submode: the mode may be a submode itself, which is common.
fn split_mode(text: &[u8], m: Place) -> ModePair
    ensures { result ≡ split_place text.now m }
{
    let k = text_key(places::part(text, m));
    let parent = parent_of_key(k);
    if places::is_absent(parent) {
        ModePair {
            mode: places::or_else(alias_of_key(k), m),
            submode: places::absent(),
        }
    } else {
        ModePair {
            mode: parent,
            submode: m,
        }
    }
}

// A mode in a first text and a submode in a second, brought to ADIF's MODE and SUBMODE. An explicit submode wins, and sets its
// parent as the mode if that is known; an unknown mode passes in capitals.
pub fn normalize_modes(first: &[u8], mode: Place, second: &[u8], submode: Place) -> ModePair
    requires { (length first.now ≤ 16777216) × (length second.now ≤ 16777216) }
    ensures { result ≡ normal_places first.now mode second.now submode }
{
    let m = places::tidy(first, mode);
    let s = places::tidy(second, submode);
    if places::is_empty(s) {
        return split_mode(first, m);
    }
    let parent = parent_of_submode(places::part(second, s));
    ModePair {
        mode: places::or_else(parent, alias_mode(first, m)),
        submode: s,
    }
}

// The same where both are in one text.
pub fn normalize_mode(text: &[u8], mode: Place, submode: Place) -> ModePair
    requires { length text.now ≤ 16777216 }
    ensures { result ≡ normal_places text.now mode text.now submode }
{
    normalize_modes(text, mode, text, submode)
}
