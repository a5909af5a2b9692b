// Places made, and read. The kinds are numbers for the callers in C.
ghost use Rattle.std.specs.Prelude.{◌≡◌, ◌≤◌, length, take, drop};
ghost use Rattle.tables.specs.Place.{place, absent, stands, value_place, in_capitals, band_entry, mode_entry, in_text, part, name_of};
ghost use Rattle.tables.specs.Place.{tidy, is_absent, is_empty, or_else, spelled, or_empty};
ghost use Rattle.tables.specs.Table.{entry};
ghost use Rattle.tables.specs.Bands.{band_names};
ghost use Rattle.tables.specs.Modes.{mode_names};

use super::{Name, Place, band_names, mode_names, name_in, no_name};

fn place(kind: u32, start: u32, len: u32) -> Place
    ensures { result ≡ place kind start len }
{
    Place { kind, start, len }
}

pub fn absent() -> Place
    ensures { result ≡ absent }
{
    place(0, 0, 0)
}

pub fn stands(start: u32, len: u32) -> Place
    ensures { result ≡ stands start len }
{
    place(1, start, len)
}

pub fn in_capitals(start: u32, len: u32) -> Place
    ensures { result ≡ in_capitals start len }
{
    place(2, start, len)
}

pub fn band_entry(k: u32) -> Place
    ensures { result ≡ band_entry k }
{
    place(3, k, 0)
}

pub fn mode_entry(k: u32) -> Place
    ensures { result ≡ mode_entry k }
{
    place(4, k, 0)
}

// Where the value of a row stands: record, place and length of a name, place and length of a value.
pub fn value_place(row: [u32; 5]) -> Place
    ensures { result ≡ value_place row }
{
    stands(row[3], row[4])
}

pub fn is_absent(p: Place) -> bool
    ensures { result ≡ is_absent p }
{
    p.kind == 0
}

pub fn in_text(p: Place) -> bool
    ensures { result ≡ in_text p }
{
    p.kind == 1 || p.kind == 2
}

// Absent, or a part of no bytes.
pub fn is_empty(p: Place) -> bool
    ensures { result ≡ is_empty p }
{
    is_absent(p) || in_text(p) && p.len == 0
}

pub fn or_else(p: Place, q: Place) -> Place
    ensures { result ≡ or_else p q }
{
    if is_absent(p) { q } else { p }
}

// At most len bytes from start on.
fn bytes_at(text: &[u8], start: usize, len: usize) -> &[u8]
    ensures { result.now ≡ take len (drop start text.now) }
{
    let rest = &text[start.min(text.len())..];
    &rest[..len.min(rest.len())]
}

// The part of the text at which the place is: of no bytes where it is not in the text.
#[tactic(auto, unfolding(crate::specs::Place::part))]
pub fn part(text: &[u8], p: Place) -> &[u8]
    ensures { result.now ≡ part text.now p }
{
    let start = p.start as usize;
    let len = p.len as usize;
    if in_text(p) {
        bytes_at(text, start, len)
    } else {
        &[]
    }
}

// The place trimmed, and in capitals.
pub fn tidy(text: &[u8], p: Place) -> Place
    requires { length text.now ≤ 16777216 }
    ensures { result ≡ tidy text.now p }
{
    if in_text(p) {
        let s = part(text, p);
        let a = text::space::trim_start(s);
        let rest = &s[a..];
        let n = text::space::trim_end(rest);
        in_capitals(p.start + a as u32, n as u32)
    } else {
        p
    }
}

// The name of entry k of the bands, and of the modes. Each lays its table out only where it is called.
fn band_name(k: usize) -> Name
    ensures { result ≡ spelled (or_empty (entry band_names k)) }
{
    name_in(&band_names::NAMES, &band_names::LENS, k)
}

fn mode_name(k: usize) -> Name
    ensures { result ≡ spelled (or_empty (entry mode_names k)) }
{
    name_in(&mode_names::NAMES, &mode_names::LENS, k)
}

// The name of an entry.
#[tactic(auto, unfolding(crate::specs::Place::name_of))]
pub fn name_of(p: Place) -> Name
    ensures { result ≡ name_of p }
{
    let k = p.start as usize;
    match p.kind {
        3 => band_name(k),
        4 => mode_name(k),
        _ => no_name(),
    }
}
