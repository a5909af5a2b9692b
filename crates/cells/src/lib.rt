// What each column of a QSO writes, in byte order of the columns' names.
#![tactic(auto)]

ghost use Rattle.std.specs.Prelude.{◌≡◌, length};
ghost use Rattle.tables.specs.Place.{bytes};
ghost use Rattle.cells.specs.Cells.{has_value, words_cell, band_cell, split_cell, megahertz_cell, entity_cell, cells_of, is_dropped};

use columns::{
    BAND, BAND_RX, CALL, GRIDSQUARE, MODE, QSO_DATE, RST_RCVD, RST_SENT, SUBMODE, TIME_ON,
};
use model::{Dxcc, Frequency, Qso};
use tables::{Place, places};

// No field; the bytes of a place; a frequency in hertz; a signed number by its size.
#[derive(Clone, Copy)]
pub enum Cell {
    Dropped,
    Words(Place),
    Megahertz(u64),
    Number { negative: bool, size: u64 },
}

// How many bytes a place stands for.
pub fn words_size(text: &[u8], p: Place) -> usize
    ensures { result ≡ length (bytes text.now p) }
{
    let part = places::part(text, p);
    if places::in_text(p) {
        return part.len();
    }
    let name = places::name_of(p);
    name.len
}

// A place that is not absent, and whose entry its table has.
fn has_value(p: Place) -> bool
    ensures { result ≡ has_value p }
{
    let band = text::all(p.kind == 3, p.start < 19);
    let mode = text::all(p.kind == 4, p.start < 31);
    text::any(places::in_text(p), text::any(band, mode))
}

fn words_cell(p: Place) -> Cell
    ensures { result ≡ words_cell p }
{
    if has_value(p) {
        Cell::Words(p)
    } else {
        Cell::Dropped
    }
}

// An empty BAND is dropped.
fn band_cell(text: &[u8], p: Place) -> Cell
    ensures { result ≡ band_cell text.now p }
{
    if words_size(text, p) == 0 {
        Cell::Dropped
    } else {
        Cell::Words(p)
    }
}

// BAND_RX is dropped without FREQ_RX.
fn split_cell(p: Place, f: Frequency) -> Cell
    ensures { result ≡ split_cell p f }
{
    if f.given == 1 {
        words_cell(p)
    } else {
        Cell::Dropped
    }
}

fn megahertz_cell(f: Frequency) -> Cell
    ensures { result ≡ megahertz_cell f }
{
    if f.given == 1 {
        Cell::Megahertz(f.hz)
    } else {
        Cell::Dropped
    }
}

fn entity_cell(d: Dxcc) -> Cell
    ensures { result ≡ entity_cell d }
{
    if d.given == 1 {
        Cell::Number {
            negative: d.negative == 1,
            size: d.size,
        }
    } else {
        Cell::Dropped
    }
}

// CALL, QSO_DATE, TIME_ON and MODE are always written, even empty.
pub fn cells_of(text: &[u8], q: Qso) -> [Cell; 13]
    ensures { result ≡ cells_of text.now q }
{
    let band = band_cell(text, q.columns[BAND]);
    let band_rx = split_cell(q.columns[BAND_RX], q.freq_rx);
    let dxcc = entity_cell(q.dxcc);
    let freq = megahertz_cell(q.freq);
    let freq_rx = megahertz_cell(q.freq_rx);
    let grid = words_cell(q.columns[GRIDSQUARE]);
    let rcvd = words_cell(q.columns[RST_RCVD]);
    let sent = words_cell(q.columns[RST_SENT]);
    let submode = words_cell(q.columns[SUBMODE]);
    [
        band,
        band_rx,
        Cell::Words(q.columns[CALL]),
        dxcc,
        freq,
        freq_rx,
        grid,
        Cell::Words(q.columns[MODE]),
        Cell::Words(q.columns[QSO_DATE]),
        rcvd,
        sent,
        submode,
        Cell::Words(q.columns[TIME_ON]),
    ]
}

pub fn is_dropped(cell: Cell) -> bool
    ensures { result ≡ is_dropped cell }
{
    matches!(cell, Cell::Dropped)
}
