// The field of a column: its name, and the bytes of its cell.
#![tactic(auto)]

ghost use Rattle.std.specs.Prelude.{◌≡◌, ◌≤◌, length};
ghost use Rattle.output.specs.Put.{Put, Room};
ghost use Rattle.tables.specs.Place.{bytes};
ghost use Rattle.cells.specs.Cells.{number_text, cell_text};
ghost use Rattle.cellfields.specs.Fields.{column_name, tag_text, cell_field};

use cells::Cell;
use tables::{Name, Place, places};

// The names of the columns in byte order.
// Kept: names in a fixed width, and their lengths beside, since `tables::name_in` makes of them the `Name` of the C interface.
const NAMES: [[u8; 12]; 13] = [
    *b"BAND\0\0\0\0\0\0\0\0",
    *b"BAND_RX\0\0\0\0\0",
    *b"CALL\0\0\0\0\0\0\0\0",
    *b"DXCC\0\0\0\0\0\0\0\0",
    *b"FREQ\0\0\0\0\0\0\0\0",
    *b"FREQ_RX\0\0\0\0\0",
    *b"GRIDSQUARE\0\0",
    *b"MODE\0\0\0\0\0\0\0\0",
    *b"QSO_DATE\0\0\0\0",
    *b"RST_RCVD\0\0\0\0",
    *b"RST_SENT\0\0\0\0",
    *b"SUBMODE\0\0\0\0\0",
    *b"TIME_ON\0\0\0\0\0",
];

const LENS: [usize; 13] = [4, 7, 4, 4, 4, 7, 10, 4, 8, 8, 8, 7, 7];

pub fn column_name(k: usize) -> Name
    ensures { result ≡ column_name k }
{
    tables::name_in(&NAMES, &LENS, k)
}

// ---- the bytes of a cell
fn number_size(negative: bool, n: u64) -> usize
    ensures value { result ≡ length (number_text negative n) }
    ensures upper_bound { result ≤ 21 }
{
    let digits = output::decimal_size(n);
    if text::all(negative, 0 < n) {
        return digits + 1;
    }
    digits
}

fn put_number(out: &mut [u8], at: usize, negative: bool, n: u64) -> usize
    requires { Room out.old at (number_text negative n) }
    ensures { Put result out.old out.new at (number_text negative n) }
{
    if text::all(negative, 0 < n) {
        let a = output::put_byte(out, at, b'-');
        return output::put_decimal(out, a, n);
    }
    output::put_decimal(out, at, n)
}

fn put_words(out: &mut [u8], at: usize, text: &[u8], p: Place) -> usize
    requires { Room out.old at (bytes text.now p) }
    ensures { Put result out.old out.new at (bytes text.now p) }
{
    if p.kind == 1 {
        return output::put_bytes(out, at, places::part(text, p));
    }
    if p.kind == 2 {
        return fields::put_raised(out, at, places::part(text, p));
    }
    let name = places::name_of(p);
    let spelled = &name.bytes[..name.len];
    output::put_bytes(out, at, spelled)
}

fn cell_size(text: &[u8], cell: Cell) -> usize
    requires { length text.now ≤ 16777216 }
    ensures value { result ≡ length (cell_text text.now cell) }
    ensures upper_bound { result ≤ 16777216 }
{
    match cell {
        Cell::Dropped => 0,
        Cell::Words(p) => cells::words_size(text, p),
        Cell::Megahertz(hz) => mhz::mhz_size(hz),
        Cell::Number { negative, size } => number_size(negative, size),
    }
}

fn put_cell(out: &mut [u8], at: usize, text: &[u8], cell: Cell) -> usize
    requires { Room out.old at (cell_text text.now cell) }
    ensures { Put result out.old out.new at (cell_text text.now cell) }
{
    match cell {
        Cell::Dropped => at,
        Cell::Words(p) => put_words(out, at, text, p),
        Cell::Megahertz(hz) => mhz::put_mhz(out, at, hz),
        Cell::Number { negative, size } => put_number(out, at, negative, size),
    }
}

// ---- the field
fn put_tag(out: &mut [u8], at: usize, k: usize, size: u64) -> usize
    requires { Room out.old at (tag_text k size) }
    ensures { Put result out.old out.new at (tag_text k size) }
{
    let name = column_name(k);
    let spelled = &name.bytes[..name.len];
    let a = fields::put_open(out, at, spelled);
    fields::put_length(out, a, size)
}

pub fn put_field(out: &mut [u8], at: usize, text: &[u8], k: usize, cell: Cell) -> usize
    requires { (length text.now ≤ 16777216) × Room out.old at (cell_field text.now k cell) }
    ensures { Put result out.old out.new at (cell_field text.now k cell) }
{
    let a = put_tag(out, at, k, cell_size(text, cell) as u64);
    let b = put_cell(out, a, text, cell);
    output::put_byte(out, b, b' ')
}

// The length of the field's text.
pub fn field_size(text: &[u8], k: usize, cell: Cell) -> usize
    requires { length text.now ≤ 16777216 }
    ensures value { result ≡ length (cell_field text.now k cell) }
    ensures upper_bound { result ≤ 16777300 }
{
    let n = cell_size(text, cell);
    let name = column_name(k);
    name.len + n + output::decimal_size(n as u64) + 4
}
