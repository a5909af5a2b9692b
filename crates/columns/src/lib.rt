// The names of the thirteen columns of a contact. Every other field of a record is extra.
#![tactic(auto)]

ghost use Rattle.std.specs.Prelude.{◌≡◌, ◌≤◌, length, take};
ghost use Rattle.letters.specs.Same.{same};
ghost use Rattle.letters.specs.Capitals.{capitals};
ghost use Rattle.tables.specs.Table.{is_found, first_from};
ghost use Rattle.columns.specs.Columns.{column_names, column_named};

use letters::{raise, same};

// The numbers of the columns.
pub const CALL: usize = 0;

pub const QSO_DATE: usize = 1;

pub const TIME_ON: usize = 2;

pub const BAND: usize = 3;

pub const MODE: usize = 4;

pub const SUBMODE: usize = 5;

pub const FREQ: usize = 6;

pub const FREQ_RX: usize = 7;

pub const BAND_RX: usize = 8;

pub const RST_SENT: usize = 9;

pub const RST_RCVD: usize = 10;

pub const GRIDSQUARE: usize = 11;

pub const DXCC: usize = 12;

// ---- a name as it stands, in capitals: names mostly are, and bytes that are the same need not be raised
// The columns whose names have four letters, seven, eight and ten: a name is compared with few others.
fn of_four(name: &[u8]) -> Option<u32>
    requires { length name.now ≡ 4 }
    ensures { result ≡ first_from (same name.now) 0 column_names }
{
    if same(name, b"CALL") {
        return Some(0);
    }
    if same(name, b"BAND") {
        return Some(3);
    }
    if same(name, b"MODE") {
        return Some(4);
    }
    if same(name, b"FREQ") {
        return Some(6);
    }
    if same(name, b"DXCC") {
        return Some(12);
    }
    None
}

fn of_seven(name: &[u8]) -> Option<u32>
    requires { length name.now ≡ 7 }
    ensures { result ≡ first_from (same name.now) 0 column_names }
{
    if same(name, b"TIME_ON") {
        return Some(2);
    }
    if same(name, b"SUBMODE") {
        return Some(5);
    }
    if same(name, b"FREQ_RX") {
        return Some(7);
    }
    if same(name, b"BAND_RX") {
        return Some(8);
    }
    None
}

fn of_eight(name: &[u8]) -> Option<u32>
    requires { length name.now ≡ 8 }
    ensures { result ≡ first_from (same name.now) 0 column_names }
{
    if same(name, b"QSO_DATE") {
        return Some(1);
    }
    if same(name, b"RST_SENT") {
        return Some(9);
    }
    if same(name, b"RST_RCVD") {
        return Some(10);
    }
    None
}

fn of_ten(name: &[u8]) -> Option<u32>
    requires { length name.now ≡ 10 }
    ensures { result ≡ first_from (same name.now) 0 column_names }
{
    if same(name, b"GRIDSQUARE") {
        return Some(11);
    }
    None
}

fn exactly(name: &[u8]) -> Option<u32>
    ensures { result ≡ first_from (same name.now) 0 column_names }
{
    match name.len() {
        4 => of_four(name),
        7 => of_seven(name),
        8 => of_eight(name),
        10 => of_ten(name),
        _ => None,
    }
}

// ---- the case of letters aside: no name has more than ten bytes, and one of another length need not be raised
fn in_capitals(name: &[u8]) -> [u8; 10]
    requires { length name.now ≤ 10 }
    ensures { take (length name.now) result ≡ capitals name.now }
{
    let mut bytes = [0; 10];
    for (i, &b) in name.iter().enumerate() {
        bytes[i] = raise(b);
    }
    bytes
}

fn case_aside(name: &[u8]) -> Option<u32>
    ensures { result ≡ column_named name.now }
{
    match name.len() {
        4 | 7 | 8 | 10 => {
            let bytes = in_capitals(name);
            exactly(&bytes[..name.len()])
        }
        _ => None,
    }
}

// The column that a field's name names.
pub fn column_of(name: &[u8]) -> Option<u32>
    ensures { result ≡ column_named name.now }
{
    exactly(name).or_else(|| case_aside(name))
}

// A field whose name is no column's is extra.
pub fn is_column(name: &[u8]) -> bool
    ensures { result ≡ is_found (column_named name.now) }
{
    column_of(name).is_some()
}
