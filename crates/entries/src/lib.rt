// The records of a file as a plan sees them: mapped, normalised and checked, a row of plain numbers each. The table is one that a
// reading left, so a record's rows lie together and each record has one.
#![tactic(auto)]

ghost use Rattle.std.specs.Prelude.{◌≡◌, ◌+◌, ◌*◌, ◌-◌, ◌/◌, ◌≤◌, ◌<◌, length, get_or, take, drop};
ghost use Rattle.std.proofs.lemmas.List.Edits.{sets};
ghost use Rattle.tables.specs.Place.{part};
ghost use Rattle.adif.specs.Reading.{read_text};
ghost use Rattle.writer.specs.Rows.{rows_from};
ghost use Rattle.plan.specs.Entry.{is_refused};
ghost use Rattle.plan.specs.Fates.{bears_any};
ghost use Rattle.model.specs.Flags.{one_if};
ghost use Rattle.entries.specs.Row.{with_number, key_in, row_with, entry_row};
ghost use Rattle.entries.specs.Filled.{ReadInto, entries_read, Said, Answered, Bare};
ghost use Rattle.entries.specs.Walked.{shown_as, judged_as, judged_of, size_in, entry_rows};

use columns::{BAND, CALL, MODE, QSO_DATE, TIME_ON};
use confirmations::Answer;
use dedupe::Key;
use model::Qso;
use tables::{Place, places};

// The number in a column of a row.
pub fn number_in(row: [u32; 28], column: usize) -> usize
    requires { column < 28 }
    ensures { result ≡ get_or row column 0 }
{
    row[column] as usize
}

// The row with another number in a column.
pub fn with_number(row: [u32; 28], column: usize, value: u32) -> [u32; 28]
    requires { column < 28 }
    ensures { result ≡ with_number row column value }
{
    let mut other = row;
    other[column] = value;
    other
}

// The call, mode and band that it says.
pub fn key_in(row: [u32; 28]) -> Key
    ensures { result ≡ key_in row }
{
    Key {
        call: Place {
            kind: row[5],
            start: row[6],
            len: row[7],
        },
        mode: Place {
            kind: row[8],
            start: row[9],
            len: row[10],
        },
        band: Place {
            kind: row[11],
            start: row[12],
            len: row[13],
        },
    }
}

// The code of a record's call, mode and band, and why it is unusable, or 0.
#[derive(Clone, Copy)]
struct Judged {
    code: u32,
    reason: u32,
}

fn judge(
    text: &[u8],
    call: Place,
    mode: Place,
    band: Place,
    date: Place,
    time: Place,
    inexact: bool,
) -> Judged
    ensures { result ≡ judged_of text.now call mode band date time inexact }
{
    let called = places::name_of(call);
    let name = places::name_of(mode);
    let other = places::name_of(band);
    let c = dedupe::shown(text, &called.bytes[..called.len], call);
    let m = dedupe::shown(text, &name.bytes[..name.len], mode);
    let b = dedupe::shown(text, &other.bytes[..other.len], band);
    let code = index::code_of(
        text::space::trim(c),
        text::space::trim(m),
        text::space::trim(b),
    );
    let d = places::part(text, date);
    let t = places::part(text, time);
    let reason = usable::check(c, d, t, text::space::is_blank(m), inexact);
    Judged { code, reason }
}

fn bears_any(answers: [Answer; 4]) -> bool
    ensures { result ≡ bears_any answers }
{
    answers.iter().any(|a| a.present)
}

// The row of a normal QSO, whose record has `count` rows from row `first` on.
fn row_with(
    text: &[u8],
    table: &[u32],
    first: usize,
    count: usize,
    qso: Qso,
    inexact: bool,
) -> [u32; 28]
    requires { (length text.now ≤ 16777216) × ((first + count) * 5 ≤ length table.now) × (first + count < 4294967296) }
    ensures { result ≡ row_with text.now (rows_from table.now first count) qso inexact first count }
{
    let columns = qso.columns;
    let call = columns[CALL];
    let mode = columns[MODE];
    let band = columns[BAND];
    let date = columns[QSO_DATE];
    let time = columns[TIME_ON];
    let judged = judge(text, call, mode, band, date, time, inexact);
    let moment = dedupe::moment(text, date, time);
    let seconds = index::seconds_in(moment);
    let answers = confirmations::confirmations_in(text, table, first, count, date);
    [
        0,
        judged.reason,
        0,
        0,
        judged.code,
        call.kind,
        call.start,
        call.len,
        mode.kind,
        mode.start,
        mode.len,
        band.kind,
        band.start,
        band.len,
        date.kind,
        date.start,
        date.len,
        index::has_moment(moment),
        index::low_half(seconds),
        index::high_half(seconds),
        first as u32,
        count as u32,
        0,
        u32::from(bears_any(answers)),
        0,
        0,
        0,
        0,
    ]
}

fn row_of_record(text: &[u8], table: &[u32], first: usize, count: usize) -> [u32; 28]
    requires { (length text.now ≤ 16777216) × ((first + count) * 5 ≤ length table.now) × (first + count < 4294967296) }
    ensures { result ≡ entry_row text.now (rows_from table.now first count) first count }
{
    let answer = mapping::map_rows(text, table, first, count);
    let qso = answer.qso.normalize(text);
    row_with(text, table, first, count, qso, answer.verdict.is_err())
}

// How many rows from row `first` on have that number.
fn size_at(table: &[u32], first: usize, number: u32) -> usize
    requires { first * 5 ≤ length table.now }
    ensures value { result ≡ size_in number (rows_from table.now first (length table.now / 5 - first)) }
    ensures result_in_bounds { (first + result) * 5 ≤ length table.now }
{
    let rows = table.len() / 5;
    for i in first..rows {
        if table[i * 5] != number {
            return i - first;
        }
    }
    rows - first
}

// A row for each of the n records that were read.
pub fn fill(text: &[u8], table: &[u32], n: usize, rows: &mut [[u32; 28]])
    requires { ReadInto text.now table.now n × (n ≤ length rows.old) }
    ensures rows_after { rows.new ≡ sets rows.old 0 (entry_rows text.now (read_text text.now (length table.now / 5))) }
    ensures said { Said text.now n (entries_read text.now table.now) rows.new }
    ensures answered { Answered text.now table.now n (entries_read text.now table.now) rows.new }
    ensures bare { Bare n rows.new }
    ensures rows_len_unchanged { length rows.new ≡ length rows.old }
    ensures rows_unchanged { drop n rows.new ≡ drop n rows.old }
{
    let mut first = 0;
    for k in 0..n {
        let count = size_at(table, first, (k + 1) as u32);
        rows[k] = row_of_record(text, table, first, count);
        first += count;
    }
}
