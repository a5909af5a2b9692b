// A QSO as a record of ADIF text. After `qso_to_record` of `adif.rs`. The QSO and its extra rows are checked and the text is measured
// first, and then it is written, or nothing is.
#![tactic(auto)]

ghost use Rattle.std.specs.Prelude.{◌≡◌, ◌+◌, ◌*◌, ◌≤◌, length, take};
ghost use Rattle.text.specs.Pick.{pick};
ghost use Rattle.letters.specs.Capitals.{capitals};
ghost use Rattle.letters.specs.Same.{same, same_raised};
ghost use Rattle.headers.specs.Answer.{capped};
ghost use Rattle.writer.specs.Rows.{row_at, rows_of};
ghost use Rattle.writer.specs.Answer.{sized_by};
ghost use Rattle.cells.specs.Cells.{column_order, cells_of, cell_fields};
ghost use Rattle.cellfields.specs.Fields.{name_at};
ghost use Rattle.qsowriter.specs.Writing.{qso_text, is_too_high, extra_verdict, qso_verdict, written_to, answer_to, output_after};
ghost use Rattle.qsowriter.specs.Steps.{taken_by, written_count, as_first};

use cells::Cell;
use model::{Frequency, Qso};
use refusals::Refusal;

// What was written, or why nothing was; and the QSO, unchanged.
#[derive(Clone, Copy)]
pub struct WrittenQso {
    pub written: Result<usize, Refusal>,
    pub qso: Qso,
}

// From that frequency on binary64 would not write every hertz.
fn is_too_high(f: Frequency) -> bool
    ensures { result ≡ is_too_high f }
{
    text::all(f.given == 1, 8589934592000000 <= f.hz)
}

// The column has that name.
fn is_named(k: usize, name: &[u8]) -> bool
    ensures { result ≡ same (name_at k) (capitals name.now) }
{
    let column = cellfields::column_name(k);
    let spelled = &column.bytes[..column.len];
    letters::same_raised(spelled, name)
}

// A column that is written has that name.
fn is_written(cells: [Cell; 13], name: &[u8]) -> bool
    ensures { result ≡ taken_by column_order cells name.now }
{
    for (k, &cell) in cells.iter().enumerate() {
        if cells::is_dropped(cell) {
            continue;
        }
        if is_named(k, name) {
            return true;
        }
    }
    false
}

// The same, quick where the name is no column's.
fn is_taken(cells: [Cell; 13], name: &[u8]) -> bool
    ensures { result ≡ taken_by column_order cells name.now }
{
    if columns::is_column(name) {
        return is_written(cells, name);
    }
    false
}

fn written_count(cells: [Cell; 13]) -> usize
    ensures value { result ≡ written_count cells }
    ensures upper_bound { result ≤ 13 }
{
    let mut n = 0;
    for &cell in cells.iter() {
        n += usize::from(!cells::is_dropped(cell));
    }
    n
}

// The record of an extra row is not read: each stands as a row of record 1.
fn extra_at(table: &[u32], i: usize) -> [u32; 5]
    requires { i * 5 + 5 ≤ length table.now }
    ensures { result ≡ as_first (row_at table.now i) }
{
    let a = i * 5;
    [1, table[a + 1], table[a + 2], table[a + 3], table[a + 4]]
}

// How many fields stand in the way of one more: none where the name is a column's already.
fn in_the_way(taken: bool, c: usize) -> usize
    ensures { result ≡ pick taken 0 c }
{
    if taken { 0 } else { c }
}

fn with_row(taken: bool, c: usize) -> usize
    requires { c ≤ 256 }
    ensures { result ≡ pick taken c (c + 1) }
{
    if taken { c } else { c + 1 }
}

// The extra rows one after the other: n is 0 before the first, c counts the fields so far, p is the row before.
fn check_extra(text: &[u8], cells: [Cell; 13], table: &[u32], count: usize) -> Result<(), Refusal>
    requires { count * 5 ≤ length table.now }
    ensures { result ≡ extra_verdict text.now (cell_fields text.now column_order cells) (rows_of table.now count) }
{
    let mut n: u32 = 0;
    let mut c = written_count(cells);
    let mut p = [0u32; 5];
    for i in 0..count {
        let row = extra_at(table, i);
        let taken = is_taken(cells, rowcheck::name_of(text, row));
        rowcheck::verdict_of(text, n, in_the_way(taken, c), p, row)?;
        c = with_row(taken, c);
        n = 1;
        p = row;
    }
    Ok(())
}

fn verdict_of(
    text: &[u8],
    qso: Qso,
    cells: [Cell; 13],
    table: &[u32],
    count: usize,
) -> Result<(), Refusal>
    requires { cells ≡ cells_of text.now qso }
    ensures { result ≡ qso_verdict text.now qso table.now count }
{
    if refusals::LONGEST < text.len() {
        return Err(Refusal::TooLong);
    }
    if text::any(is_too_high(qso.freq), is_too_high(qso.freq_rx)) {
        return Err(Refusal::FrequencyTooHigh);
    }
    if !model::is_qso(text, qso) {
        return Err(Refusal::BadRow);
    }
    if table.len() / 5 < count {
        return Err(Refusal::BadRow);
    }
    check_extra(text, cells, table, count)
}

// The size of the text, at most one more than a text may have, or why it is not written.
fn measured(
    text: &[u8],
    qso: Qso,
    cells: [Cell; 13],
    table: &[u32],
    count: usize,
) -> Result<usize, Refusal>
    requires { cells ≡ cells_of text.now qso }
    ensures { result ≡ sized_by (qso_verdict text.now qso table.now count) (capped (length (qso_text text.now qso (rows_of table.now count)))) }
{
    verdict_of(text, qso, cells, table, count)?;
    Ok(merge::merged_size(text, cells, table, count))
}

fn written_by(
    text: &[u8],
    qso: Qso,
    table: &[u32],
    count: usize,
    out: &mut [u8],
) -> Result<usize, Refusal>
    ensures value { result ≡ written_to text.now qso table.now count (length out.old) }
    ensures out_after { out.new ≡ output_after text.now qso table.now count out.old }
{
    let cells = cells::cells_of(text, qso);
    refusals::fit(measured(text, qso, cells, table, count), out.len())?;
    Ok(merge::put_merged(out, text, cells, table, count))
}

// The text of the QSO and of the first `count` rows of the table, its extra fields, goes to the output.
pub fn write_qso(text: &[u8], qso: Qso, table: &[u32], count: usize, out: &mut [u8]) -> WrittenQso
    ensures value { result ≡ answer_to text.now qso table.now count (length out.old) }
    ensures out_after { out.new ≡ output_after text.now qso table.now count out.old }
{
    WrittenQso {
        written: written_by(text, qso, table, count, out),
        qso,
    }
}
