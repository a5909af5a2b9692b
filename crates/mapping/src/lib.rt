// A record's rows as a QSO over their text. After `record_to_qso` of `adif.rs`.
#![tactic(auto)]

ghost use Rattle.std.specs.Prelude.{◌≡◌, ◌+◌, ◌*◌, ◌≤◌, length, ltb};
ghost use Rattle.text.specs.Pick.{both};
ghost use Rattle.text.specs.Space.{trimmed};
ghost use Rattle.decimal.specs.Decimal.{signed_of};
ghost use Rattle.mhz.specs.Reading.{read_hertz};
ghost use Rattle.rowcheck.specs.Check.{record_in};
ghost use Rattle.tables.specs.Place.{part};
ghost use Rattle.writer.specs.Rows.{rows_from};
ghost use Rattle.mapping.specs.Mapping.{columns_of, is_outside, frequency_of, dxcc_of, dxcc_at, qso_with, answer_with, answer_over, mapped, is_row, rises, is_record, mapped_to, with_normal, normal_to};

use columns::{DXCC, FREQ, FREQ_RX};
use decimal::Signed;
use mhz::Hz;
use model::{Answer, Dxcc, Frequency, Qso};
use refusals::Refusal;
use tables::{Place, places};

// From the last row to the first, so that of two rows of one name the first stands.
fn columns_of(text: &[u8], table: &[u32], first: usize, count: usize) -> [Place; 13]
    requires { (first + count) * 5 ≤ length table.now }
    ensures { result ≡ columns_of text.now (rows_from table.now first count) }
{
    let mut columns = [places::absent(); 13];
    for i in (0..count).rev() {
        let row = writer::row_at(table, first + i);
        let Some(k) = columns::column_of(rowcheck::name_of(text, row)) else {
            continue;
        };
        columns[k as usize] = places::value_place(row);
    }
    columns
}

fn is_outside(hz: Hz) -> bool
    ensures { result ≡ is_outside hz }
{
    matches!(hz, Hz::Outside)
}

fn frequency_of(hz: Hz) -> Frequency
    ensures { result ≡ frequency_of hz }
{
    match hz {
        Hz::Is(hz) => Frequency { given: 1, hz },
        Hz::Absent | Hz::Outside => model::no_frequency(),
    }
}

fn dxcc_of(number: Option<Signed>) -> Dxcc
    ensures { result ≡ dxcc_of number }
{
    match number {
        Some(Signed { negative, size }) => Dxcc {
            given: 1,
            negative: model::one_if(negative),
            size,
        },
        None => model::no_dxcc(),
    }
}

// Where a column is absent nothing is read.
fn number_at(text: &[u8], p: Place) -> Dxcc
    ensures { result ≡ dxcc_of (signed_of (trimmed (part text.now p))) }
{
    if places::is_absent(p) {
        return model::no_dxcc();
    }
    let digits = text::space::trim(places::part(text, p));
    dxcc_of(decimal::parse_signed(digits))
}

fn hertz_at(text: &[u8], p: Place) -> Hz
    ensures { result ≡ read_hertz (part text.now p) }
{
    if places::is_absent(p) {
        return Hz::Absent;
    }
    mhz::mhz_string_to_hz(places::part(text, p))
}

fn dxcc_at(text: &[u8], columns: [Place; 13]) -> Dxcc
    ensures { result ≡ dxcc_at text.now columns }
{
    number_at(text, columns[DXCC])
}

fn qso_with(text: &[u8], columns: [Place; 13], freq: Frequency, split: Frequency) -> Qso
    ensures { result ≡ qso_with text.now columns freq split }
{
    let dxcc = dxcc_at(text, columns);
    Qso {
        columns,
        freq,
        freq_rx: split,
        dxcc,
    }
}

fn answer_with(text: &[u8], columns: [Place; 13], freq: Hz, split: Hz) -> Answer
    ensures { result ≡ answer_with text.now columns freq split }
{
    if text::any(is_outside(freq), is_outside(split)) {
        let unknown = qso_with(text, columns, model::no_frequency(), model::no_frequency());
        return model::refused(Refusal::InexactFrequency, unknown);
    }
    model::accepted(qso_with(text, columns, frequency_of(freq), frequency_of(split)))
}

fn answer_over(text: &[u8], columns: [Place; 13]) -> Answer
    ensures { result ≡ answer_over text.now columns }
{
    let freq = hertz_at(text, columns[FREQ]);
    let split = hertz_at(text, columns[FREQ_RX]);
    answer_with(text, columns, freq, split)
}

// The QSO of `count` rows from row `first` on. Nothing is checked: rows that were read are rows of their text.
pub fn map_rows(text: &[u8], table: &[u32], first: usize, count: usize) -> Answer
    requires { (first + count) * 5 ≤ length table.now }
    ensures { result ≡ mapped text.now (rows_from table.now first count) }
{
    answer_over(text, columns_of(text, table, first, count))
}

fn is_row(text: &[u8], row: [u32; 5]) -> bool
    ensures { result ≡ is_row text.now row }
{
    text::all(
        rowcheck::is_placed(text, row),
        rowcheck::is_sound(text, row),
    )
}

fn does_rise(text: &[u8], p: [u32; 5], row: [u32; 5]) -> bool
    ensures { result ≡ rises text.now p row }
{
    let order = letters::order_raised(rowcheck::name_of(text, p), rowcheck::name_of(text, row));
    text::all(row[0] == p[0], rowcheck::is_less(order))
}

fn starts_record(text: &[u8], row: [u32; 5]) -> bool
    ensures { result ≡ both (is_row text.now row) (ltb 0 (record_in row)) }
{
    text::all(is_row(text, row), 0 < row[0])
}

fn continues_record(text: &[u8], p: [u32; 5], row: [u32; 5]) -> bool
    ensures { result ≡ both (is_row text.now row) (rises text.now p row) }
{
    text::all(is_row(text, row), does_rise(text, p, row))
}

fn is_record(text: &[u8], table: &[u32], first: usize, count: usize) -> bool
    requires { (first + count) * 5 ≤ length table.now }
    ensures { result ≡ is_record text.now (rows_from table.now first count) }
{
    if count == 0 {
        return true;
    }
    let mut p = writer::row_at(table, first);
    if !starts_record(text, p) {
        return false;
    }
    for i in 1..count {
        let row = writer::row_at(table, first + i);
        if !continues_record(text, p, row) {
            return false;
        }
        p = row;
    }
    true
}

// The same for any rows: those that are no record of the text are refused, with an empty QSO.
pub fn record_to_qso(text: &[u8], table: &[u32], first: usize, count: usize) -> Answer
    ensures { result ≡ mapped_to text.now table.now first count }
{
    if refusals::LONGEST < text.len() {
        return model::refused(Refusal::TooLong, model::empty());
    }
    let rows = table.len() / 5;
    if rows < first || rows - first < count {
        return model::refused(Refusal::BadRow, model::empty());
    }
    if !is_record(text, table, first, count) {
        return model::refused(Refusal::BadRow, model::empty());
    }
    map_rows(text, table, first, count)
}

fn normal_answer(text: &[u8], answer: Answer) -> Answer
    requires { length text.now ≤ 16777216 }
    ensures { result ≡ with_normal text.now answer }
{
    Answer {
        qso: answer.qso.normalize(text),
        ..answer
    }
}

// Mapped and normalised: what `parse_adif_to_qsos` makes of each record.
pub fn record_to_normal_qso(text: &[u8], table: &[u32], first: usize, count: usize) -> Answer
    ensures { result ≡ normal_to text.now table.now first count }
{
    let answer = record_to_qso(text, table, first, count);
    if refusals::LONGEST < text.len() {
        return answer;
    }
    normal_answer(text, answer)
}
