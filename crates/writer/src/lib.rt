// Rows to ADIF text: the rows are checked and their text measured first, and then it is written, or nothing is.
#![tactic(auto)]

ghost use Rattle.std.specs.Prelude.{◌≡◌, ◌++◌, ◌+◌, ◌*◌, ◌-◌, ◌≤◌, ◌<◌, length};
ghost use Rattle.rowcheck.specs.Check.{record_in};
ghost use Rattle.fields.specs.Written.{field_text};
ghost use Rattle.output.specs.Put.{Put, Room};
ghost use Rattle.writer.specs.Rows.{row_at, rows_from, rows_of, row_field, ends_before, end_text, rows_text};
ghost use Rattle.writer.specs.Answer.{checked_of, answer_of, output_of};

use refusals::Refusal;

// The row i.
pub fn row_at(table: &[u32], i: usize) -> [u32; 5]
    requires { i * 5 + 5 ≤ length table.now }
    ensures { result ≡ row_at table.now i }
{
    let a = i * 5;
    [
        table[a],
        table[a + 1],
        table[a + 2],
        table[a + 3],
        table[a + 4],
    ]
}

fn record_at(table: &[u32], i: usize) -> u32
    requires { i * 5 + 5 ≤ length table.now }
    ensures { result ≡ record_in (row_at table.now i) }
{
    table[i * 5]
}

// Whether the record of row i ends there.
fn ends_at(table: &[u32], count: usize, i: usize) -> bool
    requires { (i < count) × (count * 5 ≤ length table.now) }
    ensures { result ≡ ends_before (record_in (row_at table.now i)) (rows_from table.now (i + 1) (count - (i + 1))) }
{
    let j = i + 1;
    j == count || record_at(table, i) != record_at(table, j)
}

// The length of a row's text, and of the record's end where it ends there.
fn row_size(text: &[u8], row: [u32; 5], ends: bool) -> usize
    requires { length text.now ≤ 16777216 }
    ensures value { result ≡ length (field_text (row_field text.now row) ++ end_text ends) }
    ensures upper_bound { result ≤ 33554500 }
{
    let k = fields::field_size(rowcheck::name_of(text, row), rowcheck::value_of(text, row));
    if ends {
        return k + 6;
    }
    k
}

// All rows are checked, and their text is measured.
fn check_rows(text: &[u8], table: &[u32], count: usize) -> Result<usize, Refusal>
    requires { (length text.now ≤ 16777216) × (count * 5 ≤ length table.now) }
    ensures { result ≡ checked_of text.now (rows_of table.now count) }
{
    let mut n = 0;
    let mut c = 0;
    let mut p = [0; 5];
    let mut size = 0;
    for i in 0..count {
        let row = row_at(table, i);
        rowcheck::verdict_of(text, n, c, p, row)?;
        size += row_size(text, row, ends_at(table, count, i));
        c = rowcheck::count_with(n, c, row);
        n = rowcheck::record_of(row);
        p = row;
    }
    Ok(size)
}

fn put_row(out: &mut [u8], at: usize, text: &[u8], row: [u32; 5], ends: bool) -> usize
    requires { Room out.old at (field_text (row_field text.now row) ++ end_text ends) }
    ensures { Put result out.old out.new at (field_text (row_field text.now row) ++ end_text ends) }
{
    let a = fields::put_field(
        out,
        at,
        rowcheck::name_of(text, row),
        rowcheck::value_of(text, row),
    );
    if ends {
        return output::put_bytes(out, a, b"<EOR>\n");
    }
    a
}

fn put_rows(out: &mut [u8], text: &[u8], table: &[u32], count: usize) -> usize
    requires { (count * 5 ≤ length table.now) × Room out.old 0 (rows_text text.now (rows_of table.now count)) }
    ensures { Put result out.old out.new 0 (rows_text text.now (rows_of table.now count)) }
{
    let mut at = 0;
    for i in 0..count {
        at = put_row(out, at, text, row_at(table, i), ends_at(table, count, i));
    }
    at
}

// The text of the first `count` rows of the table goes to the output.
pub fn write(text: &[u8], table: &[u32], count: usize, out: &mut [u8]) -> Result<usize, Refusal>
    ensures value { result ≡ answer_of text.now table.now count (length out.old) }
    ensures out_after { out.new ≡ output_of text.now table.now count out.old }
{
    if refusals::LONGEST < text.len() {
        return Err(Refusal::TooLong);
    }
    if table.len() / 5 < count {
        return Err(Refusal::BadRow);
    }
    refusals::fit(check_rows(text, table, count), out.len())?;
    Ok(put_rows(out, text, table, count))
}
