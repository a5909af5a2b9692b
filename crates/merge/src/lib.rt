// The fields of a QSO's columns and of its extra rows in one: both rise by their names, so that one pass merges them. The text is measured
// by one pass, and put by another.
// Kept: two passes and no common one. What is measured is capped and needs no room; what is put needs room for all of it.
#![tactic(auto)]

ghost use Rattle.std.specs.Prelude.{◌≡◌, ◌*◌, ◌≤◌, length};
ghost use Rattle.letters.specs.Order.{order_raised};
ghost use Rattle.letters.specs.Same.{same_raised};
ghost use Rattle.rowcheck.specs.Check.{is_less, name_in};
ghost use Rattle.output.specs.Put.{Put, Room};
ghost use Rattle.fields.specs.Written.{field_text, fields_text};
ghost use Rattle.headers.specs.Answer.{capped, capped_after};
ghost use Rattle.writer.specs.Rows.{row_field};
ghost use Rattle.merge.specs.Steps.{fields_between, merged_text, Cuts};

use cells::Cell;

// Rows up to `below` have names below a column's, rows from `above` on names above it; a row of its very name lies between.
#[derive(Clone, Copy)]
pub struct Cut {
    below: usize,
    above: usize,
}

fn is_below(text: &[u8], row: [u32; 5], name: &[u8]) -> bool
    ensures { result ≡ is_less (order_raised (name_in text.now row) name.now) }
{
    rowcheck::is_less(letters::order_raised(rowcheck::name_of(text, row), name))
}

fn is_same(text: &[u8], row: [u32; 5], name: &[u8]) -> bool
    ensures { result ≡ same_raised (name_in text.now row) name.now }
{
    letters::same_raised(rowcheck::name_of(text, row), name)
}

fn cut_at(text: &[u8], table: &[u32], first: usize, count: usize, k: usize) -> Cut
    requires { (first ≤ count) × (count * 5 ≤ length table.now) }
    ensures { Cuts text.now table.now first count k result }
{
    let column = cellfields::column_name(k);
    let name = &column.bytes[..column.len];
    for i in first..count {
        let row = writer::row_at(table, i);
        if is_below(text, row, name) {
            continue;
        }
        if is_same(text, row, name) {
            return Cut {
                below: i,
                above: i + 1,
            };
        }
        return Cut { below: i, above: i };
    }
    Cut {
        below: count,
        above: count,
    }
}

// ---- measured
fn row_size(text: &[u8], row: [u32; 5]) -> usize
    requires { length text.now ≤ 16777216 }
    ensures value { result ≡ length (field_text (row_field text.now row)) }
    ensures upper_bound { result ≤ 33554456 }
{
    fields::field_size(rowcheck::name_of(text, row), rowcheck::value_of(text, row))
}

// The size with the rows from `first` up to `end`.
fn rows_size(size: usize, text: &[u8], table: &[u32], first: usize, end: usize) -> usize
    requires { (size ≤ 16777217) × (length text.now ≤ 16777216) × (first ≤ end) × (end * 5 ≤ length table.now) }
    ensures value { result ≡ capped_after size (fields_text (fields_between text.now table.now first end)) }
    ensures upper_bound { result ≤ 16777217 }
{
    let mut all = size;
    for i in first..end {
        let row = writer::row_at(table, i);
        all = headers::cap(all + row_size(text, row));
    }
    all
}

// The size of the text, or one more than a text may have.
pub fn merged_size(text: &[u8], cells: [Cell; 13], table: &[u32], count: usize) -> usize
    requires { (length text.now ≤ 16777216) × (count * 5 ≤ length table.now) }
    ensures { result ≡ capped (length (merged_text text.now cells table.now count)) }
{
    let mut size = 0;
    let mut first = 0;
    for (k, &cell) in cells.iter().enumerate() {
        if cells::is_dropped(cell) {
            continue;
        }
        let cut = cut_at(text, table, first, count, k);
        let rows = rows_size(size, text, table, first, cut.below);
        size = headers::cap(rows + cellfields::field_size(text, k, cell));
        first = cut.above;
    }
    let rest = rows_size(size, text, table, first, count);
    headers::cap(rest + 6)
}

// ---- put
fn put_row(out: &mut [u8], at: usize, text: &[u8], row: [u32; 5]) -> usize
    requires { Room out.old at (field_text (row_field text.now row)) }
    ensures { Put result out.old out.new at (field_text (row_field text.now row)) }
{
    fields::put_field(
        out,
        at,
        rowcheck::name_of(text, row),
        rowcheck::value_of(text, row),
    )
}

fn put_rows(
    out: &mut [u8],
    at: usize,
    text: &[u8],
    table: &[u32],
    first: usize,
    end: usize,
) -> usize
    requires { (first ≤ end) × (end * 5 ≤ length table.now) × Room out.old at (fields_text (fields_between text.now table.now first end)) }
    ensures { Put result out.old out.new at (fields_text (fields_between text.now table.now first end)) }
{
    let mut to = at;
    for i in first..end {
        to = put_row(out, to, text, writer::row_at(table, i));
    }
    to
}

pub fn put_merged(
    out: &mut [u8],
    text: &[u8],
    cells: [Cell; 13],
    table: &[u32],
    count: usize,
) -> usize
    requires { (length text.now ≤ 16777216) × (count * 5 ≤ length table.now) × Room out.old 0 (merged_text text.now cells table.now count) }
    ensures { Put result out.old out.new 0 (merged_text text.now cells table.now count) }
{
    let mut at = 0;
    let mut first = 0;
    for (k, &cell) in cells.iter().enumerate() {
        if cells::is_dropped(cell) {
            continue;
        }
        let cut = cut_at(text, table, first, count, k);
        let rows = put_rows(out, at, text, table, first, cut.below);
        at = cellfields::put_field(out, rows, text, k, cell);
        first = cut.above;
    }
    let rest = put_rows(out, at, text, table, first, count);
    output::put_bytes(out, rest, b"<EOR>\n")
}
