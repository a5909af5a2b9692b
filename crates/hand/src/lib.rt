// The record in hand: at most 256 rows in strict byte order of their raised names. A row is four numbers: the name's place and length
// in the text, and the value's. When the record is closed its rows move to the lent table, of five numbers a row.
#![tactic(auto)]

ghost use Rattle.std.specs.Prelude.{◌≡◌, ◌+◌, ◌*◌, ◌≤◌, length, get_or, take};
ghost use Rattle.std.proofs.lemmas.List.Edits.{sets};
ghost use Rattle.letters.specs.Capitals.{raised, capitals};
ghost use Rattle.letters.specs.Order.{order_raised};
ghost use Rattle.adif.specs.Records.{put};
ghost use Rattle.adif.specs.Reading.{part, row_name};
ghost use Rattle.hand.specs.Rows.{Placed, Inserted, laid};

use std::cmp::Ordering;

// The n bytes of s from `at` on, or what there is of them.
pub fn part(s: &[u8], at: usize, n: usize) -> &[u8]
    ensures { result.now ≡ part s.now at n }
{
    let rest = &s[at.min(s.len())..];
    &rest[..n.min(rest.len())]
}

// How `name` stands to the `n` bytes at `at`, both in capitals.
fn order_with(text: &[u8], name: &[u8], at: u32, n: u32) -> Ordering
    ensures { result ≡ order_raised name.now (part text.now at n) }
{
    letters::order_raised(name, part(text, at as usize, n as usize))
}

// The byte at `at` in capitals, or 0 past the end.
fn raised_at(s: &[u8], at: u32) -> u8
    ensures { result ≡ raised (get_or s.now at 0) }
{
    letters::raise(text::byte(s, at as usize))
}

// The row that has the name, or else where one of that name goes in. Most names differ in their first letter, which tells before any name
// is cut out of the text.
fn spot_of(text: &[u8], rows: &[[u32; 4]], name: &[u8]) -> Result<usize, usize>
    ensures { Placed text.now rows.now (capitals name.now) result }
{
    let first = raised_at(name, 0);
    for (i, x) in rows.iter().enumerate() {
        if raised_at(text, x[0]) < first {
            continue;
        }
        match order_with(text, name, x[0], x[1]) {
            Ordering::Less => return Err(i),
            Ordering::Equal => return Ok(i),
            Ordering::Greater => {}
        }
    }
    Err(rows.len())
}

// The row goes in by its name: a row of the same name is replaced, and a name too many for the rows is refused.
pub fn with_field(text: &[u8], rows: &mut [[u32; 4]], used: usize, row: [u32; 4]) -> Option<usize>
    requires { used ≤ length rows.old }
    ensures { Inserted result (put (row_name text.now) row (take used rows.old)) rows.new }
{
    let name = part(text, row[0] as usize, row[1] as usize);
    match spot_of(text, &rows[..used], name) {
        Ok(at) => {
            rows[at] = row;
            Some(used)
        }
        Err(at) => {
            if used == rows.len() {
                return None;
            }
            rows.copy_within(at..used, at + 1);
            rows[at] = row;
            Some(used + 1)
        }
    }
}

// The rows go to the table from `at` on, each behind the record's number.
pub fn move_rows(table: &mut [u32], at: usize, record: u32, rows: &[[u32; 4]], used: usize)
    requires { (used ≤ length rows.now) × (at + 5 * used ≤ length table.old) }
    ensures { table.new ≡ sets table.old at (laid «record» (take used rows.now)) }
{
    for (i, row) in rows[..used].iter().enumerate() {
        let to = at + 5 * i;
        table[to..to + 5].copy_from_slice(&[record, row[0], row[1], row[2], row[3]]);
    }
}
