// Which rows the writer takes, one after the other: places in the text, whole characters, numbers and names in order, names that can be
// written, and the limits of docs/SCOPE.md.
#![tactic(auto)]

ghost use Rattle.std.specs.Prelude.{◌≡◌, ◌+◌, ◌≤◌, get_or};
ghost use Rattle.tags.specs.Tags.{kind_of};
ghost use Rattle.rowcheck.specs.Check.{name_in, value_in, placed, lacks, is_field, is_less, writable, follows, counted, sound, verdict, is_fine};

use refusals::Refusal;
use std::cmp::Ordering;
use tags::Kind;

// The most fields of a record, and the most records.
const NAMES: usize = 256;

const RECORDS: u32 = 65_535;

// Kept: crates above this one call it by name.
pub fn is_fine(v: Result<(), Refusal>) -> bool
    ensures { result ≡ is_fine v }
{
    v.is_ok()
}

// The bytes of a row's name, and of its value.
pub fn name_of(text: &[u8], row: [u32; 5]) -> &[u8]
    ensures { result.now ≡ name_in text.now row }
{
    hand::part(text, row[1] as usize, row[2] as usize)
}

pub fn value_of(text: &[u8], row: [u32; 5]) -> &[u8]
    ensures { result.now ≡ value_in text.now row }
{
    hand::part(text, row[3] as usize, row[4] as usize)
}

fn end_of(at: u32, n: u32) -> usize
    ensures { result ≡ at + n }
{
    at as usize + n as usize
}

#[tactic(auto, unfolding(crate::specs::Check::placed))]
pub fn is_placed(text: &[u8], row: [u32; 5]) -> bool
    ensures { result ≡ placed text.now row }
{
    end_of(row[1], row[2]) <= text.len() && end_of(row[3], row[4]) <= text.len()
}

#[tactic(auto, unfolding(crate::specs::Check::sound))]
pub fn is_sound(text: &[u8], row: [u32; 5]) -> bool
    ensures { result ≡ sound text.now row }
{
    text::utf8::is_utf8(name_of(text, row)) && text::utf8::is_utf8(value_of(text, row))
}

// Kept: crates above this one call it by name.
pub fn is_less(o: Ordering) -> bool
    ensures { result ≡ is_less o }
{
    o.is_lt()
}

// The row is of the next record, or of the same with a higher name than the row p before it.
#[tactic(auto, unfolding(crate::specs::Check::follows))]
fn does_follow(text: &[u8], n: u32, p: [u32; 5], row: [u32; 5]) -> bool
    requires { n ≤ 65535 }
    ensures { result ≡ follows text.now n p row }
{
    let next = row[0] == n + 1;
    let same = 0 < n && row[0] == n;
    next || same && letters::order_raised(name_of(text, p), name_of(text, row)).is_lt()
}

#[tactic(auto, unfolding(crate::specs::Check::lacks))]
fn lacks_byte(s: &[u8], b: u8) -> bool
    ensures { result ≡ lacks b s.now }
{
    text::find(s, 0, b) == s.len()
}

fn is_field_name(name: &[u8]) -> bool
    ensures { result ≡ is_field (kind_of name.now) }
{
    matches!(tags::kind_of(name), Kind::FieldName)
}

#[tactic(auto, unfolding(crate::specs::Check::writable))]
fn is_writable(name: &[u8]) -> bool
    ensures { result ≡ writable name.now }
{
    text::space::trim_start(name) == 0
        && text::space::trim_end(name) == name.len()
        && lacks_byte(name, b':')
        && lacks_byte(name, b'>')
        && is_field_name(name)
}

// How many fields the record has with this row, where record n had c.
#[tactic(auto, unfolding(crate::specs::Check::counted))]
pub fn count_with(n: u32, c: usize, row: [u32; 5]) -> usize
    requires { c ≤ 256 }
    ensures { result ≡ counted n c row }
{
    if row[0] == n { c + 1 } else { 1 }
}

pub fn record_of(row: [u32; 5]) -> u32
    ensures { result ≡ get_or row 0 0 }
{
    row[0]
}

// The row after row p, which was the c-th of record n.
#[tactic(auto, unfolding(crate::specs::Check::verdict))]
pub fn verdict_of(text: &[u8], n: u32, c: usize, p: [u32; 5], row: [u32; 5]) -> Result<(), Refusal>
    requires { (n ≤ 65535) × (c ≤ 256) }
    ensures { result ≡ verdict text.now n c p row }
{
    if !(is_placed(text, row) && is_sound(text, row) && does_follow(text, n, p, row)) {
        return Err(Refusal::BadRow);
    }
    if !is_writable(name_of(text, row)) {
        return Err(Refusal::BadName);
    }
    if NAMES < count_with(n, c, row) {
        return Err(Refusal::ManyNames(0));
    }
    if RECORDS < row[0] {
        return Err(Refusal::ManyRecords(0));
    }
    Ok(())
}
