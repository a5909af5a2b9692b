// The reading of an ADIF text into a lent table: five numbers a row, in record order, and inside a record in strict byte order of the
// raised names. The rows of the record in hand stand in an array of their own until the record is closed, so that the fields of a header
// never use up lent rows.
#![tactic(auto)]

ghost use Rattle.std.specs.Prelude.{◌≡◌, ◌+◌, ◌*◌, ◌-◌, ◌/◌, ◌≤◌, ◌++◌, length, take, replicate};
ghost use Rattle.adif.specs.Reading.{read_tags, read_text};
ghost use Rattle.reader.specs.Table.{answer_of, answer_to, table_after, used_of, Shown};
ghost use Rattle.reader.specs.Stands.{Closes, Finishes, Turns};

use refusals::Refusal;
use tags::Tag;

// As many names as a record may have, and as many records as a text may have.
const NAMES: usize = 256;

const RECORDS: usize = 65_535;

#[derive(Clone, Copy)]
pub struct Reading {
    pub records: usize,
    pub rows: usize,
}

// How far the reading is: where the text goes on, how many fields are in hand, and how many records are closed, with their rows.
#[derive(Clone, Copy)]
struct Progress {
    pub at: usize,
    pub held: usize,
    pub closed: Reading,
}

// After a tag: the reading goes on, or it is over.
#[derive(Clone, Copy)]
enum Turn {
    On(Progress),
    Over(Reading),
}

// The record in hand is closed if it has a field; `at` is the place that a refusal tells.
fn close(
    table: &mut [u32],
    hand: &[[u32; 4]],
    closed: Reading,
    at: usize,
) -> Result<Reading, Refusal>
    requires { (length hand.now ≤ 256) × (5 * closed.rows ≤ length table.old) }
    ensures { Closes hand.now closed.records closed.rows at table.old table.new result }
{
    if hand.is_empty() {
        return Ok(closed);
    }
    if RECORDS <= closed.records {
        return Err(Refusal::ManyRecords(at));
    }
    if table.len() - closed.rows * 5 < hand.len() * 5 {
        return Err(Refusal::FewRows(at));
    }
    let records = closed.records + 1;
    hand::move_rows(table, closed.rows * 5, records as u32, hand, hand.len());
    Ok(Reading {
        records,
        rows: closed.rows + hand.len(),
    })
}

// At the end a record that is not closed counts only if a closed one came before. No tag closes it: the place is the text's length.
fn finish(
    table: &mut [u32],
    hand: &[[u32; 4]],
    closed: Reading,
    at: usize,
) -> Result<Reading, Refusal>
    requires { (length hand.now ≤ 256) × (5 * closed.rows ≤ length table.old) }
    ensures { Finishes hand.now closed.records closed.rows at table.old table.new result }
{
    if closed.records == 0 {
        return Ok(closed);
    }
    close(table, hand, closed, at)
}

// The next tag, and what it makes of the record in hand and of the table.
fn next_turn(
    text: &[u8],
    table: &mut [u32],
    hand: &mut [[u32; 4]],
    so_far: Progress,
) -> Result<Turn, Refusal>
    requires { (length text.now ≤ 16777216) × (length hand.old ≡ 256) × (so_far.held ≤ 256) × (5 * so_far.closed.rows ≤ length table.old) }
    ensures { Turns text.now so_far.at (take so_far.held hand.old) so_far.closed.records so_far.closed.rows hand.new table.old table.new result }
{
    let Progress { at, held, closed } = so_far;
    let tag = tags::next_tag(text, at)?;
    match tag {
        Tag::End | Tag::Eof => {
            let reading = finish(table, &hand[..held], closed, text.len())?;
            Ok(Turn::Over(reading))
        }
        Tag::Eoh(next) => Ok(Turn::On(Progress {
            at: next,
            held: 0,
            closed,
        })),
        Tag::Eor { at: lt, next } => {
            let closed = close(table, &hand[..held], closed, lt)?;
            Ok(Turn::On(Progress {
                at: next,
                held: 0,
                closed,
            }))
        }
        Tag::Field {
            at: lt,
            name,
            name_length,
            value,
            value_length,
        } => {
            let row = [
                name as u32,
                name_length as u32,
                value as u32,
                value_length as u32,
            ];
            let held = hand::with_field(text, hand, held, row).ok_or(Refusal::ManyNames(lt))?;
            Ok(Turn::On(Progress {
                at: value + value_length,
                held,
                closed,
            }))
        }
    }
}

// The tags of the text, one after the other.
fn read_tags(text: &[u8], table: &mut [u32]) -> Result<Reading, Refusal>
    requires { length text.now ≤ 16777216 }
    ensures value { result ≡ answer_of (read_tags text.now (length table.old / 5)) }
    ensures shown { Shown table.new (read_tags text.now (length table.old / 5)) }
{
    let mut hand = [[0u32; 4]; NAMES];
    let mut so_far = Progress {
        at: 0,
        held: 0,
        closed: Reading {
            records: 0,
            rows: 0,
        },
    };
    loop {
        match next_turn(text, table, &mut hand, so_far)? {
            Turn::Over(reading) => return Ok(reading),
            Turn::On(next) => so_far = next,
        }
    }
}

// The tags of a text that is not too long and is UTF-8.
fn read_text(text: &[u8], table: &mut [u32]) -> Result<Reading, Refusal>
    ensures value { result ≡ answer_to text.now table.old }
    ensures shown { Shown table.new (read_text text.now (length table.old / 5)) }
{
    refusals::check_text(text)?;
    read_tags(text, table)
}

// Zero from `from` on.
pub fn clear(table: &mut [u32], from: usize)
    requires { from ≤ length table.old }
    ensures { table.new ≡ take from table.old ++ replicate (length table.old - from) 0 }
{
    table[from..].fill(0);
}

// How many numbers of the table are used.
fn used_by(reading: Result<Reading, Refusal>) -> usize
    requires { used_of reading ≤ 18446744073709551615 }
    ensures { result ≡ used_of reading }
{
    match reading {
        Ok(Reading { rows, .. }) => rows * 5,
        Err(_) => 0,
    }
}

// As `parse_adif`. What the table held before is of no account: after a refusal it is zero throughout, and else past the used rows.
pub fn read(text: &[u8], table: &mut [u32]) -> Result<Reading, Refusal>
    ensures value { result ≡ answer_to text.now table.old }
    ensures table_after { table.new ≡ table_after text.now table.old }
{
    let reading = read_text(text, table);
    clear(table, used_by(reading));
    reading
}
