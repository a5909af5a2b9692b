// A plan begun: fates and confirmations are cleared, the text is read, and each record gets its row. A list that was refused, a text that
// is, or too few rows leave nothing.
#![tactic(auto)]

ghost use Rattle.std.specs.Prelude.{◌≡◌, length, replicate};
ghost use Rattle.entries.specs.Row.{no_row};
ghost use Rattle.opening.specs.Opened.{OpenedRead, Opened, records_in};

use contacts::Mark;
use reader::Reading;
use refusals::Refusal;

// The text read into the table, and a row for each record.
fn read_rows(text: &[u8], table: &mut [u32], fates: &mut [[u32; 28]]) -> Result<Reading, Refusal>
    requires { fates.old ≡ replicate (length fates.old) no_row }
    ensures { OpenedRead text.now (length table.old) (length fates.old) result table.new fates.new }
{
    let reading = reader::read(text, table)?;
    if fates.len() < reading.records {
        reader::clear(table, 0);
        return Err(Refusal::ShortTable);
    }
    entries::fill(text, table, reading.records, fates);
    Ok(reading)
}

// How many records were read; none where the reading is refused.
pub fn count_in(reading: Result<Reading, Refusal>) -> usize
    ensures { result ≡ records_in reading }
{
    match reading {
        Ok(r) => r.records,
        Err(_) => 0,
    }
}

// Against a list of which this is the mark, or the refusal.
pub fn begin(
    listed: Result<Mark, Refusal>,
    text: &[u8],
    table: &mut [u32],
    fates: &mut [[u32; 28]],
    cards: &mut [[u32; 5]],
) -> Result<Reading, Refusal>
    ensures { Opened text.now listed (length table.old) (length fates.old) (length cards.old) result table.new fates.new cards.new }
{
    wiped::clear_fates(fates);
    wiped::clear_cards(cards);
    match listed {
        Err(why) => {
            reader::clear(table, 0);
            Err(why)
        }
        Ok(_) => read_rows(text, table, fates),
    }
}
