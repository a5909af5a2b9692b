// What an import, or a download of confirmations, would do to a log: `plan` and `plan_download` of `import.rs`, over a contact list
// in place of a database. The phases are `indexing`, `opening`, `logged` and `closing`; each leaves nothing after a refusal, so that they
// follow each other whatever the one before answered.
#![tactic(auto)]

ghost use Rattle.std.specs.Prelude.{◌≡◌};
ghost use Rattle.index.specs.Contacts.{plain};
ghost use Rattle.planner.specs.Planning.{asked, PlannedTo};
ghost use Rattle.planner.specs.Finished.{largest_in, gone_of, Ready, Finished};

use contacts::Mark;
use index::Contact;
use reader::Reading;
use refusals::Refusal;

// A plan by its numbers: the records read and the rows that they take, the confirmations to record, how many were known already and how
// many match no contact; and the list's mark, which the plan keeps.
#[derive(Clone, Copy)]
pub struct Planned {
    pub records: usize,
    pub rows: usize,
    pub confirmations: usize,
    pub already: u64,
    pub unmatched: u64,
    pub contacts: usize,
    pub largest: u64,
}

fn largest_in(listed: Result<Mark, Refusal>) -> u64
    ensures { result ≡ largest_in listed }
{
    match listed {
        Ok(mark) => mark.largest,
        Err(_) => 0,
    }
}

// What comes of the records that were read and looked up; else the refusal of the list or the text.
fn finish(
    text: &[u8],
    list: &[u8],
    window: i64,
    download: bool,
    listed: Result<Mark, Refusal>,
    reading: Result<Reading, Refusal>,
    table: &mut [u32],
    fates: &mut [[u32; 28]],
    cards: &mut [[u32; 5]],
) -> Result<Planned, Refusal>
    requires { Ready text.now list.now window reading table.old fates.old cards.old }
    ensures { Finished text.now list.now window download listed reading table.old fates.old cards.old result table.new fates.new cards.new }
{
    let Reading { records, rows } = reading?;
    let Some(counted) = closing::close(text, list, window, download, table, fates, records, cards)
    else {
        return Err(Refusal::ShortTable);
    };
    Ok(Planned {
        records,
        rows,
        confirmations: counted.confirmations,
        already: counted.already,
        unmatched: counted.unmatched,
        contacts: indexing::count_in(listed),
        largest: largest_in(listed),
    })
}

// How many of the index's records are cleared: all after a refusal, else none.
fn gone(planned: Result<Planned, Refusal>, records: usize) -> usize
    ensures { result ≡ gone_of planned records }
{
    if planned.is_err() { records } else { 0 }
}

// As `plan` and, for a download, `plan_download`. What the tables held before is of no account.
pub fn plan(
    text: &[u8],
    list: &[u8],
    window: i64,
    download: bool,
    table: &mut [u32],
    index: &mut [Contact],
    fates: &mut [[u32; 28]],
    cards: &mut [[u32; 5]],
) -> Result<Planned, Refusal>
    ensures { PlannedTo (asked text.now list.now window download table.old (plain index.old) fates.old cards.old) result table.new (plain index.new) fates.new cards.new }
{
    let limit = times::window::limit_of(window);
    let listed = indexing::build(list, index);
    let reading = opening::begin(listed, text, table, fates, cards);
    let contacts = indexing::count_in(listed);
    let records = opening::count_in(reading);
    logged::find_each(text, list, index, contacts, limit, fates, records);
    let planned = finish(
        text, list, window, download, listed, reading, table, fates, cards,
    );
    let cleared = gone(planned, index.len());
    indexing::fill(list, index, 0, cleared);
    planned
}
