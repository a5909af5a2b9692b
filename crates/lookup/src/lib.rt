// A whole list looked up in another: the index is built once, and each contact searched in it.
#![tactic(auto)]

ghost use Rattle.std.specs.Prelude.{◌≡◌, ◌≤◌, length, replicate};
ghost use Rattle.std.proofs.lemmas.List.Edits.{sets};
ghost use Rattle.times.specs.Window.{limit_of};
ghost use Rattle.contacts.specs.Lists.{listed_as};
ghost use Rattle.index.specs.Contacts.{plain};
ghost use Rattle.lookup.specs.Lookup.{Asks, matches_from, searched_by, searched_as, gone_of, index_left, found_after};

use contacts::Mark;
use index::Contact;
use refusals::Refusal;
use search::Hit;

fn number_of(hit: Hit) -> u64
    ensures { result ≡ hit.number }
{
    hit.number as u64
}

// The matches of the other list's k contacts.
fn match_each(
    list: &[u8],
    rows: &[Contact],
    n: usize,
    other: &[u8],
    k: usize,
    limit: u64,
    found: &mut [u64],
)
    requires { (k ≤ length found.old) × Asks list.now n (plain rows.now) other.now k }
    ensures { found.new ≡ sets found.old 0 (matches_from list.now limit other.now k 5) }
{
    let mut at = contacts::ENTRIES;
    for i in 0..k {
        let wanted = wanted::wanted_at(other, at);
        let hit = search::find(other, list, rows, n, wanted, limit);
        found[i] = number_of(hit);
        at = contacts::end_at(other, at);
    }
}

// The other list's mark, where there is an index to search and a number for each of its contacts.
fn asked_of(built: Result<Mark, Refusal>, other: &[u8], room: usize) -> Result<Mark, Refusal>
    ensures { result ≡ searched_by room built (listed_as other.now) }
{
    built?;
    indexing::listed_in(other, room)
}

// How many of the index's records are cleared: all after a refusal, else none.
fn gone(asked: Result<Mark, Refusal>, records: usize) -> usize
    ensures { result ≡ gone_of asked records }
{
    match asked {
        Err(_) => records,
        Ok(_) => 0,
    }
}

// The index of the list is built, and each contact of the other list looked up in it: the numbers, from 1, of the first matches.
pub fn look_up(
    list: &[u8],
    other: &[u8],
    window: i64,
    rows: &mut [Contact],
    found: &mut [u64],
) -> Result<Mark, Refusal>
    ensures value { result ≡ searched_as list.now other.now (length rows.old) (length found.old) }
    ensures rows_after { plain rows.new ≡ index_left list.now other.now (length rows.old) (length found.old) }
    ensures found_after { found.new ≡ found_after list.now (limit_of window) other.now (length rows.old) (length found.old) }
{
    found.fill(0);
    let limit = times::window::limit_of(window);
    let built = indexing::build(list, rows);
    let asked = asked_of(built, other, found.len());
    match_each(
        list,
        rows,
        indexing::count_in(built),
        other,
        indexing::count_in(asked),
        limit,
        found,
    );
    let cleared = gone(asked, rows.len());
    indexing::fill(list, rows, 0, cleared);
    asked
}
