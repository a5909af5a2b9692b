// The contact index built: a lent record a contact, in chains along which `search` finds it. A list is checked whole before its index
// is built.
#![tactic(auto)]

ghost use Rattle.std.specs.Prelude.{◌≡◌, ◌++◌, ◌+◌, ◌-◌, ◌%◌, ◌≤◌, ◌<◌, length, get_or, replicate};
ghost use Rattle.std.proofs.lemmas.List.Edits.{sets};
ghost use Rattle.contacts.specs.Lists.{Few};
ghost use Rattle.index.specs.Rows.{rows_from, no_row};
ghost use Rattle.index.specs.Contacts.{contact_of, numbers_of, plain};
ghost use Rattle.indexing.specs.Index.{with_head, with_next, record_at, place_after, chained, indexed_as, index_after, count_in, Sound};

use contacts::Mark;
use index::Contact;
use refusals::Refusal;

fn no_row() -> [u32; 14]
    ensures { result ≡ no_row }
{
    [0u32; 14]
}

// The record of index k: that of the contact at a place of the list, and zero from the n-th on.
fn record_at(list: &[u8], at: usize, k: usize, n: usize) -> Contact
    requires { k < n → at ≤ 16777216 }
    ensures { result ≡ contact_of (record_at list.now at k n) }
{
    if k < n {
        return index::contact_of(index::row_at(list, at));
    }
    index::contact_of(no_row())
}

// Where the next contact stands.
fn place_after(list: &[u8], at: usize, k: usize, n: usize) -> usize
    requires { k < n → at ≤ 16777216 }
    ensures { result ≡ place_after list.now at k n }
{
    if k < n {
        return contacts::end_at(list, at);
    }
    at
}

// The first `to` records: those of the list's n contacts, and zero behind them. The others stay as they were.
pub fn fill(list: &[u8], rows: &mut [Contact], n: usize, to: usize)
    requires { (n ≤ to) × (to ≤ length rows.old) × (0 < n → Sound list.now n) }
    ensures { plain rows.new ≡ sets (plain rows.old) 0 (rows_from list.now n 5 ++ replicate (to - n) no_row) }
{
    let mut at = contacts::ENTRIES;
    for k in 0..to {
        rows[k] = record_at(list, at, k, n);
        at = place_after(list, at, k, n);
    }
}

// The chain of a contact's code, of n.
fn chain_of(c: Contact, n: usize) -> usize
    requires { 0 < n }
    ensures { result ≡ get_or (numbers_of c) 2 0 % n }
{
    c.code as usize % n
}

// The contact, in front of what the chain of `first` begins with.
fn in_front(c: Contact, first: Contact) -> Contact
    ensures { result ≡ contact_of (with_next (numbers_of c) (get_or (numbers_of first) 0 0)) }
{
    Contact {
        next: first.head,
        ..c
    }
}

// The first of a chain, which now begins with contact k.
fn begun_with(first: Contact, k: usize) -> Contact
    requires { k + 1 < 4294967296 }
    ensures { result ≡ contact_of (with_head (numbers_of first) (k + 1)) }
{
    Contact {
        head: (k + 1) as u32,
        ..first
    }
}

// The chains of the first n records, which are in none: each goes to the front of the chain of its code's remainder.
fn link(rows: &mut [Contact], n: usize)
    requires { (n ≤ length rows.old) × (n < 4294967296) }
    ensures { plain rows.new ≡ chained n n (plain rows.old) }
{
    for k in 0..n {
        let c = rows[k];
        let b = chain_of(c, n);
        rows[k] = in_front(c, rows[b]);
        rows[b] = begun_with(rows[b], k);
    }
}

// The list's mark, where there is a record for each contact.
pub fn listed_in(list: &[u8], records: usize) -> Result<Mark, Refusal>
    ensures value { result ≡ indexed_as list.now records }
    ensures few { Few result }
{
    let mark = contacts::check(list)?;
    if records < mark.contacts {
        return Err(Refusal::ShortTable);
    }
    Ok(mark)
}

// How many contacts; none where the list is refused.
pub fn count_in(listed: Result<Mark, Refusal>) -> usize
    ensures { result ≡ count_in listed }
{
    match listed {
        Ok(mark) => mark.contacts,
        Err(_) => 0,
    }
}

// The index of a list. What the records held before is of no account.
pub fn build(list: &[u8], rows: &mut [Contact]) -> Result<Mark, Refusal>
    ensures value { result ≡ indexed_as list.now (length rows.old) }
    ensures rows_after { plain rows.new ≡ index_after list.now (length rows.old) }
{
    let listed = listed_in(list, rows.len());
    let n = count_in(listed);
    fill(list, rows, n, rows.len());
    link(rows, n);
    listed
}
