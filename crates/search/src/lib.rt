// The search of the contact index: the first contact of the list, by its id, that a record matches. It goes down one chain of the
// index, which holds every contact of that key, and keeps the last match that it meets, which is the first of the list.
#![tactic(auto)]

ghost use Rattle.std.specs.Prelude.{◌≡◌, ◌≤◌, length};
ghost use Rattle.text.specs.Pick.{pick};
ghost use Rattle.index.specs.Rows.{joined, moment_from};
ghost use Rattle.index.specs.Contacts.{numbers_of, plain};
ghost use Rattle.wanted.specs.Wanted.{code_for};
ghost use Rattle.search.specs.Search.{near, hit, hit_of, first_for, Indexed};
ghost use Rattle.search.specs.Steps.{row_moment, row_tested, entry_in};

use index::Contact;
use wanted::Wanted;

// A contact by its number in the list, from 1, and the place of its entry; both 0 for none.
#[derive(Clone, Copy)]
pub struct Hit {
    pub number: usize,
    pub place: usize,
}

const HALF: u64 = 4_294_967_296;

// The moment that a record keeps as numbers.
pub fn moment_from(there: u32, low: u32, high: u32) -> Option<u64>
    ensures { result ≡ moment_from there (joined low high) }
{
    if there == 0 {
        return None;
    }
    Some(low as u64 + high as u64 * HALF)
}

// Both are moments, and nearer than the limit.
pub fn is_near(a: Option<u64>, b: Option<u64>, limit: u64) -> bool
    ensures { result ≡ near a b limit }
{
    match (a, b) {
        (Some(x), Some(y)) => times::window::distance(x, y) < limit,
        _ => false,
    }
}

fn moment_in(c: Contact) -> Option<u64>
    ensures { result ≡ row_moment (numbers_of c) }
{
    if c.timed == 0 {
        return None;
    }
    Some(c.seconds)
}

// The same code, then the times, then the texts.
fn is_match(list: &[u8], c: Contact, text: &[u8], wanted: Wanted, code: usize, limit: u64) -> bool
    requires { length list.now ≤ 16777216 }
    ensures { result ≡ row_tested list.now (numbers_of c) text.now wanted code limit }
{
    if c.code as usize != code {
        return false;
    }
    if !is_near(wanted.moment, moment_in(c), limit) {
        return false;
    }
    let own = wanted::key_at(list, c.call as usize, c.mode as usize, c.band as usize);
    dedupe::in_log(text, wanted.key, list, own)
}

// Where the entry of a record's contact stands: eleven bytes before its call.
fn entry_in(c: Contact) -> usize
    ensures { result ≡ entry_in (numbers_of c) }
{
    (c.call as usize).saturating_sub(11)
}

// The contact of a record, which has this number, if it matches; else what was found before.
fn found(
    list: &[u8],
    c: Contact,
    number: usize,
    text: &[u8],
    wanted: Wanted,
    code: usize,
    limit: u64,
    best: Hit,
) -> Hit
    requires { length list.now ≤ 16777216 }
    ensures { result ≡ pick (row_tested list.now (numbers_of c) text.now wanted code limit) (hit number (entry_in (numbers_of c))) best }
{
    if is_match(list, c, text, wanted, code, limit) {
        return Hit {
            number,
            place: entry_in(c),
        };
    }
    best
}

fn no_hit() -> Hit
    ensures { result ≡ hit 0 0 }
{
    Hit {
        number: 0,
        place: 0,
    }
}

fn code_for(text: &[u8], wanted: Wanted) -> usize
    ensures { result ≡ code_for text.now wanted.key }
{
    wanted::code_of(text, wanted) as usize
}

// The first of the list's n contacts that matches what is wanted.
pub fn find(text: &[u8], list: &[u8], rows: &[Contact], n: usize, wanted: Wanted, limit: u64) -> Hit
    requires { Indexed list.now n (plain rows.now) }
    ensures { result ≡ hit_of list.now (first_for text.now wanted limit list.now) }
{
    let mut best = no_hit();
    if n == 0 {
        return best;
    }
    let code = code_for(text, wanted);
    let b = code % n;
    let mut at = rows[b].head as usize;
    while at != 0 {
        let c = rows[at - 1];
        best = found(list, c, at, text, wanted, code, limit, best);
        at = c.next as usize;
    }
    best
}
