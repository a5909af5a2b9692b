// Contact lists: checked, their marks compared, indexed, searched and written. What is not said with an answer is 0 or false.
#![tactic(auto)]

ghost use Rattle.std.specs.Prelude.{◌≡◌, length};
ghost use Rattle.times.specs.Window.{limit_of};
ghost use Rattle.contacts.specs.Contacts.{contact};
ghost use Rattle.contacts.specs.Lists.{listed_as, fresh_against};
ghost use Rattle.index.specs.Contacts.{plain};
ghost use Rattle.indexing.specs.Index.{indexed_as, index_after};
ghost use Rattle.lookup.specs.Lookup.{searched_as, index_left, found_after};
ghost use Rattle.listwriter.specs.Append.{start_as, start_after, append_as, append_after};
ghost use Rattle.ox_contacts.specs.Answers.{of_listed, of_freshness, of_appended};

use contacts::{Freshness, Mark};
use index::Contact;
use refusals::Refusal;

// A list's mark: how many contacts, and the largest id.
#[repr(C)]
#[derive(Clone, Copy)]
pub struct MarkAnswer {
    pub refusal: u32,
    pub contacts: usize,
    pub largest: u64,
}

#[repr(C)]
#[derive(Clone, Copy)]
pub struct FreshAnswer {
    pub refusal: u32,
    pub fresh: bool,
}

impl From<Result<Mark, Refusal>> for MarkAnswer {
    ghost from_gives = { λ listed r. r ≡ of_listed listed };

    #[tactic(auto, unfolding(crate::specs::Answers::of_listed))]
    fn from(listed: Result<Mark, Refusal>) -> MarkAnswer {
        match listed {
            Ok(Mark { contacts, largest }) => MarkAnswer {
                refusal: 0,
                contacts,
                largest,
            },
            Err(why) => MarkAnswer {
                refusal: refusals::number(why),
                contacts: 0,
                largest: 0,
            },
        }
    }
}

impl From<Result<Freshness, Refusal>> for FreshAnswer {
    ghost from_gives = { λ freshness r. r ≡ of_freshness freshness };

    #[tactic(auto, unfolding(crate::specs::Answers::of_freshness))]
    fn from(freshness: Result<Freshness, Refusal>) -> FreshAnswer {
        match freshness {
            Ok(Freshness::Fresh) => FreshAnswer {
                refusal: 0,
                fresh: true,
            },
            Ok(Freshness::Stale) => FreshAnswer {
                refusal: 0,
                fresh: false,
            },
            Err(why) => FreshAnswer {
                refusal: refusals::number(why),
                fresh: false,
            },
        }
    }
}

#[unsafe(no_mangle)]
pub extern "C" fn ox_contacts_check(list: &[u8]) -> MarkAnswer
    ensures { result ≡ of_listed (listed_as list.now) }
{
    MarkAnswer::from(contacts::check(list))
}

// Whether a plan with this mark is fresh against a list.
#[unsafe(no_mangle)]
pub extern "C" fn ox_contacts_fresh(contacts: usize, largest: u64, list: &[u8]) -> FreshAnswer
    ensures { result ≡ of_freshness (fresh_against contacts largest list.now) }
{
    FreshAnswer::from(contacts::is_fresh(contacts, largest, list))
}

// The index of a list, in a record a contact; zero throughout after a refusal.
#[unsafe(no_mangle)]
pub extern "C" fn ox_contacts_index(list: &[u8], index: &mut [Contact]) -> MarkAnswer
    ensures value { result ≡ of_listed (indexed_as list.now (length index.old)) }
    ensures index_after { plain index.new ≡ index_after list.now (length index.old) }
{
    MarkAnswer::from(indexing::build(list, index))
}

// For each contact of the other list the number, from 1, of the first contact of the list that it matches within the window, or 0.
// The answer is the other list's mark; after a refusal the index and the numbers are zero throughout.
#[unsafe(no_mangle)]
pub extern "C" fn ox_contacts_search(
    list: &[u8],
    other: &[u8],
    window: i64,
    index: &mut [Contact],
    found: &mut [u64],
) -> MarkAnswer
    ensures value { result ≡ of_listed (searched_as list.now other.now (length index.old) (length found.old)) }
    ensures index_after { plain index.new ≡ index_left list.now other.now (length index.old) (length found.old) }
    ensures found_after { found.new ≡ found_after list.now (limit_of window) other.now (length index.old) (length found.old) }
{
    MarkAnswer::from(lookup::look_up(list, other, window, index, found))
}

// How many bytes the list now has.
#[repr(C)]
#[derive(Clone, Copy)]
pub struct AppendAnswer {
    pub refusal: u32,
    pub length: usize,
}

impl From<Result<usize, Refusal>> for AppendAnswer {
    ghost from_gives = { λ appended r. r ≡ of_appended appended };

    #[tactic(auto, unfolding(crate::specs::Answers::of_appended))]
    fn from(appended: Result<usize, Refusal>) -> AppendAnswer {
        match appended {
            Ok(length) => AppendAnswer { refusal: 0, length },
            Err(why) => AppendAnswer {
                refusal: refusals::number(why),
                length: 0,
            },
        }
    }
}

// A list with no contact yet.
#[unsafe(no_mangle)]
pub extern "C" fn ox_contacts_start(out: &mut [u8]) -> AppendAnswer
    ensures value { result ≡ of_appended (start_as (length out.old)) }
    ensures out_after { out.new ≡ start_after out.old }
{
    AppendAnswer::from(listwriter::start(out))
}

// A contact behind a list of `used` bytes, whose mark is told. Of the list only the heading is looked at.
#[unsafe(no_mangle)]
pub extern "C" fn ox_contacts_append(
    out: &mut [u8],
    used: usize,
    contacts: usize,
    largest: u64,
    id: u64,
    services: u8,
    call: &[u8],
    date: &[u8],
    time: &[u8],
    band: &[u8],
    mode: &[u8],
) -> AppendAnswer
    ensures value { result ≡ of_appended (append_as used contacts largest (contact id services call.now date.now time.now band.now mode.now) out.old) }
    ensures out_after { out.new ≡ append_after used contacts largest (contact id services call.now date.now time.now band.now mode.now) out.old }
{
    AppendAnswer::from(listwriter::append(
        out, used, contacts, largest, id, services, call, date, time, band, mode,
    ))
}
