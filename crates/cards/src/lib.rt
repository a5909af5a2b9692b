// The confirmations of a plan: once per contact and service.
#![tactic(auto)]

ghost use Rattle.std.specs.Prelude.{◌≡◌, List, [], ◌∷◌, ◌+◌, ◌*◌, ◌≤◌, ◌<◌, length, get_or};
ghost use Rattle.text.specs.Pick.{pick};
ghost use Rattle.chain.specs.Chain.{col};
ghost use Rattle.contacts.specs.Lists.{contacts_of};
ghost use Rattle.plan.specs.Entry.{Entry};
ghost use Rattle.entries.specs.Filled.{Said, Answered};
ghost use Rattle.counted.specs.Counted.{Marked};
ghost use Rattle.tallies.specs.Tallies.{services_in, Few, Grown};
ghost use Rattle.cards.specs.Carded.{new_in, carded_as, cards_after, Kept};
ghost use Rattle.cards.specs.Steps.{Settled, tally_of, cards_of, tally_over, cards_over, unseen, confirms, answers_in, tally_at, cards_at, rows_at, Ready};

use confirmations::Answer;
use plan::{CONFIRMED, UNMATCHED};
use tables::Place;
use tallies::{Tally, Target};

// How many are to be recorded, how many were known already and how many match no contact; `Full` where the lent table has no room.
#[derive(Clone, Copy)]
pub struct Counted {
    pub confirmations: usize,
    pub already: u64,
    pub unmatched: u64,
}

// The answers of a row's record.
fn answers_at(text: &[u8], table: &[u32], r: [u32; 28]) -> [Answer; 4]
    requires { (length text.now ≤ 16777216) × ((get_or r 20 0 + get_or r 21 0) * 5 ≤ length table.now) }
    ensures { result ≡ answers_in text.now table.now r }
{
    let date = Place {
        kind: r[14],
        start: r[15],
        len: r[16],
    };
    confirmations::confirmations_in(text, table, r[20] as usize, r[21] as usize, date)
}

// One answer of record k: it counts if its service has not, at an earlier record that confirms the same thing.
fn with_answer(
    text: &[u8],
    rows: &[[u32; 28]],
    n: usize,
    k: usize,
    to: Target,
    a: Answer,
    cards: &mut [[u32; 5]],
    t: Tally,
) -> Tally
    requires { Marked text.now n k rows.now × Few t }
    ensures value { result ≡ tally_of to (unseen text.now rows.now k) a t }
    ensures cards_after { cards.new ≡ cards_of to (unseen text.now rows.now k) a t.used cards.old }
    ensures grown { Grown 1 t result }
{
    if a.present {
        let counts = !counted::is_seen(text, rows, n, k, a.service);
        if tallies::is_new(to, counts, a.service) {
            tallies::put_card(cards, t.used, to, a);
            return tallies::tally_with(to, counts, a.service, t);
        }
        return tallies::tally_with(to, counts, a.service, t);
    }
    t
}

fn with_answers(
    text: &[u8],
    rows: &[[u32; 28]],
    n: usize,
    k: usize,
    to: Target,
    answers: [Answer; 4],
    cards: &mut [[u32; 5]],
    was: Tally,
) -> Tally
    requires { Marked text.now n k rows.now × (was.used ≤ 17179869184) × (was.already ≤ 17179869184) × (was.unmatched ≤ 17179869184) }
    ensures value { result ≡ tally_over to (unseen text.now rows.now k) answers was }
    ensures cards_after { cards.new ≡ cards_over to (unseen text.now rows.now k) answers was cards.old }
    ensures grown { Grown 4 was result }
{
    let mut t = was;
    for a in answers {
        t = with_answer(text, rows, n, k, to, a, cards, t);
    }
    t
}

// A record that bears confirmations. It goes into its chain if one of them counts.
fn confirm_at(
    text: &[u8],
    table: &[u32],
    list: &[u8],
    rows: &mut [[u32; 28]],
    n: usize,
    k: usize,
    cards: &mut [[u32; 5]],
    t: Tally,
) -> Tally
    requires { Ready text.now table.now list.now n k rows.old t }
    ensures value { result ≡ tally_at text.now table.now list.now rows.old k t }
    ensures cards_after { cards.new ≡ cards_at text.now table.now list.now rows.old k t cards.old }
    ensures rows_after { rows.new ≡ rows_at rows.old n k (services_in result) }
    ensures grown { Grown 4 t result }
{
    let to = tallies::target_of(
        list,
        entries::number_in(rows[k], 0),
        entries::number_in(rows[k], 22),
        entries::number_in(rows[k], 27),
    );
    let answers = answers_at(text, table, rows[k]);
    let r = with_answers(text, rows, n, k, to, answers, cards, tallies::with_none(t));
    let services = tallies::services_in(r);
    if services != 0 {
        counted::mark(rows, n, k, services);
    }
    r
}

fn confirm_one(
    text: &[u8],
    table: &[u32],
    list: &[u8],
    rows: &mut [[u32; 28]],
    n: usize,
    k: usize,
    cards: &mut [[u32; 5]],
    t: Tally,
) -> Tally
    requires { Ready text.now table.now list.now n k rows.old t }
    ensures value { result ≡ pick (confirms (col rows.old k 0)) (tally_at text.now table.now list.now rows.old k t) t }
    ensures cards_after { cards.new ≡ pick (confirms (col rows.old k 0)) (cards_at text.now table.now list.now rows.old k t cards.old) cards.old }
    ensures rows_after { rows.new ≡ pick (confirms (col rows.old k 0)) (rows_at rows.old n k (services_in result)) rows.old }
    ensures grown { Grown 4 t result }
{
    let fate = rows[k][0];
    if text::any(fate == CONFIRMED, fate == UNMATCHED) {
        return confirm_at(text, table, list, rows, n, k, cards, t);
    }
    t
}

// The confirmations of n records whose fates are settled. They go into `cards`, those that their contacts have not; a record that finds
// no room there ends the count.
pub fn confirm(
    text: &[u8],
    table: &[u32],
    list: &[u8],
    rows: &mut [[u32; 28]],
    n: usize,
    cards: &mut [[u32; 5]],
) -> Option<Counted>
    requires { Settled text.now table.now list.now n rows.old }
    ensures value { (es : List Entry) → Said text.now n es rows.old → Answered text.now table.now n es rows.old → result ≡ carded_as (contacts_of list.now) es n rows.old (length cards.old) }
    ensures cards_after { (es : List Entry) → Said text.now n es rows.old → Answered text.now table.now n es rows.old → length (new_in (contacts_of list.now) es n rows.old) ≤ length cards.old → cards.new ≡ cards_after (contacts_of list.now) es n rows.old cards.old }
    ensures kept { Kept n rows.old rows.new }
    ensures cards_len_unchanged { length cards.new ≡ length cards.old }
{
    let mut t = Tally {
        used: 0,
        already: 0,
        unmatched: 0,
        lotw: false,
        eqsl: false,
        qrz: false,
        qsl: false,
    };
    for k in 0..n {
        t = confirm_one(text, table, list, rows, n, k, cards, t);
        if cards.len() < t.used {
            return None;
        }
    }
    Some(Counted {
        confirmations: t.used,
        already: t.already as u64,
        unmatched: t.unmatched as u64,
    })
}
