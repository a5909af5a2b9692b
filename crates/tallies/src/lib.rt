// The count of confirmations, and the answers of a record, one after the other.
#![tactic(auto)]

ghost use Rattle.std.specs.Prelude.{◌≡◌, ◌≤◌, set};
ghost use Rattle.tallies.specs.Tallies.{target_in, target_of, is_new, is_old, is_lost, tally_with, card_for, unmarked, services_in, Few, Grown};

use confirmations::Answer;
use plan::CONFIRMED;

// How many confirmations are to be recorded, were known already and match no contact; and the services that count at this record.
#[derive(Clone, Copy)]
pub struct Tally {
    pub used: usize,
    pub already: usize,
    pub unmatched: usize,
    pub lotw: bool,
    pub eqsl: bool,
    pub qrz: bool,
    pub qsl: bool,
}

// What a record confirms: a contact of the log, with its services and the halves of its id, or none.
#[derive(Clone, Copy)]
pub struct Target {
    pub matched: bool,
    pub services: u32,
    pub low: u32,
    pub high: u32,
}

const LOTW: u32 = 1;

const EQSL: u32 = 2;

const QRZ: u32 = 4;

const CARD: u32 = 8;

// The contact whose entry is at `place`.
fn target_in(list: &[u8], place: usize) -> Target
    requires { place ≤ 16777216 }
    ensures { result ≡ target_in list.now place }
{
    let id = contacts::id_at(list, place);
    Target {
        matched: true,
        services: text::byte(list, place + 10) as u32,
        low: index::low_half(id),
        high: index::high_half(id),
    }
}

// What a record of this fate confirms, which found contact `hit` of the list, counted from 1, whose entry is at `place`.
pub fn target_of(list: &[u8], fate: usize, hit: usize, place: usize) -> Target
    requires { place ≤ 16777216 }
    ensures { result ≡ target_of list.now fate hit place }
{
    if fate == CONFIRMED as usize {
        if hit == 0 {
            return Target {
                matched: true,
                services: 0,
                low: 0,
                high: 0,
            };
        }
        return target_in(list, place);
    }
    Target {
        matched: false,
        services: 0,
        low: 0,
        high: 0,
    }
}

#[tactic(auto, unfolding(crate::specs::Tallies::is_new))]
pub fn is_new(to: Target, counts: bool, service: u32) -> bool
    ensures { result ≡ is_new to counts service }
{
    let held = counted::has_service(to.services, service);
    counts && (to.matched && !held)
}

#[tactic(auto, unfolding(crate::specs::Tallies::is_old))]
fn is_old(to: Target, counts: bool, service: u32) -> bool
    ensures { result ≡ is_old to counts service }
{
    let held = counted::has_service(to.services, service);
    counts && (to.matched && held)
}

#[tactic(auto, unfolding(crate::specs::Tallies::is_lost))]
fn is_lost(to: Target, counts: bool) -> bool
    ensures { result ≡ is_lost to counts }
{
    counts && !to.matched
}

// One more answer.
pub fn tally_with(to: Target, counts: bool, service: u32, t: Tally) -> Tally
    requires { Few t }
    ensures value { result ≡ tally_with to counts service t }
    ensures grown { Grown 1 t result }
{
    Tally {
        used: t.used + usize::from(is_new(to, counts, service)),
        already: t.already + usize::from(is_old(to, counts, service)),
        unmatched: t.unmatched + usize::from(is_lost(to, counts)),
        lotw: text::any(t.lotw, text::all(counts, service == LOTW)),
        eqsl: text::any(t.eqsl, text::all(counts, service == EQSL)),
        qrz: text::any(t.qrz, text::all(counts, service == QRZ)),
        qsl: text::any(t.qsl, text::all(counts, service == CARD)),
    }
}

fn card_for(to: Target, a: Answer) -> [u32; 5]
    ensures { result ≡ card_for to a }
{
    let date = a.date;
    [to.low, to.high, a.service, date.start, date.len]
}

// The row of a confirmation, where there is room for it.
pub fn put_card(cards: &mut [[u32; 5]], at: usize, to: Target, a: Answer)
    ensures { cards.new ≡ set cards.old at (card_for to a) }
{
    if at < cards.len() {
        cards[at] = card_for(to, a);
    }
}

pub fn with_none(t: Tally) -> Tally
    ensures { result ≡ unmarked t }
{
    Tally {
        lotw: false,
        eqsl: false,
        qrz: false,
        qsl: false,
        ..t
    }
}

pub fn services_in(t: Tally) -> u32
    ensures { result ≡ services_in t }
{
    u32::from(t.lotw) + u32::from(t.eqsl) * EQSL + u32::from(t.qrz) * QRZ + u32::from(t.qsl) * CARD
}
