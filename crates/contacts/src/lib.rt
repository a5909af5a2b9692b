// The contact list: one lent list of bytes that stands in the place of rigflow's database. It is checked whole before anything else is
// done with it; what it is known by is its mark, the count and the largest id.
#![tactic(auto)]

ghost use Rattle.std.specs.Prelude.{◌≡◌, ◌+◌, ◌*◌, ◌^◌, ◌≤◌, ◌<◌, length};
ghost use Rattle.contacts.specs.Contacts.{plain, is_date, is_time, sound_head, sound_texts};
ghost use Rattle.contacts.specs.Lists.{number_at, text_at, after, end_at, id_at, good_at, entries_from, count_of, listed_as, fresh_against, Few};

use decimal::all_digits;
use refusals::{LONGEST, Refusal};

// What a list is known by: how many contacts, and the largest id.
#[derive(Clone, Copy, PartialEq, Eq)]
pub struct Mark {
    pub contacts: usize,
    pub largest: u64,
}

#[derive(Clone, Copy)]
pub enum Freshness {
    Fresh,
    Stale,
}

// The version of lists that is known, and where the entries begin.
pub const VERSION: u8 = 1;

pub const ENTRIES: usize = 5;

// How many digits a date has, and a time of day without and with its seconds.
const DATE: usize = 8;

const SHORT_TIME: usize = 4;

const LONG_TIME: usize = 6;

const HALF_OF_ID: u64 = 4_294_967_296;

const LARGEST_ID: u64 = 9_223_372_036_854_775_807;

const EVERY_SERVICE: u8 = 15;

// UTF-8 that a length byte can count.
fn is_plain(t: &[u8]) -> bool
    ensures { result ≡ plain t.now }
{
    t.len() <= 255 && text::utf8::is_utf8(t)
}

pub fn is_date(d: &[u8]) -> bool
    ensures { result ≡ is_date d.now }
{
    d.len() == DATE && all_digits(d)
}

pub fn is_time(t: &[u8]) -> bool
    ensures { result ≡ is_time t.now }
{
    (t.len() == SHORT_TIME || t.len() == LONG_TIME) && all_digits(t)
}

// An id from 1 on, and no unknown service.
pub fn is_sound_head(id: u64, services: u8) -> bool
    ensures { result ≡ sound_head id services }
{
    1 <= id && id <= LARGEST_ID && services <= EVERY_SERVICE
}

// Kept: `text::all`, since a chain of five with `&&` has its proof by each branch.
#[inline(always)]
pub fn is_sound_texts(call: &[u8], date: &[u8], time: &[u8], band: &[u8], mode: &[u8]) -> bool
    ensures { result ≡ sound_texts call.now date.now time.now band.now mode.now }
{
    text::all(
        is_plain(call),
        text::all(
            is_date(date),
            text::all(is_time(time), text::all(is_plain(band), is_plain(mode))),
        ),
    )
}

// The number of the k bytes from `at` on.
fn number_at(s: &[u8], at: usize, k: usize) -> u64
    requires { (at ≤ 16780000) × (k ≤ 8) }
    ensures value { result ≡ number_at s.now at k }
    ensures upper_bound { result < 256 ^ k }
{
    let mut n = 0;
    for i in 0..k {
        n = n * 256 + text::byte(s, at + i) as u64;
    }
    n
}

// Of a whole entry one test serves all eight bytes; each half of them is read as one word.
pub fn id_at(s: &[u8], at: usize) -> u64
    requires { at ≤ 16777216 }
    ensures { result ≡ id_at s.now at }
{
    let from = at + 2;
    let to = at + 10;
    if s.len() < to {
        return number_at(s, from, 8);
    }
    let middle = at + 6;
    number_at(&s[from..middle], 0, 4) * HALF_OF_ID + number_at(&s[middle..to], 0, 4)
}

// The text whose length byte is at p.
pub fn text_at(s: &[u8], p: usize) -> &[u8]
    ensures { result.now ≡ text_at s.now p }
{
    if s.len() <= p {
        return &s[..0];
    }
    let n = s[p] as usize;
    let from = p + 1;
    if s.len() - from <= n {
        return &s[from..];
    }
    let to = from + n;
    &s[from..to]
}

// The place after that text.
pub fn after_text(s: &[u8], p: usize) -> usize
    requires { p ≤ 16780000 }
    ensures value { result ≡ after s.now p }
    ensures upper_bound { result ≤ p + 256 }
{
    p + 1 + text::byte(s, p) as usize
}

// Where the entry at `at` ends.
pub fn end_at(s: &[u8], at: usize) -> usize
    requires { at ≤ 16777216 }
    ensures value { result ≡ end_at s.now at }
    ensures upper_bound { result ≤ at + 1291 }
{
    let date = after_text(s, at + 11);
    let time = after_text(s, date);
    let band = after_text(s, time);
    let mode = after_text(s, band);
    after_text(s, mode)
}

// The texts from the call's on.
fn are_texts_sound(s: &[u8], call: usize) -> bool
    requires { call ≤ 16778000 }
    ensures { result ≡ sound_texts (text_at s.now call) (text_at s.now (after s.now call)) (text_at s.now (after s.now (after s.now call))) (text_at s.now (after s.now (after s.now (after s.now call)))) (text_at s.now (after s.now (after s.now (after s.now (after s.now call))))) }
{
    let date = after_text(s, call);
    let time = after_text(s, date);
    let band = after_text(s, time);
    let mode = after_text(s, band);
    is_sound_texts(
        text_at(s, call),
        text_at(s, date),
        text_at(s, time),
        text_at(s, band),
        text_at(s, mode),
    )
}

// The lengths of the entry come out exactly, and its contact is sound.
fn is_good(s: &[u8], at: usize) -> bool
    requires { at ≤ 16777216 }
    ensures { result ≡ good_at s.now at }
{
    let end = end_at(s, at);
    if s.len() < end {
        return false;
    }
    if at + 2 + number_at(s, at, 2) as usize != end {
        return false;
    }
    if !is_sound_head(id_at(s, at), text::byte(s, at + 10)) {
        return false;
    }
    are_texts_sound(s, at + 11)
}

fn check_entries(s: &[u8], count: usize) -> Result<Mark, Refusal>
    requires { (5 ≤ length s.now) × (length s.now ≤ 16777216) × (count < 4294967296) }
    ensures value { result ≡ entries_from s.now count count 5 0 }
    ensures few { Few result }
{
    let mut at = ENTRIES;
    let mut last: u64 = 0;
    for k in 0..count {
        if !is_good(s, at) {
            return Err(Refusal::MalformedList);
        }
        let id = id_at(s, at);
        if id <= last {
            return Err(Refusal::IdsNotRising);
        }
        at = end_at(s, at);
        last = id;
    }
    if at != s.len() {
        return Err(Refusal::MalformedList);
    }
    Ok(Mark {
        contacts: count,
        largest: last,
    })
}

// How many contacts a list says it has.
pub fn count_of(list: &[u8]) -> usize
    ensures value { result ≡ count_of list.now }
    ensures upper_bound { result < 4294967296 }
{
    number_at(list, 1, 4) as usize
}

// The list's mark, or why it is no list.
pub fn check(list: &[u8]) -> Result<Mark, Refusal>
    ensures value { result ≡ listed_as list.now }
    ensures few { Few result }
{
    if LONGEST < list.len() {
        return Err(Refusal::TooLong);
    }
    if list.is_empty() {
        return Err(Refusal::MalformedList);
    }
    if list[0] != VERSION {
        return Err(Refusal::OtherVersion);
    }
    if list.len() < ENTRIES {
        return Err(Refusal::MalformedList);
    }
    check_entries(list, count_of(list))
}

// Whether a plan with this mark still holds against a list, which is checked first.
pub fn is_fresh(contacts: usize, largest: u64, list: &[u8]) -> Result<Freshness, Refusal>
    ensures { result ≡ fresh_against contacts largest list.now }
{
    let was = Mark { contacts, largest };
    if was != check(list)? {
        return Ok(Freshness::Stale);
    }
    Ok(Freshness::Fresh)
}
