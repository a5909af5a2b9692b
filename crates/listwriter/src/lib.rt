// Contacts written as a list, one behind the other: a list is begun, and each contact appended to it.
#![tactic(auto)]

ghost use Rattle.std.specs.Prelude.{◌≡◌, ◌+◌, ◌≤◌, ◌<◌, length, take};
ghost use Rattle.output.specs.Put.{Put, Room};
ghost use Rattle.contacts.specs.Contacts.{contact, bytes_of, counted, entry_text};
ghost use Rattle.listwriter.specs.Append.{start_as, start_after, long_texts, heading_of, append_as, append_after};
ghost use Rattle.listwriter.specs.Parts.{pair_text, texts_text, head_text, body_size, Counted, Behind, Entered};

use contacts::{ENTRIES, VERSION};
use refusals::{LONGEST, Refusal};

// How many contacts a list can count.
const MOST: usize = 4_294_967_295;

// A contact that is to be written.
#[derive(Clone, Copy)]
struct Entry<'a> {
    id: u64,
    services: u8,
    call: &'a [u8],
    date: &'a [u8],
    time: &'a [u8],
    band: &'a [u8],
    mode: &'a [u8],
}

// n in k bytes, the highest first.
fn put_number(out: &mut [u8], at: usize, k: usize, n: u64) -> usize
    requires { Room out.old at (bytes_of k n) × (k ≤ 8) }
    ensures { Put result out.old out.new at (bytes_of k n) }
{
    output::put_bytes(out, at, &n.to_be_bytes()[8 - k..])
}

fn put_counted(out: &mut [u8], at: usize, t: &[u8]) -> usize
    requires { Room out.old at (counted t.now) × (length t.now < 256) }
    ensures { Put result out.old out.new at (counted t.now) }
{
    let a = output::put_byte(out, at, t.len() as u8);
    output::put_bytes(out, a, t)
}

fn put_pair(out: &mut [u8], at: usize, a: &[u8], b: &[u8]) -> usize
    requires { Room out.old at (pair_text a.now b.now) × (length a.now < 256) × (length b.now < 256) }
    ensures { Put result out.old out.new at (pair_text a.now b.now) }
{
    let p = put_counted(out, at, a);
    put_counted(out, p, b)
}

fn put_texts(out: &mut [u8], at: usize, e: Entry) -> usize
    requires { Room out.old at (texts_text e.call.now e.date.now e.time.now e.band.now e.mode.now) × Counted e.call.now e.date.now e.time.now e.band.now e.mode.now }
    ensures { Put result out.old out.new at (texts_text e.entry.call.now e.entry.date.now e.entry.time.now e.entry.band.now e.entry.mode.now) }
{
    let a = put_counted(out, at, e.call);
    let b = put_pair(out, a, e.date, e.time);
    put_pair(out, b, e.band, e.mode)
}

fn put_head(out: &mut [u8], at: usize, size: u64, id: u64, services: u8) -> usize
    requires { Room out.old at (head_text size id services) }
    ensures { Put result out.old out.new at (head_text size id services) }
{
    let a = put_number(out, at, 2, size);
    let b = put_number(out, a, 8, id);
    output::put_byte(out, b, services)
}

// How many bytes an entry has behind its size.
fn body_size(e: Entry) -> usize
    requires { Counted e.call.now e.date.now e.time.now e.band.now e.mode.now }
    ensures value { result ≡ body_size e.entry.call.now e.entry.date.now e.entry.time.now e.entry.band.now e.entry.mode.now }
    ensures upper_bound { result ≤ 1300 }
{
    14 + e.call.len() + e.date.len() + e.time.len() + e.band.len() + e.mode.len()
}

fn put_entry(out: &mut [u8], at: usize, e: Entry) -> usize
    requires { Room out.old at (entry_text (contact e.id e.services e.call.now e.date.now e.time.now e.band.now e.mode.now)) × Counted e.call.now e.date.now e.time.now e.band.now e.mode.now }
    ensures { Put result out.old out.new at (entry_text (contact e.entry.id e.entry.services e.entry.call.now e.entry.date.now e.entry.time.now e.entry.band.now e.entry.mode.now)) }
{
    let size = body_size(e) as u64;
    let a = put_head(out, at, size, e.id, e.services);
    put_texts(out, a, e)
}

// Behind `used` bytes, where there is room.
fn put_behind(out: &mut [u8], used: usize, contacts: usize, e: Entry) -> Result<usize, Refusal>
    requires { (5 ≤ used) × (used ≤ 16777216) × (contacts < 4294967295) × Counted e.call.now e.date.now e.time.now e.band.now e.mode.now }
    ensures { Behind out.old out.new used contacts (contact e.entry.id e.entry.services e.entry.call.now e.entry.date.now e.entry.time.now e.entry.band.now e.entry.mode.now) result }
{
    let end = used + 2 + body_size(e);
    if LONGEST < end {
        return Err(Refusal::TooLong);
    }
    if out.len() < end {
        return Err(Refusal::ShortOutput);
    }
    put_entry(out, used, e);
    put_number(out, 1, 4, (contacts + 1) as u64);
    Ok(end)
}

// A contact behind `used` bytes, if it is sound and its id rises.
fn enter(
    out: &mut [u8],
    used: usize,
    contacts: usize,
    largest: u64,
    e: Entry,
) -> Result<usize, Refusal>
    requires { (5 ≤ used) × (used ≤ 16777216) × (contacts < 4294967295) }
    ensures { Entered out.old out.new used contacts largest (contact e.entry.id e.entry.services e.entry.call.now e.entry.date.now e.entry.time.now e.entry.band.now e.entry.mode.now) result }
{
    let head = contacts::is_sound_head(e.id, e.services);
    let texts = contacts::is_sound_texts(e.call, e.date, e.time, e.band, e.mode);
    if !text::all(head, texts) {
        return Err(Refusal::MalformedList);
    }
    if e.id <= largest {
        return Err(Refusal::IdsNotRising);
    }
    put_behind(out, used, contacts, e)
}

// Kept: `text::any`, since a chain of five with `||` has its proof by each branch.
fn are_long(e: Entry) -> bool
    ensures { result ≡ long_texts e.entry.call.now e.entry.date.now e.entry.time.now e.entry.band.now e.entry.mode.now }
{
    let last = text::any(LONGEST < e.band.len(), LONGEST < e.mode.len());
    let rest = text::any(LONGEST < e.time.len(), last);
    text::any(
        LONGEST < e.call.len(),
        text::any(LONGEST < e.date.len(), rest),
    )
}

// Whether a contact may follow, by the heading alone: in the same time whatever the list's length.
fn heading_of(list: &[u8], contacts: usize) -> Result<(), Refusal>
    ensures { result ≡ heading_of list.now contacts }
{
    if list.is_empty() {
        return Err(Refusal::MalformedList);
    }
    if list[0] != VERSION {
        return Err(Refusal::OtherVersion);
    }
    let told = text::all(ENTRIES <= list.len(), contacts::count_of(list) == contacts);
    if !text::all(told, contacts < MOST) {
        return Err(Refusal::MalformedList);
    }
    Ok(())
}

// The first `used` bytes, or all where there are fewer.
fn front(out: &[u8], used: usize) -> &[u8]
    ensures { result.now ≡ take used out.now }
{
    if out.len() <= used {
        return out;
    }
    &out[..used]
}

fn heading_in(out: &[u8], used: usize, contacts: usize) -> Result<(), Refusal>
    ensures { result ≡ heading_of (take used out.now) contacts }
{
    heading_of(front(out, used), contacts)
}

// A contact behind a list of `used` bytes that has this mark. Of the list only the heading is looked at.
pub fn append(
    out: &mut [u8],
    used: usize,
    contacts: usize,
    largest: u64,
    id: u64,
    services: u8,
    call: &[u8],
    date: &[u8],
    time: &[u8],
    band: &[u8],
    mode: &[u8],
) -> Result<usize, Refusal>
    ensures value { result ≡ append_as used contacts largest (contact id services call.now date.now time.now band.now mode.now) out.old }
    ensures out_after { out.new ≡ append_after used contacts largest (contact id services call.now date.now time.now band.now mode.now) out.old }
{
    let e = Entry {
        id,
        services,
        call,
        date,
        time,
        band,
        mode,
    };
    if text::any(LONGEST < used, are_long(e)) {
        return Err(Refusal::TooLong);
    }
    heading_in(out, used, contacts)?;
    enter(out, used, contacts, largest, e)
}

// A list with no contact yet.
pub fn start(out: &mut [u8]) -> Result<usize, Refusal>
    ensures value { result ≡ start_as (length out.old) }
    ensures out_after { out.new ≡ start_after out.old }
{
    if out.len() < ENTRIES {
        return Err(Refusal::ShortOutput);
    }
    Ok(output::put_bytes(out, 0, b"\x01\0\0\0\0"))
}
