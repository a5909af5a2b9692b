// What a log is searched for: a key over a text, and a moment. A contact of a list is wanted in another as a record of a file is.
#![tactic(auto)]

ghost use Rattle.std.specs.Prelude.{◌≡◌, ◌≤◌, length};
ghost use Rattle.wanted.specs.Wanted.{code_for, place_at, key_at, wanted_at};

use dedupe::Key;
use tables::{Place, places};

#[derive(Clone, Copy)]
pub struct Wanted {
    pub key: Key,
    pub moment: Option<u64>,
}

// The code of the key.
pub fn code_of(text: &[u8], wanted: Wanted) -> u32
    ensures { result ≡ code_for text.now wanted.key }
{
    let key = wanted.key;
    let call = places::name_of(key.call);
    let mode = places::name_of(key.mode);
    let band = places::name_of(key.band);
    index::code_of(
        dedupe::shown(text, &call.bytes[..call.len], key.call),
        dedupe::shown(text, &mode.bytes[..mode.len], key.mode),
        dedupe::shown(text, &band.bytes[..band.len], key.band),
    )
}

// The text of a list whose length byte is at p.
fn place_at(list: &[u8], p: usize) -> Place
    requires { length list.now ≤ 16777216 }
    ensures { result ≡ place_at list.now p }
{
    if list.len() <= p {
        return Place {
            kind: 1,
            start: 0,
            len: 0,
        };
    }
    Place {
        kind: 1,
        start: (p + 1) as u32,
        len: text::byte(list, p) as u32,
    }
}

// The key of a contact whose call, mode and band have their length bytes there.
pub fn key_at(list: &[u8], call: usize, mode: usize, band: usize) -> Key
    requires { length list.now ≤ 16777216 }
    ensures { result ≡ key_at list.now call mode band }
{
    Key {
        call: place_at(list, call),
        mode: place_at(list, mode),
        band: place_at(list, band),
    }
}

// The contact whose entry is at `at`.
pub fn wanted_at(list: &[u8], at: usize) -> Wanted
    requires { (length list.now ≤ 16777216) × (at ≤ 16777216) }
    ensures { result ≡ wanted_at list.now at }
{
    let call = at + 11;
    let date = contacts::after_text(list, call);
    let time = contacts::after_text(list, date);
    let band = contacts::after_text(list, time);
    let mode = contacts::after_text(list, band);
    let moment = times::moment_of(contacts::text_at(list, date), contacts::text_at(list, time));
    let key = key_at(list, call, mode, band);
    Wanted { key, moment }
}
