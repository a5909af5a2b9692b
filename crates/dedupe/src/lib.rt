// Whether two contacts are one: the same call, mode and band, and within a window. Each text of a key is a place: a part of the
// contact's own text, as it stands or in capitals, or an entry of a table.
#![tactic(auto)]

ghost use Rattle.std.specs.Prelude.{◌≡◌, ◌≤◌, eqb, take};
ghost use Rattle.text.specs.Pick.{pick, both, either};
ghost use Rattle.text.specs.Space.{trimmed};
ghost use Rattle.letters.specs.Capitals.{raised};
ghost use Rattle.letters.specs.Same.{same};
ghost use Rattle.tables.specs.Place.{in_text, part, bytes};
ghost use Rattle.times.specs.Moments.{moment_of};
ghost use Rattle.dedupe.specs.Views.{cased, view, viewed, keys_in_log, keys_in_file, keys_natural, keys_unmatched, keys_duplicate};

use tables::{Name, Place, places};

// What names a contact, beside its time.
#[repr(C)]
#[derive(Clone, Copy)]
pub struct Key {
    pub call: Place,
    pub mode: Place,
    pub band: Place,
}

// How two texts are looked at: the first one trimmed, the second one trimmed, both in capitals.
#[derive(Clone, Copy)]
struct Test {
    first: bool,
    second: bool,
    raised: bool,
}

fn case_of(b: u8, raises: bool) -> u8
    ensures { result ≡ pick raises (raised b) b }
{
    if raises { letters::raise(b) } else { b }
}

// Two texts, each as it stands or in capitals, are the same.
pub fn same_cased(a: &[u8], a_raised: bool, b: &[u8], b_raised: bool) -> bool
    ensures { result ≡ same (cased a_raised a.now) (cased b_raised b.now) }
{
    if a.len() != b.len() {
        return false;
    }
    for (i, &x) in a.iter().enumerate() {
        if case_of(x, a_raised) != case_of(b[i], b_raised) {
            return false;
        }
    }
    true
}

// The part of the text at which a place is; the name where it is not in the text.
pub fn shown<'a>(text: &'a [u8], name: &'a [u8], p: Place) -> &'a [u8]
    ensures { result.now ≡ pick (in_text p) (part text.now p) name.now }
{
    if places::in_text(p) {
        places::part(text, p)
    } else {
        name
    }
}

fn trimmed_if(s: &[u8], trims: bool) -> &[u8]
    ensures { result.now ≡ pick trims (trimmed s.now) s.now }
{
    if trims { text::space::trim(s) } else { s }
}

// A text is looked at in capitals: the test does so, or the place itself is in capitals.
fn raises(p: Place, test: Test) -> bool
    ensures { result ≡ either test.raised (eqb p.kind 2) }
{
    test.raised || p.kind == 2
}

// As `alike`, with the names of the places that are entries.
fn alike_named(a: &[u8], p: Place, name: Name, b: &[u8], q: Place, other: Name, test: Test) -> bool
    requires { (name.len ≤ 12) × (other.len ≤ 12) }
    ensures { result ≡ same (viewed test.first test.raised a.now p (take name.len name.bytes)) (viewed test.second test.raised b.now q (take other.len other.bytes)) }
{
    let s = trimmed_if(shown(a, &name.bytes[..name.len], p), test.first);
    let t = trimmed_if(shown(b, &other.bytes[..other.len], q), test.second);
    same_cased(s, raises(p, test), t, raises(q, test))
}

// Two places stand for the same bytes, as a test looks at them.
fn alike(a: &[u8], p: Place, b: &[u8], q: Place, test: Test) -> bool
    ensures { result ≡ same (view test.first test.raised (bytes a.now p)) (view test.second test.raised (bytes b.now q)) }
{
    alike_named(a, p, places::name_of(p), b, q, places::name_of(q), test)
}

fn looked_at(first: bool, second: bool, raised: bool) -> Test
    ensures { result ≡ record { first = first; second = second; raised = raised } }
{
    Test {
        first,
        second,
        raised,
    }
}

// The modes and the bands of two keys, looked at alike.
fn mode_and_band(a: &[u8], k: Key, b: &[u8], o: Key, test: Test) -> bool
    ensures { result ≡ both (same (view test.first test.raised (bytes a.now k.mode)) (view test.second test.raised (bytes b.now o.mode))) (same (view test.first test.raised (bytes a.now k.band)) (view test.second test.raised (bytes b.now o.band))) }
{
    alike(a, k.mode, b, o.mode, test) && alike(a, k.band, b, o.band, test)
}

#[tactic(auto, unfolding(crate::specs::Views::keys_in_log, crate::specs::Keys::in_log, crate::specs::Views::cased, letters::specs::Same::same_raised))]
pub fn in_log(a: &[u8], k: Key, b: &[u8], o: Key) -> bool
    ensures { result ≡ keys_in_log a.now k b.now o }
{
    alike(a, k.call, b, o.call, looked_at(false, false, true))
        && mode_and_band(a, k, b, o, looked_at(false, false, false))
}

#[tactic(auto, unfolding(crate::specs::Views::keys_in_file, crate::specs::Keys::in_file, crate::specs::Views::cased, letters::specs::Same::same_raised))]
pub fn in_file(a: &[u8], k: Key, b: &[u8], o: Key) -> bool
    ensures { result ≡ keys_in_file a.now k b.now o }
{
    alike(a, k.call, b, o.call, looked_at(true, true, true))
        && mode_and_band(a, k, b, o, looked_at(true, true, false))
}

#[tactic(auto, unfolding(crate::specs::Views::keys_natural, crate::specs::Keys::natural_key, crate::specs::Views::cased, letters::specs::Same::same_raised))]
pub fn same_natural_key(a: &[u8], k: Key, b: &[u8], o: Key) -> bool
    ensures { result ≡ keys_natural a.now k b.now o }
{
    alike(a, k.call, b, o.call, looked_at(false, true, true))
        && mode_and_band(a, k, b, o, looked_at(false, false, false))
}

// What two confirmations that match no contact confirm is the same.
#[tactic(auto, unfolding(crate::specs::Views::keys_unmatched, crate::specs::Keys::unmatched, crate::specs::Views::cased, letters::specs::Same::same_raised))]
pub fn same_unmatched(a: &[u8], k: Key, b: &[u8], o: Key) -> bool
    ensures { result ≡ keys_unmatched a.now k b.now o }
{
    alike(a, k.call, b, o.call, looked_at(true, true, true))
        && alike(a, k.band, b, o.band, looked_at(false, false, false))
        && alike(a, k.mode, b, o.mode, looked_at(false, false, false))
}

// The moment that a date and a time of day name.
pub fn moment(text: &[u8], date: Place, time: Place) -> Option<u64>
    ensures { result ≡ moment_of (bytes text.now date) (bytes text.now time) }
{
    let d = places::part(text, date);
    let t = places::part(text, time);
    times::moment_of(d, t)
}

#[tactic(auto, unfolding(crate::specs::Views::keys_duplicate, crate::specs::Keys::duplicate, crate::specs::Views::keys_natural))]
pub fn is_duplicate(
    a: &[u8],
    k: Key,
    at: Option<u64>,
    b: &[u8],
    o: Key,
    when: Option<u64>,
    window: i64,
) -> bool
    ensures { result ≡ keys_duplicate a.now k b.now o at when window }
{
    same_natural_key(a, k, b, o) && times::window::within_window(at, when, window)
}
