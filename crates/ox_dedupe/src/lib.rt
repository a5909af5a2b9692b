// What `dedupe` does: the moment of a date and a time of day, and the tests on two QSOs, each over its own text. A text is refused with
// 1, a date or a time that is not UTF-8 with 2, and a QSO that is none of its text with 11.
#![tactic(auto)]

ghost use Rattle.std.specs.Prelude.{◌≡◌};
ghost use Rattle.ox_dedupe.specs.Duplicates.{untimed_of, timed_of, moment_answer, of_qsos, key_of, moment_in, in_log_answer, in_file_answer, natural_answer, within_answer, duplicate_answer, told_by};

use columns::{BAND, CALL, MODE, QSO_DATE, TIME_ON};
use dedupe::Key;
use model::Qso;
use ox_text::{Told, untold};
use refusals::Refusal;

// With a moment, its seconds since the first day of year 0. With 2 `place` is the first bad byte's, the time's counted after the date's.
// Kept: C takes no Option, so whether there is one is a field.
#[repr(C)]
#[derive(Clone, Copy)]
pub struct Timed {
    pub refusal: u32,
    pub place: usize,
    pub present: bool,
    pub seconds: u64,
}

impl From<Refusal> for Timed {
    ghost from_gives = { λ why r. r ≡ untimed_of why };

    #[tactic(auto, unfolding(crate::specs::Duplicates::untimed_of))]
    fn from(why: Refusal) -> Timed {
        Timed {
            refusal: refusals::number(why),
            place: refusals::place(why),
            present: false,
            seconds: 0,
        }
    }
}

impl From<Option<u64>> for Timed {
    ghost from_gives = { λ moment r. r ≡ timed_of moment };

    #[tactic(auto, unfolding(crate::specs::Duplicates::timed_of))]
    fn from(moment: Option<u64>) -> Timed {
        match moment {
            None => Timed {
                refusal: 0,
                place: 0,
                present: false,
                seconds: 0,
            },
            Some(seconds) => Timed {
                refusal: 0,
                place: 0,
                present: true,
                seconds,
            },
        }
    }
}

// As `parse_dt`.
#[tactic(auto, unfolding(crate::specs::Duplicates::moment_answer))]
#[unsafe(no_mangle)]
pub extern "C" fn ox_parse_dt(date: &[u8], time: &[u8]) -> Timed
    ensures { result ≡ moment_answer date.now time.now }
{
    match refusals::check_texts(date, time) {
        Err(why) => Timed::from(why),
        Ok(()) => Timed::from(times::moment_of(date, time)),
    }
}

#[tactic(auto, unfolding(crate::specs::Duplicates::of_qsos))]
fn check_qsos(a: &[u8], q: Qso, b: &[u8], o: Qso) -> Result<(), Refusal>
    ensures { result ≡ of_qsos a.now q b.now o }
{
    if refusals::LONGEST < a.len() || refusals::LONGEST < b.len() {
        return Err(Refusal::TooLong);
    }
    if model::is_qso(a, q) && model::is_qso(b, o) {
        Ok(())
    } else {
        Err(Refusal::BadRow)
    }
}

#[tactic(auto, unfolding(crate::specs::Duplicates::key_of))]
fn key_of(q: Qso) -> Key
    ensures { result ≡ key_of q }
{
    Key {
        call: q.columns[CALL],
        mode: q.columns[MODE],
        band: q.columns[BAND],
    }
}

#[tactic(auto, unfolding(crate::specs::Duplicates::moment_in))]
fn moment_in(text: &[u8], q: Qso) -> Option<u64>
    ensures { result ≡ moment_in text.now q }
{
    dedupe::moment(text, q.columns[QSO_DATE], q.columns[TIME_ON])
}

#[tactic(auto, unfolding(crate::specs::Duplicates::told_by))]
fn told(said: Result<bool, Refusal>) -> Told
    ensures { result ≡ told_by said }
{
    match said {
        Err(why) => untold(why),
        Ok(yes) => Told {
            refusal: 0,
            place: 0,
            yes,
        },
    }
}

// The match in the log: the calls untrimmed.
#[tactic(auto, unfolding(crate::specs::Duplicates::in_log_answer, crate::specs::Duplicates::told_by))]
#[unsafe(no_mangle)]
pub extern "C" fn ox_in_log(a: &[u8], q: Qso, b: &[u8], o: Qso) -> Told
    ensures { result ≡ in_log_answer a.now q b.now o }
{
    told(check_qsos(a, q, b, o).map(|()| dedupe::in_log(a, key_of(q), b, key_of(o))))
}

// The match in the file: call, mode and band trimmed.
#[tactic(auto, unfolding(crate::specs::Duplicates::in_file_answer, crate::specs::Duplicates::told_by))]
#[unsafe(no_mangle)]
pub extern "C" fn ox_in_file(a: &[u8], q: Qso, b: &[u8], o: Qso) -> Told
    ensures { result ≡ in_file_answer a.now q b.now o }
{
    told(check_qsos(a, q, b, o).map(|()| dedupe::in_file(a, key_of(q), b, key_of(o))))
}

// As `same_natural_key`: the second call trimmed.
#[tactic(auto, unfolding(crate::specs::Duplicates::natural_answer, crate::specs::Duplicates::told_by))]
#[unsafe(no_mangle)]
pub extern "C" fn ox_same_natural_key(a: &[u8], q: Qso, b: &[u8], o: Qso) -> Told
    ensures { result ≡ natural_answer a.now q b.now o }
{
    told(check_qsos(a, q, b, o).map(|()| dedupe::same_natural_key(a, key_of(q), b, key_of(o))))
}

// As `within_window`.
#[tactic(auto, unfolding(crate::specs::Duplicates::within_answer, crate::specs::Duplicates::told_by))]
#[unsafe(no_mangle)]
pub extern "C" fn ox_within_window(a: &[u8], q: Qso, b: &[u8], o: Qso, window: i64) -> Told
    ensures { result ≡ within_answer a.now q b.now o window }
{
    told(check_qsos(a, q, b, o).map(|()| times::window::within_window(
        moment_in(a, q),
        moment_in(b, o),
        window,
    )))
}

// As `is_duplicate`.
#[tactic(auto, unfolding(crate::specs::Duplicates::duplicate_answer, crate::specs::Duplicates::told_by))]
#[unsafe(no_mangle)]
pub extern "C" fn ox_is_duplicate(a: &[u8], q: Qso, b: &[u8], o: Qso, window: i64) -> Told
    ensures { result ≡ duplicate_answer a.now q b.now o window }
{
    told(check_qsos(a, q, b, o).map(|()| dedupe::is_duplicate(
        a,
        key_of(q),
        moment_in(a, q),
        b,
        key_of(o),
        moment_in(b, o),
        window,
    )))
}
