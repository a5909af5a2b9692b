// The confirmations that a record bears, from one pass over its rows. After `confirmations_in` of `import.rs`.
#![tactic(auto)]

ghost use Rattle.std.specs.Prelude.{◌≡◌, [], ◌+◌, ◌*◌, ◌≤◌, length};
ghost use Rattle.writer.specs.Rows.{rows_from};
ghost use Rattle.confirmations.specs.Confirmations.{begins, says, date_at, unanswered, attributed, stood, answers_of};
ghost use Rattle.confirmations.specs.Heard.{said_of, heard_of, said_with, heard_with, telling, answer_by, eqsl_by, card_by, answers_by};

use tables::{Place, places};

// What one service says of a record: whether it confirms, which it is (1 lotw, 2 eqsl, 4 qrz, 8 a card), and since when.
// Kept: a flag and no Option, since the promise of `confirmations_in` is told by these fields.
#[repr(C)]
#[derive(Clone, Copy)]
pub struct Answer {
    pub present: bool,
    pub service: u32,
    pub date: Place,
}

const LOTW: u32 = 1;

const EQSL: u32 = 2;

const QRZ: u32 = 4;

const CARD: u32 = 8;

// The value that tells whether a service confirms, and the one with its date.
#[derive(Clone, Copy)]
struct Said {
    value: Place,
    date: Place,
}

// What the rows passed say.
#[derive(Clone, Copy)]
struct Heard {
    lotw: Said,
    eqsl: Said,
    qrz: Said,
    card: Said,
    has_ag: bool,
    of_eqsl: bool,
    of_lotw: bool,
}

fn does_begin(name: &[u8], front: &[u8]) -> bool
    ensures { result ≡ begins front.now name.now }
{
    letters::same_raised(hand::part(name, 0, front.len()), front)
}

fn said_with(name: &[u8], value: Place, wanted: &[u8], dated: &[u8], was: Said) -> Said
    ensures { result ≡ said_with name.now value wanted.now dated.now was }
{
    Said {
        value: if letters::same_raised(name, wanted) {
            value
        } else {
            was.value
        },
        date: if letters::same_raised(name, dated) {
            value
        } else {
            was.date
        },
    }
}

fn heard_with(name: &[u8], value: Place, was: Heard) -> Heard
    ensures { result ≡ heard_with name.now value was }
{
    let lotw = said_with(name, value, b"LOTW_QSL_RCVD", b"LOTW_QSLRDATE", was.lotw);
    let eqsl = said_with(name, value, b"EQSL_QSL_RCVD", b"EQSL_QSLRDATE", was.eqsl);
    let qrz = said_with(
        name,
        value,
        b"APP_QRZLOG_STATUS",
        b"APP_QRZLOG_QSLDATE",
        was.qrz,
    );
    let card = said_with(name, value, b"QSL_RCVD", b"QSLRDATE", was.card);
    Heard {
        lotw,
        eqsl,
        qrz,
        card,
        has_ag: text::any(letters::same_raised(name, b"EQSL_AG"), was.has_ag),
        of_eqsl: text::any(does_begin(name, b"APP_EQSL"), was.of_eqsl),
        of_lotw: text::any(does_begin(name, b"APP_LOTW"), was.of_lotw),
    }
}

// Whether such a name has these as its first and its third letter: most names do not, and are passed over.
fn is_telling(first: u8, third: u8) -> bool
    ensures { result ≡ telling first third }
{
    let u = letters::raise(first);
    let v = letters::raise(third);
    text::all(
        text::any(
            u == b'A',
            text::any(u == b'E', text::any(u == b'L', u == b'Q')),
        ),
        text::any(
            v == b'L',
            text::any(v == b'P', text::any(v == b'S', v == b'T')),
        ),
    )
}

fn said_nothing() -> Said
    ensures { result ≡ said_of [] [] [] [] }
{
    Said {
        value: places::absent(),
        date: places::absent(),
    }
}

fn heard_nothing() -> Heard
    ensures { result ≡ heard_of [] [] }
{
    Heard {
        lotw: said_nothing(),
        eqsl: said_nothing(),
        qrz: said_nothing(),
        card: said_nothing(),
        has_ag: false,
        of_eqsl: false,
        of_lotw: false,
    }
}

// From the last row to the first, so that of two rows of one name the first stands.
fn heard_in(text: &[u8], table: &[u32], first: usize, count: usize) -> Heard
    requires { (first + count) * 5 ≤ length table.now }
    ensures { result ≡ heard_of text.now (rows_from table.now first count) }
{
    let mut heard = heard_nothing();
    for i in (0..count).rev() {
        let row = writer::row_at(table, first + i);
        let name = rowcheck::name_of(text, row);
        if !is_telling(text::byte(name, 0), text::byte(name, 2)) {
            continue;
        }
        heard = heard_with(name, places::value_place(row), heard);
    }
    heard
}

fn is_said(text: &[u8], p: Place, letter: &[u8]) -> bool
    ensures { result ≡ says text.now p letter.now }
{
    letters::same_raised(text::space::trim(places::part(text, p)), letter)
}

fn date_at(text: &[u8], p: Place) -> Place
    requires { length text.now ≤ 16777216 }
    ensures { result ≡ date_at text.now p }
{
    let s = places::part(text, p);
    let a = text::space::trim_start(s);
    if a == s.len() {
        return places::absent();
    }
    let rest = &s[a..];
    let n = text::space::trim_end(rest);
    places::stands(p.start + a as u32, n as u32)
}

fn not_answered() -> Answer
    ensures { result ≡ unanswered }
{
    Answer {
        present: false,
        service: 0,
        date: places::absent(),
    }
}

fn answer_by(text: &[u8], bears: bool, service: u32, own: Place, date: Place) -> Answer
    requires { length text.now ≤ 16777216 }
    ensures { result ≡ answer_by text.now bears service own date }
{
    if bears {
        return Answer {
            present: true,
            service,
            date: places::or_else(date_at(text, own), date_at(text, date)),
        };
    }
    not_answered()
}

fn attributed_to(of_lotw: bool, of_eqsl: bool) -> u32
    ensures { result ≡ attributed of_lotw of_eqsl }
{
    if of_lotw {
        return LOTW;
    }
    if of_eqsl {
        return EQSL;
    }
    CARD
}

fn has_stood(by_lotw: bool, by_eqsl: bool, service: u32) -> bool
    ensures { result ≡ stood by_lotw by_eqsl service }
{
    text::any(
        text::all(service == LOTW, by_lotw),
        text::all(service == EQSL, by_eqsl),
    )
}

fn is_by_eqsl(text: &[u8], h: Heard) -> bool
    ensures { result ≡ eqsl_by text.now h }
{
    text::any(
        is_said(text, h.eqsl.value, b"Y"),
        text::any(h.has_ag, h.of_eqsl),
    )
}

fn card_by(text: &[u8], h: Heard, by_lotw: bool, by_eqsl: bool, date: Place) -> Answer
    requires { length text.now ≤ 16777216 }
    ensures { result ≡ card_by text.now h by_lotw by_eqsl date }
{
    let service = attributed_to(h.of_lotw, h.of_eqsl);
    let stands = has_stood(by_lotw, by_eqsl, service);
    let bears = text::all(is_said(text, h.card.value, b"Y"), !stands);
    answer_by(text, bears, service, h.card.date, date)
}

fn answers_by(text: &[u8], h: Heard, date: Place) -> [Answer; 4]
    requires { length text.now ≤ 16777216 }
    ensures { result ≡ answers_by text.now h date }
{
    let by_lotw = is_said(text, h.lotw.value, b"Y");
    let by_eqsl = is_by_eqsl(text, h);
    let by_qrz = is_said(text, h.qrz.value, b"C");
    [
        answer_by(text, by_lotw, LOTW, h.lotw.date, date),
        answer_by(text, by_eqsl, EQSL, h.eqsl.date, date),
        answer_by(text, by_qrz, QRZ, h.qrz.date, date),
        card_by(text, h, by_lotw, by_eqsl, date),
    ]
}

// The answers of lotw, eqsl and qrz, and what QSL_RCVD gives, of `count` rows from row `first` on: a record's, whose QSO has its date
// at that place. Nothing is checked: rows that were read are rows of their text.
pub fn confirmations_in(
    text: &[u8],
    table: &[u32],
    first: usize,
    count: usize,
    date: Place,
) -> [Answer; 4]
    requires { (length text.now ≤ 16777216) × ((first + count) * 5 ≤ length table.now) }
    ensures { result ≡ answers_of text.now (rows_from table.now first count) date }
{
    answers_by(text, heard_in(text, table, first, count), date)
}
