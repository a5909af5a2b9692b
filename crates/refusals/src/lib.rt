// Why a call refuses, with the numbers of docs/SCOPE.md; and the test of a plain text, which every call that takes one makes first.
#![tactic(auto)]

ghost use Rattle.std.specs.Prelude.{◌≡◌, ◌≤◌};
ghost use Rattle.refusals.specs.Refusals.{number_of, place_of, name_of, name_length_of, wanted_of, left_of, of_utf8, of_text, of_texts};
ghost use Rattle.refusals.specs.Written.{fitted};

// The longest text, list or output, in bytes.
pub const LONGEST: usize = 16_777_216;

#[derive(Clone, Copy, PartialEq, Eq)]
pub enum Refusal {
    TooLong,
    // with the place of the first bad byte
    NotUtf8(usize),
    // with the place of the tag's `<`
    UnterminatedTag(usize),
    // and with the place and the length of the tag's name
    MissingLength {
        at: usize,
        name: usize,
        length: usize,
    },
    BadLength {
        at: usize,
        name: usize,
        length: usize,
    },
    // and with the length that the tag gives and the bytes that are left
    TruncatedValue {
        at: usize,
        name: usize,
        length: usize,
        wanted: u64,
        left: u64,
    },
    NonUtf8 {
        at: usize,
        name: usize,
        length: usize,
    },
    // with the place of the tag; of rows, which have none, 0
    ManyNames(usize),
    // with the place of the tag that closed the record, or the text's length where none did; of rows 0
    ManyRecords(usize),
    FewRows(usize),
    // rows or a QSO that are not as they must be
    BadRow,
    BadName,
    ShortOutput,
    FrequencyTooHigh,
    InexactFrequency,
    // of a contact list
    OtherVersion,
    MalformedList,
    IdsNotRising,
    // a lent index, fates or confirmations
    ShortTable,
}

// What a call that writes says: how many bytes it wrote, or would write, or why it does not.
pub fn number(r: Refusal) -> u32
    ensures { result ≡ number_of r }
{
    match r {
        Refusal::TooLong => 1,
        Refusal::NotUtf8(_) => 2,
        Refusal::UnterminatedTag(_) => 3,
        Refusal::MissingLength { .. } => 4,
        Refusal::BadLength { .. } => 5,
        Refusal::TruncatedValue { .. } => 6,
        Refusal::NonUtf8 { .. } => 7,
        Refusal::ManyNames(_) => 8,
        Refusal::ManyRecords(_) => 9,
        Refusal::FewRows(_) => 10,
        Refusal::BadRow => 11,
        Refusal::BadName => 12,
        Refusal::ShortOutput => 13,
        Refusal::FrequencyTooHigh => 14,
        Refusal::InexactFrequency => 15,
        Refusal::OtherVersion => 16,
        Refusal::MalformedList => 17,
        Refusal::IdsNotRising => 18,
        Refusal::ShortTable => 19,
    }
}

// The place in the text that comes with a refusal, or 0. Whether there is one goes by the number, 2 to 10: 0 is a place as well.
pub fn place(r: Refusal) -> usize
    ensures { result ≡ place_of r }
{
    match r {
        Refusal::NotUtf8(at)
        | Refusal::UnterminatedTag(at)
        | Refusal::MissingLength { at, .. }
        | Refusal::BadLength { at, .. }
        | Refusal::TruncatedValue { at, .. }
        | Refusal::NonUtf8 { at, .. }
        | Refusal::ManyNames(at)
        | Refusal::ManyRecords(at)
        | Refusal::FewRows(at) => at,
        _ => 0,
    }
}

// The place of the name that comes with a refusal, or 0; its length, or 0.
pub fn name(r: Refusal) -> usize
    ensures { result ≡ name_of r }
{
    match r {
        Refusal::MissingLength { name, .. }
        | Refusal::BadLength { name, .. }
        | Refusal::TruncatedValue { name, .. }
        | Refusal::NonUtf8 { name, .. } => name,
        _ => 0,
    }
}

pub fn name_length(r: Refusal) -> usize
    ensures { result ≡ name_length_of r }
{
    match r {
        Refusal::MissingLength { length, .. }
        | Refusal::BadLength { length, .. }
        | Refusal::TruncatedValue { length, .. }
        | Refusal::NonUtf8 { length, .. } => length,
        _ => 0,
    }
}

// The length that a truncated value was to have, and what was left for it.
pub fn wanted(r: Refusal) -> u64
    ensures { result ≡ wanted_of r }
{
    match r {
        Refusal::TruncatedValue { wanted, .. } => wanted,
        _ => 0,
    }
}

pub fn left(r: Refusal) -> u64
    ensures { result ≡ left_of r }
{
    match r {
        Refusal::TruncatedValue { left, .. } => left,
        _ => 0,
    }
}

// The first bad byte of s, its place counted as though s stood after `before` bytes.
#[inline(always)]
#[tactic(auto, unfolding(crate::specs::Refusals::of_utf8))]
fn check_utf8(s: &[u8], before: usize) -> Result<(), Refusal>
    requires { before ≤ 16777216 }
    ensures { result ≡ of_utf8 s.now before }
{
    let good = text::utf8::valid_up_to(s);
    if good < s.len() {
        return Err(Refusal::NotUtf8(before + good));
    }
    Ok(())
}

#[tactic(auto, unfolding(crate::specs::Refusals::of_utf8, crate::specs::Refusals::of_text))]
pub fn check_text(s: &[u8]) -> Result<(), Refusal>
    ensures { result ≡ of_text s.now }
{
    if LONGEST < s.len() {
        return Err(Refusal::TooLong);
    }
    check_utf8(s, 0)
}

// Two texts, their places counted as though b stood after a.
#[tactic(auto, unfolding(crate::specs::Refusals::of_utf8, crate::specs::Refusals::of_texts))]
pub fn check_texts(a: &[u8], b: &[u8]) -> Result<(), Refusal>
    ensures { result ≡ of_texts a.now b.now }
{
    if LONGEST < a.len() || LONGEST < b.len() {
        return Err(Refusal::TooLong);
    }
    check_utf8(a, 0)?;
    check_utf8(b, a.len())
}

// What was measured, for an output of so many bytes.
#[tactic(auto, unfolding(crate::specs::Written::fitted))]
pub fn fit(measured: Result<usize, Refusal>, room: usize) -> Result<usize, Refusal>
    ensures { result ≡ fitted measured room }
{
    let n = measured?;
    if LONGEST < n {
        return Err(Refusal::TooLong);
    }
    if room < n {
        return Err(Refusal::ShortOutput);
    }
    Ok(n)
}
