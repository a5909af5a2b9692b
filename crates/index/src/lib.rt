// The record that the contact index keeps of a contact: where its texts stand in the list, its code and its moment. It is made and tested
// as fourteen plain numbers, and kept as a `Contact`.
#![tactic(auto)]

ghost use Rattle.std.specs.Prelude.{◌≡◌, ◌≤◌, ◌<◌, get_or};
ghost use Rattle.letters.specs.Capitals.{capitals};
ghost use Rattle.index.specs.Rows.{mix, mixed, code_of, low, high, has_moment, seconds_in, row_of, joined, row_by, row_at};
ghost use Rattle.index.specs.Contacts.{contact_of, numbers_of};

// A contact in a lent index. There is no gap between the numbers, so that each byte of a record is determined.
#[repr(C)]
#[derive(Clone, Copy)]
pub struct Contact {
    pub id: u64,
    pub seconds: u64,
    pub head: u32,
    pub next: u32,
    pub code: u32,
    pub services: u32,
    pub call: u32,
    pub date: u32,
    pub time: u32,
    pub band: u32,
    pub mode: u32,
    pub timed: u32,
}

// The multiplier of the code, and 2^32, which cuts numbers in halves.
const SPREAD: u64 = 2_654_435_761;

const HALF: u64 = 4_294_967_296;

fn stir(h: u32, b: u8) -> u32
    ensures { result ≡ mix h b }
{
    ((h as u64 * SPREAD + b as u64) % HALF) as u32
}

fn stir_in_capitals(h: u32, s: &[u8]) -> u32
    ensures { result ≡ mixed h (capitals s.now) }
{
    let mut x = h;
    for &b in s {
        x = stir(x, letters::raise(b));
    }
    x
}

// The number that contacts of one key share. Capitals throughout: a mode that stands in capitals is read as it is.
pub fn code_of(call: &[u8], mode: &[u8], band: &[u8]) -> u32
    ensures { result ≡ code_of call.now mode.now band.now }
{
    stir_in_capitals(stir_in_capitals(stir_in_capitals(0, call), mode), band)
}

pub fn low_half(n: u64) -> u32
    ensures { result ≡ low n }
{
    (n % HALF) as u32
}

pub fn high_half(n: u64) -> u32
    ensures { result ≡ high n }
{
    (n / HALF) as u32
}

pub fn has_moment(m: Option<u64>) -> u32
    ensures { result ≡ has_moment m }
{
    m.is_some() as u32
}

pub fn seconds_in(m: Option<u64>) -> u64
    ensures { result ≡ seconds_in m }
{
    m.unwrap_or(0)
}

fn row_of(
    code: u32,
    id: u64,
    services: u8,
    call: u32,
    date: u32,
    time: u32,
    band: u32,
    mode: u32,
    moment: Option<u64>,
) -> [u32; 14]
    ensures { result ≡ row_of code id services call date time band mode moment }
{
    let seconds = seconds_in(moment);
    [
        0,
        0,
        code,
        low_half(id),
        high_half(id),
        services as u32,
        call,
        date,
        time,
        band,
        mode,
        has_moment(moment),
        low_half(seconds),
        high_half(seconds),
    ]
}

fn row_by(
    list: &[u8],
    id: u64,
    services: u8,
    call: usize,
    date: usize,
    time: usize,
    band: usize,
    mode: usize,
) -> [u32; 14]
    requires { (call < 4294967296) × (date < 4294967296) × (time < 4294967296) × (band < 4294967296) × (mode < 4294967296) }
    ensures { result ≡ row_by list.now id services call date time band mode }
{
    let code = code_of(
        contacts::text_at(list, call),
        contacts::text_at(list, mode),
        contacts::text_at(list, band),
    );
    let moment = times::moment_of(contacts::text_at(list, date), contacts::text_at(list, time));
    row_of(
        code,
        id,
        services,
        call as u32,
        date as u32,
        time as u32,
        band as u32,
        mode as u32,
        moment,
    )
}

pub fn row_at(list: &[u8], at: usize) -> [u32; 14]
    requires { at ≤ 16777216 }
    ensures { result ≡ row_at list.now at }
{
    let call = at + 11;
    let date = contacts::after_text(list, call);
    let time = contacts::after_text(list, date);
    let band = contacts::after_text(list, time);
    let mode = contacts::after_text(list, band);
    let id = contacts::id_at(list, at);
    let services = text::byte(list, at + 10);
    row_by(list, id, services, call, date, time, band, mode)
}

// The number in a column of a record.
pub fn number_in(r: [u32; 14], column: usize) -> usize
    requires { column < 14 }
    ensures { result ≡ get_or r column 0 }
{
    r[column] as usize
}

fn joined_halves(low: u32, high: u32) -> u64
    ensures { result ≡ joined low high }
{
    low as u64 + high as u64 * HALF
}

// The fourteen numbers as a contact.
pub fn contact_of(r: [u32; 14]) -> Contact
    ensures { result ≡ contact_of r }
{
    Contact {
        id: joined_halves(r[3], r[4]),
        seconds: joined_halves(r[12], r[13]),
        head: r[0],
        next: r[1],
        code: r[2],
        services: r[5],
        call: r[6],
        date: r[7],
        time: r[8],
        band: r[9],
        mode: r[10],
        timed: r[11],
    }
}

// A contact as the fourteen numbers.
pub fn numbers_of(c: Contact) -> [u32; 14]
    ensures { result ≡ numbers_of c }
{
    let id = c.id;
    let seconds = c.seconds;
    [
        c.head,
        c.next,
        c.code,
        low_half(id),
        high_half(id),
        c.services,
        c.call,
        c.date,
        c.time,
        c.band,
        c.mode,
        c.timed,
        low_half(seconds),
        high_half(seconds),
    ]
}
