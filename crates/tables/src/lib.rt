// The tables of bands and of modes, with the look-up in them; and the places that stand for texts: a part of the text, or a
// name of one of the tables.
#![tactic(auto)]

ghost use Rattle.std.specs.Prelude.{◌≡◌, ◌≤◌, length, get_or, take, eqb};
ghost use Rattle.letters.specs.Same.{same_raised};
ghost use Rattle.tables.specs.Table.{Columns, Keyed, cut, first_from, key_of, named};
ghost use Rattle.tables.specs.Place.{no_name, name_at};

pub mod band_names;
pub mod mode_names;
pub mod places;

// Where the bytes of a text result stand. Kind 0: nowhere, the result is absent; 1: `len` bytes of the text from `start`, as
// they stand; 2: those bytes in capitals; 3: entry `start` of the bands; 4: entry `start` of the modes.
#[repr(C)]
#[derive(Clone, Copy)]
pub struct Place {
    pub kind: u32,
    pub start: u32,
    pub len: u32,
}

// The name of an entry, with 0 after it.
#[repr(C)]
#[derive(Clone, Copy)]
pub struct Name {
    pub bytes: [u8; 12],
    pub len: usize,
}

// Entries of a table, one after the other.
#[repr(C)]
#[derive(Clone, Copy)]
pub struct Span {
    pub first: u32,
    pub count: u32,
}

// A coarse family of modes.
#[derive(Clone, Copy)]
pub enum ModeClass {
    Phone,
    Cw,
    Digital,
    Image,
}

// The text is the first n bytes of the name, but for the case of letters.
fn is_cut(text: &[u8], name: [u8; 12], n: usize) -> bool
    requires { n ≤ 12 }
    ensures { result ≡ same_raised text.now (take n name) }
{
    letters::same_raised(text, &name[..n])
}

// The first entry whose name, the first lens[k] bytes of names[k], is the text but for the case of letters. The tables are
// lent, since an index into a constant lays the whole table on the stack.
pub fn named_in(names: &[[u8; 12]], lens: &[usize], text: &[u8]) -> Option<u32>
    requires { Columns names.now lens.now }
    ensures { result ≡ named text.now (cut names.now lens.now) }
{
    for (i, &name) in names.iter().enumerate() {
        if is_cut(text, name, lens[i]) {
            return Some(i as u32);
        }
    }
    None
}

fn no_name() -> Name
    ensures { result ≡ no_name }
{
    Name {
        bytes: [0; 12],
        len: 0,
    }
}

pub fn name_in(names: &[[u8; 12]], lens: &[usize], k: usize) -> Name
    requires { Columns names.now lens.now }
    ensures { result ≡ name_at names.now lens.now k }
{
    if k < names.len() {
        Name {
            bytes: names[k],
            len: lens[k],
        }
    } else {
        no_name()
    }
}

// The number at k, or 0 past the end.
pub fn number_at(numbers: &[u32], k: u32) -> u32
    ensures { result ≡ get_or numbers.now k 0 }
{
    numbers.get(k as usize).copied().unwrap_or(0)
}

// A text of up to seven bytes as a number, the case of letters aside; 0 for a longer one. With it stands what tells texts apart
// by their keys.
pub fn text_key(text: &[u8]) -> u64
    ensures { Keyed text.now result }
{
    if 7 < text.len() {
        return 0;
    }
    let mut k = 1;
    for &b in text {
        k = k * 256 + u64::from(letters::raise(b));
    }
    k
}

// The first entry with that key: a compare chain, where names of bytes would be laid on the stack.
pub fn first_key(keys: &[u64], k: u64) -> Option<u32>
    requires { length keys.now ≤ 255 }
    ensures { result ≡ first_from (eqb k) 0 keys.now }
{
    let i = keys.iter().position(|&x| k == x)?;
    Some(i as u32)
}
