// The tags of an ADIF text: what stands before `<` is comment, the inside runs to the next `>`, and its first two `:` split it into
// name, length and type. Nothing is copied: a tag tells places in the text.
#![tactic(auto)]

ghost use Rattle.std.specs.Prelude.{◌≡◌, ◌+◌, ◌-◌, ◌≤◌, ◌<◌, length, take, drop, eqb};
ghost use Rattle.text.specs.Pick.{pick};
ghost use Rattle.tags.specs.Tags.{kind_of, length_after, value_of, tag_of, tag_at};

use refusals::Refusal;

// What a name makes of its tag.
#[derive(Clone, Copy)]
pub enum Kind {
    EndOfHeader,
    EndOfRecord,
    EndOfFile,
    FieldName,
}

// EOH and EOR with the place after the tag; a field with its name and value, after which the text goes on. `at` is the place of the
// tag's `<`.
#[derive(Clone, Copy)]
pub enum Tag {
    End,
    Eoh(usize),
    Eor {
        at: usize,
        next: usize,
    },
    Eof,
    Field {
        at: usize,
        name: usize,
        name_length: usize,
        value: usize,
        value_length: usize,
    },
}

pub fn kind_of(name: &[u8]) -> Kind
    ensures { result ≡ kind_of name.now }
{
    if letters::same_raised(name, b"EOH") {
        return Kind::EndOfHeader;
    }
    if letters::same_raised(name, b"EOR") {
        return Kind::EndOfRecord;
    }
    if letters::same_raised(name, b"APP_LOTW_EOF") {
        return Kind::EndOfFile;
    }
    Kind::FieldName
}

// The length after the colon at c of a tag's inside.
fn length_after(t: &[u8], c: usize) -> Option<u64>
    requires { c < length t.now }
    ensures { result ≡ length_after t.now c }
{
    let a = c + 1;
    let e = text::find(t, a, b':');
    decimal::parse_unsigned(text::space::trim(&t[a..e]))
}

// The field whose tag is opened at `at`, whose name is the `size` bytes at `name`, and whose value starts at `next`.
fn value_of(
    s: &[u8],
    at: usize,
    name: usize,
    size: usize,
    next: usize,
    number: Option<u64>,
) -> Result<Tag, Refusal>
    requires { next ≤ length s.now }
    ensures { result ≡ value_of s.now at name size next number }
{
    let Some(wanted) = number else {
        return Err(Refusal::BadLength {
            at,
            name,
            length: size,
        });
    };
    let left = (s.len() - next) as u64;
    if left < wanted {
        return Err(Refusal::TruncatedValue {
            at,
            name,
            length: size,
            wanted,
            left,
        });
    }
    let value_length = wanted as usize;
    if text::inside(text::byte(s, next + value_length), 0x80, 0xBF) {
        return Err(Refusal::NonUtf8 {
            at,
            name,
            length: size,
        });
    }
    Ok(Tag::Field {
        at,
        name,
        name_length: size,
        value: next,
        value_length,
    })
}

// Where a name of n bytes stands: an empty one at place 0.
fn name_place(at: usize, n: usize) -> usize
    ensures { result ≡ pick (eqb n 0) 0 at }
{
    if n == 0 { 0 } else { at }
}

// The tag that is opened at `at` and closed at `gt`.
fn tag_of(s: &[u8], at: usize, gt: usize) -> Result<Tag, Refusal>
    requires { (at + 1 ≤ gt) × (gt < length s.now) }
    ensures { result ≡ tag_of s.now at (take (gt - (at + 1)) (drop (at + 1) s.now)) (gt + 1) }
{
    let next = gt + 1;
    let a = at + 1;
    let t = &s[a..gt];
    let c = text::find(t, 0, b':');
    let w = &t[..c];
    let i = text::space::trim_start(w);
    let rest = &w[i..];
    let n = text::space::trim_end(rest);
    let name = name_place(a + i, n);
    match kind_of(&rest[..n]) {
        Kind::EndOfHeader => Ok(Tag::Eoh(next)),
        Kind::EndOfRecord => Ok(Tag::Eor { at, next }),
        Kind::EndOfFile => Ok(Tag::Eof),
        Kind::FieldName => {
            if c < t.len() {
                value_of(s, at, name, n, next, length_after(t, c))
            } else {
                Err(Refusal::MissingLength {
                    at,
                    name,
                    length: n,
                })
            }
        }
    }
}

// The first tag from `at` on; past the end of the text, its end.
pub fn next_tag(s: &[u8], at: usize) -> Result<Tag, Refusal>
    ensures { result ≡ tag_at s.now at }
{
    if s.len() <= at {
        return Ok(Tag::End);
    }
    let lt = text::find(s, at, b'<');
    if s.len() <= lt {
        return Ok(Tag::End);
    }
    let a = lt + 1;
    let gt = text::find(s, a, b'>');
    if s.len() <= gt {
        return Err(Refusal::UnterminatedTag(lt));
    }
    tag_of(s, lt, gt)
}
