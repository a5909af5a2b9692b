// What the library answers to the vectors on writing, in their own notation: OPERATION TEXT COUNT ROOM NUMBER.., and the refusal, how
// many bytes were written, and the whole output.
#![tactic(auto)]

ghost use Rattle.std.specs.Prelude.{◌≤◌, length, IfSome};

use refusals::Refusal;

// The numbers of the line from `from` on, up to its `=`, and how many they are.
fn numbers(line: &[u8], from: usize, table: &mut [u32]) -> usize
    ensures { result ≤ length table.new }
{
    let mut at = from;
    for (k, slot) in table.iter_mut().enumerate() {
        if text::byte(line, at) == b'=' {
            return k;
        }
        *slot = (notation::number_at(line, at) % 4294967296) as u32;
        at = notation::after(line, at, b' ');
    }
    table.len()
}

fn number(table: &[u32], i: usize) -> usize {
    table.get(i).map_or(0, |n| *n as usize)
}

// The part of the text whose place and length are the numbers i and i + 1.
fn piece<'a>(text: &'a [u8], table: &[u32], i: usize) -> &'a [u8]
    requires { i ≤ 12 }
{
    hand::part(text, number(table, i), number(table, i + 1))
}

// What the operation writes; nothing where it is unknown.
fn written(
    op: &[u8],
    text: &[u8],
    table: &[u32],
    count: usize,
    buffer: &mut [u8],
) -> Option<Result<usize, Refusal>> {
    match op {
        b"write" => Some(writer::write(text, table, count, buffer)),
        b"journal" => Some(headers::write_journal_header(buffer)),
        b"export" => Some(headers::write_export_header(
            piece(text, table, 0),
            piece(text, table, 2),
            piece(text, table, 4),
            buffer,
        )),
        b"station" => Some(station::write_station(
            piece(text, table, 0),
            piece(text, table, 2),
            piece(text, table, 4),
            piece(text, table, 6),
            piece(text, table, 8),
            piece(text, table, 10),
            piece(text, table, 12),
            buffer,
        )),
        _ => None,
    }
}

fn put_answer(out: &mut [u8], w: Result<usize, Refusal>, buffer: &[u8]) -> Option<usize>
    ensures { IfSome result (λ n. n ≤ length out.new) }
{
    let numbers = match w {
        Ok(n) => [0, n as u64],
        Err(why) => [refusals::number(why) as u64, 0],
    };
    let at = notation::put_numbers(out, 0, &numbers)?;
    let next = notation::put_byte(out, at, b' ').unwrap_or(0);
    notation::put_bars(out, next, buffer)
}

// Into an output of `room` bytes, each a point.
fn answer_in(
    op: &[u8],
    text: &[u8],
    table: &[u32],
    count: usize,
    room: u64,
    out: &mut [u8],
) -> Option<usize>
    ensures { IfSome result (λ n. n ≤ length out.new) }
{
    if 200 < room {
        return None;
    }
    let mut points = [b'.'; 200];
    let buffer = &mut points[..room as usize];
    let w = written(op, text, table, count, buffer)?;
    put_answer(out, w, buffer)
}

// The answer to the line, put at the front of out; nothing where its operation is unknown.
pub fn answer(op: &[u8], line: &[u8], a: &mut [u8], out: &mut [u8]) -> Option<usize>
    ensures { IfSome result (λ n. n ≤ length out.new) }
{
    if !matches!(op, b"write" | b"journal" | b"export" | b"station") {
        return None;
    }
    let text = notation::text_in(line, 0, a);
    let at = notation::after_text(line, 0);
    let count = notation::number_at(line, at);
    let next = notation::after(line, at, b' ');
    let room = notation::number_at(line, next);
    let mut table = [0u32; 60];
    let k = numbers(line, notation::after(line, next, b' '), &mut table);
    answer_in(op, text, &table[..k], count as usize, room, out)
}
