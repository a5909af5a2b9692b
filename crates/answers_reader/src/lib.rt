// What the library answers to the vectors on reading, in their own notation: the eight numbers of the answer, then the table's.
#![tactic(auto)]

ghost use Rattle.std.specs.Prelude.{◌≤◌, length, IfSome};

use notation::put_numbers;
use reader::Reading;
use refusals::Refusal;

// The refusal or 0, its place, the place and length of the name, what was wanted, what was left, the records and the rows.
fn numbers(reading: Result<Reading, Refusal>) -> [u64; 8] {
    match reading {
        Ok(Reading { records, rows }) => [0, 0, 0, 0, 0, 0, records as u64, rows as u64],
        Err(why) => [
            refusals::number(why) as u64,
            refusals::place(why) as u64,
            refusals::name(why) as u64,
            refusals::name_length(why) as u64,
            refusals::wanted(why),
            refusals::left(why),
            0,
            0,
        ],
    }
}

// Read with a table of so many numbers.
fn put_read(text: &[u8], size: u64, out: &mut [u8]) -> Option<usize>
    ensures { IfSome result (λ n. n ≤ length out.new) }
{
    if 20 < size {
        return None;
    }
    let mut lent = [9u32; 20];
    let table = &mut lent[..size as usize];
    let at = put_numbers(out, 0, &numbers(reader::read(text, table)))?;
    put_numbers(out, at, table)
}

// The answer to the line, put at the front of out; nothing where its operation is unknown.
pub fn answer(op: &[u8], line: &[u8], a: &mut [u8], out: &mut [u8]) -> Option<usize>
    ensures { IfSome result (λ n. n ≤ length out.new) }
{
    match op {
        b"read" => {
            let size = notation::number_at(line, notation::after_text(line, 0));
            put_read(notation::text_in(line, 0, a), size, out)
        }
        _ => None,
    }
}
