// What `showplan` prints of a plan, put at the front of a lent output: a line a record, then the summary; or why there is no plan.
#![tactic(auto)]

ghost use Rattle.std.specs.Prelude.{◌≡◌, [], ◌∷◌, ◌++◌, ◌≤◌, ◌<◌, length, get_or};
ghost use Rattle.decimal.specs.Digits.{decimal};
ghost use Rattle.output.specs.Put.{Put, Room};
ghost use Rattle.summary.specs.Summary.{summary_text};
ghost use Rattle.show.specs.Shown.{fate_name, line_of, lines_of, plan_text, has_place, told_text, refused_text, too_long_text};

use refusals::Refusal;
use summary::Counts;

// A number and the byte after it.
fn put_number(out: &mut [u8], at: usize, n: u64, after: u8) -> usize
    requires { Room out.old at (decimal n ++ (after ∷ [])) }
    ensures { Put result out.old out.new at (decimal n ++ (after ∷ [])) }
{
    let a = output::put_decimal(out, at, n);
    output::put_byte(out, a, after)
}

#[tactic(auto, unfolding(crate::specs::Shown::fate_name))]
fn name(fate: u32) -> &'static [u8]
    ensures { result.now ≡ fate_name fate }
{
    match fate {
        1 => b"importable",
        2 => b"duplicate-in-log",
        3 => b"duplicate-in-file",
        4 => b"unusable",
        5 => b"confirmed",
        6 => b"unmatched",
        7 => b"ignored",
        _ => b"",
    }
}

fn put_named(out: &mut [u8], at: usize, fate: u32) -> usize
    requires { Room out.old at (fate_name fate ++ (32 ∷ [])) }
    ensures { Put result out.old out.new at (fate_name fate ++ (32 ∷ [])) }
{
    let a = output::put_bytes(out, at, name(fate));
    output::put_byte(out, a, b' ')
}

fn put_line(out: &mut [u8], at: usize, k: u64, fate: u32, reason: u32) -> usize
    requires { Room out.old at (line_of k fate reason) }
    ensures { Put result out.old out.new at (line_of k fate reason) }
{
    let a = put_number(out, at, k, b' ');
    let b = put_named(out, a, fate);
    put_number(out, b, reason as u64, b'\n')
}

// The line of record k, whose row has its fate and its reason in front.
fn put_row(out: &mut [u8], at: usize, k: u64, row: [u32; 28]) -> usize
    requires { Room out.old at (line_of k (get_or row 0 0) (get_or row 1 0)) }
    ensures { Put result out.old out.new at (line_of k (get_or row 0 0) (get_or row 1 0)) }
{
    put_line(out, at, k, row[0], row[1])
}

// A line for each of the first n records.
fn put_lines(out: &mut [u8], rows: &[[u32; 28]], n: usize) -> usize
    requires { (n ≤ length rows.now) × (n ≤ 3000) × (196608 ≤ length out.old) }
    ensures { Put result out.old out.new 0 (lines_of rows.now n) }
{
    let mut at = 0;
    for (i, row) in rows[..n].iter().enumerate() {
        at = put_row(out, at, (i + 1) as u64, *row);
    }
    at
}

fn put_summary(out: &mut [u8], at: usize, c: Counts) -> usize
    requires { Room out.old at (summary_text c) }
    ensures { Put result out.old out.new at (summary_text c) }
{
    let mut line = [0u8; 512];
    let n = summary::write_summary(c, &mut line).unwrap();
    output::put_bytes(out, at, &line[..n])
}

// The first n rows of the table line by line, and the line that sums them up.
pub fn write_plan(
    rows: &[[u32; 28]],
    n: usize,
    confirmations: u64,
    already: u64,
    unmatched: u64,
    out: &mut [u8],
) -> usize
    requires { (n ≤ length rows.now) × (n ≤ 3000) × (196608 ≤ length out.old) }
    ensures { Put result out.old out.new 0 (plan_text rows.now n confirmations already unmatched) }
{
    let a = put_lines(out, rows, n);
    let b = put_summary(
        out,
        a,
        plan::counts_of(rows, n, confirmations, already, unmatched),
    );
    output::put_byte(out, b, b'\n')
}

// Whether the refusal of this number tells a place of the text.
#[tactic(auto, unfolding(crate::specs::Shown::has_place))]
fn has_place(number: u64) -> bool
    ensures { result ≡ has_place number }
{
    matches!(number, 2..=10)
}

// The number of a refusal, and its place where it tells one.
fn put_told(out: &mut [u8], at: usize, number: u64, place: u64) -> usize
    requires { Room out.old at (told_text number place) }
    ensures { Put result out.old out.new at (told_text number place) }
{
    if has_place(number) {
        let a = put_number(out, at, number, b' ');
        return put_number(out, a, place, b'\n');
    }
    put_number(out, at, number, b'\n')
}

pub fn write_refusal(why: Refusal, out: &mut [u8]) -> usize
    requires { 196608 ≤ length out.old }
    ensures { Put result out.old out.new 0 (refused_text why) }
{
    let a = output::put_bytes(out, 0, b"refused ");
    put_told(
        out,
        a,
        refusals::number(why) as u64,
        refusals::place(why) as u64,
    )
}

pub fn write_too_long(out: &mut [u8]) -> usize
    requires { 196608 ≤ length out.old }
    ensures { Put result out.old out.new 0 too_long_text }
{
    output::put_bytes(out, 0, b"too long\n")
}
