// Duplicates inside a file. The importable records of a plan's rows stand in chains, one for each remainder of their codes, so that a
// record is compared with those of its own chain only.
#![tactic(auto)]

ghost use Rattle.std.specs.Prelude.{◌≡◌, ◌+◌, ◌<◌, length, get_or, eqb};
ghost use Rattle.text.specs.Pick.{both};
ghost use Rattle.entries.specs.Row.{moment_in};
ghost use Rattle.infile.specs.Infile.{alike, repeated_in, Chained, with_head, with_next, pushed};

use entries::{key_in, number_in, with_number};

pub fn moment_in(row: [u32; 28]) -> Option<u64>
    ensures { result ≡ moment_in row }
{
    search::moment_from(row[17], row[18], row[19])
}

// The codes, then the times, then the texts.
fn is_alike(text: &[u8], earlier: [u32; 28], row: [u32; 28], limit: u64) -> bool
    ensures { result ≡ both (eqb (get_or earlier 4 0) (get_or row 4 0)) (alike text.now limit earlier row) }
{
    if earlier[4] != row[4] {
        return false;
    }
    search::is_near(moment_in(earlier), moment_in(row), limit)
        && dedupe::in_file(text, key_in(earlier), text, key_in(row))
}

// Record k of n repeats an earlier importable one.
pub fn is_repeated(text: &[u8], rows: &[[u32; 28]], n: usize, k: usize, limit: u64) -> bool
    requires { Chained text.now n k rows.now × (k < n) }
    ensures { result ≡ repeated_in text.now limit rows.now k }
{
    let b = number_in(rows[k], 4) % n;
    // Kept: a chain is followed, whose length is no number.
    let mut at = number_in(rows[b], 2);
    while at != 0 {
        let i = at - 1;
        if is_alike(text, rows[i], rows[k], limit) {
            return true;
        }
        at = number_in(rows[i], 3);
    }
    false
}

fn head_in(row: [u32; 28]) -> u32
    ensures { result ≡ get_or row 2 0 }
{
    row[2]
}

fn with_head(r: [u32; 28], v: u32) -> [u32; 28]
    ensures { result ≡ with_head r v }
{
    with_number(r, 2, v)
}

fn with_next(r: [u32; 28], v: u32) -> [u32; 28]
    ensures { result ≡ with_next r v }
{
    with_number(r, 3, v)
}

// Record k goes to the front of chain b.
pub fn push(rows: &mut [[u32; 28]], b: usize, k: usize)
    requires { (b < length rows.old) × (k < length rows.old) × (k < 4294967295) }
    ensures { rows.new ≡ pushed rows.old b k }
{
    let was = head_in(rows[b]);
    rows[k] = with_next(rows[k], was);
    rows[b] = with_head(rows[b], (k + 1) as u32);
}
