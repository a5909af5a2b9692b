// The fate of each record of a plan, by what it says and what it found in the log. Records are settled in their order, since one that is
// importable makes a later one a duplicate.
#![tactic(auto)]

ghost use Rattle.std.specs.Prelude.{◌≡◌, false, List, ℕ, ◌<◌, length, get_or, ltb};
ghost use Rattle.plan.specs.Entry.{Entry};
ghost use Rattle.plan.specs.Fates.{fate_of};
ghost use Rattle.entries.specs.Filled.{Said, Bare};
ghost use Rattle.infile.specs.Infile.{Chained};
ghost use Rattle.fates.specs.Fated.{Found, Fated, Kept};
ghost use Rattle.fates.specs.Steps.{fate_in, with_fate, fated, Step};

use plan::{CONFIRMED, IGNORED, IMPORTABLE, IN_FILE, IN_LOG, UNMATCHED, UNUSABLE};

// The first fate that applies.
fn fate_of(reason: usize, bears: bool, matched: bool, download: bool, repeated: bool) -> u32
    ensures { result ≡ fate_of reason bears matched download repeated }
{
    if reason > 0 {
        return UNUSABLE;
    }
    if bears {
        if matched {
            return CONFIRMED;
        }
        return UNMATCHED;
    }
    if download {
        return IGNORED;
    }
    if matched {
        return IN_LOG;
    }
    if repeated {
        return IN_FILE;
    }
    IMPORTABLE
}

// The fate of a record that repeats none: importable exactly where it counts whether it does.
fn first_fate(row: [u32; 28], download: bool) -> u32
    ensures { result ≡ fate_of (get_or row 1 0) (ltb 0 (get_or row 23 0)) (ltb 0 (get_or row 22 0)) download false }
{
    fate_of(
        entries::number_in(row, 1),
        entries::number_in(row, 23) > 0,
        entries::number_in(row, 22) > 0,
        download,
        false,
    )
}

fn fate_in(text: &[u8], rows: &[[u32; 28]], n: usize, k: usize, limit: u64, download: bool) -> u32
    requires { Chained text.now n k rows.now × (k < n) }
    ensures { result ≡ fate_in text.now limit download rows.now k }
{
    let fate = first_fate(rows[k], download);
    if fate != IMPORTABLE {
        return fate;
    }
    if infile::is_repeated(text, rows, n, k, limit) {
        return IN_FILE;
    }
    IMPORTABLE
}

fn with_fate(r: [u32; 28], fate: u32) -> [u32; 28]
    ensures { result ≡ with_fate r fate }
{
    entries::with_number(r, 0, fate)
}

fn put_fate(rows: &mut [[u32; 28]], k: usize, fate: u32)
    requires { k < length rows.old }
    ensures { rows.new ≡ fated rows.old k fate }
{
    rows[k] = with_fate(rows[k], fate);
}

// Record k gets its fate, and an importable one goes into its chain.
fn settle_one(text: &[u8], limit: u64, download: bool, rows: &mut [[u32; 28]], n: usize, k: usize)
    requires { Chained text.now n k rows.old × (k < n) × (n < 4294967296) }
    ensures { Step text.now limit download n k rows.old rows.new }
{
    let fate = fate_in(text, rows, n, k, limit, download);
    put_fate(rows, k, fate);
    if fate == IMPORTABLE {
        let b = entries::number_in(rows[k], 4) % n;
        infile::push(rows, b, k);
    }
}

// The fates of n records that were looked up in the log. What stands in their chains afterwards is of no account.
pub fn settle(text: &[u8], window: i64, download: bool, rows: &mut [[u32; 28]], n: usize)
    requires { Bare n rows.old × (n < 4294967296) × ((es : List Entry) × Said text.now n es rows.old) }
    ensures fated { (es : List Entry) (hits : List ℕ) → Said text.now n es rows.old → Found n hits rows.old → Fated window download es hits n rows.new }
    ensures kept { Kept n rows.old rows.new }
{
    let limit = times::window::limit_of(window);
    for k in 0..n {
        settle_one(text, limit, download, rows, n, k);
    }
}
