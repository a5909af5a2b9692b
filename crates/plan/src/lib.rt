// What an import would do to a log. After `import.rs`. Here are the counts, which come from the fates alone.
#![tactic(auto)]

ghost use Rattle.std.specs.Prelude.{◌≡◌, ◌≤◌, length};
ghost use Rattle.plan.specs.Fates.{count, fates_in};
ghost use Rattle.plan.specs.Plan.{total_of, counts_with};

use summary::Counts;

// The fates, as a lent table has them.
pub const IMPORTABLE: u32 = 1;

pub const IN_LOG: u32 = 2;

pub const IN_FILE: u32 = 3;

pub const UNUSABLE: u32 = 4;

pub const CONFIRMED: u32 = 5;

pub const UNMATCHED: u32 = 6;

pub const IGNORED: u32 = 7;

// How many of the first n records have the fate.
pub fn count_fate(rows: &[[u32; 28]], n: usize, fate: u32) -> u64
    requires { n ≤ length rows.now }
    ensures value { result ≡ count fate (fates_in rows.now n) }
    ensures upper_bound { result ≤ n }
{
    let mut found = 0;
    for row in &rows[..n] {
        found += u64::from(row[0] == fate);
    }
    found
}

fn total_of(rows: &[[u32; 28]], n: usize) -> u64
    requires { (n ≤ length rows.now) × (n ≤ 65535) }
    ensures { result ≡ total_of (fates_in rows.now n) }
{
    let mut total = 0;
    for fate in IMPORTABLE..=IGNORED {
        total += count_fate(rows, n, fate);
    }
    total
}

// What the first n records of the table count, with the confirmations that they make.
pub fn counts_of(
    rows: &[[u32; 28]],
    n: usize,
    confirmations: u64,
    already: u64,
    unmatched: u64,
) -> Counts
    requires { (n ≤ length rows.now) × (n ≤ 65535) }
    ensures { result ≡ counts_with (fates_in rows.now n) confirmations already unmatched }
{
    let duplicates = count_fate(rows, n, IN_LOG) + count_fate(rows, n, IN_FILE);
    Counts {
        total: total_of(rows, n),
        importable: count_fate(rows, n, IMPORTABLE),
        confirmations,
        already_confirmed: already,
        duplicates,
        unmatched,
        unusable: count_fate(rows, n, UNUSABLE),
    }
}
