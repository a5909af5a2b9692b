// The one line that sums a plan up. After `ImportPlan::summary` of `import.rs`. It is measured first, and then written or refused.
#![tactic(auto)]

ghost use Rattle.std.specs.Prelude.{◌≡◌, ◌≤◌, length, eqb};
ghost use Rattle.text.specs.Pick.{pick};
ghost use Rattle.output.specs.Put.{Put, Room};
ghost use Rattle.summary.specs.Summary.{counted, further, part, found, confirmed, left_out, summary_text, answer_to, output_after};

use refusals::Refusal;

// What a plan counts.
#[repr(C)]
#[derive(Clone, Copy)]
pub struct Counts {
    pub total: u64,
    pub importable: u64,
    pub confirmations: u64,
    pub already_confirmed: u64,
    pub duplicates: u64,
    pub unmatched: u64,
    pub unusable: u64,
}

// What a number counts: in the singular for 1.
fn named<'a>(n: u64, one: &'a [u8], many: &'a [u8]) -> &'a [u8]
    ensures { result.now ≡ pick (eqb n 1) one.now many.now }
{
    if n == 1 { one } else { many }
}

fn put_counted(out: &mut [u8], at: usize, n: u64, one: &[u8], many: &[u8]) -> usize
    requires { Room out.old at (counted n one.now many.now) }
    ensures { Put result out.old out.new at (counted n one.now many.now) }
{
    let a = output::put_decimal(out, at, n);
    output::put_bytes(out, a, named(n, one, many))
}

fn counted_size(n: u64, one: &[u8], many: &[u8]) -> usize
    requires { (length one.now ≤ 32) × (length many.now ≤ 32) }
    ensures value { result ≡ length (counted n one.now many.now) }
    ensures upper_bound { result ≤ 52 }
{
    output::decimal_size(n) + named(n, one, many).len()
}

fn put_further(out: &mut [u8], at: usize, n: u64, one: &[u8], many: &[u8]) -> usize
    requires { Room out.old at (further n one.now many.now) }
    ensures { Put result out.old out.new at (further n one.now many.now) }
{
    let a = output::put_bytes(out, at, b" \xC2\xB7 ");
    put_counted(out, a, n, one, many)
}

fn put_part(out: &mut [u8], at: usize, n: u64, one: &[u8], many: &[u8]) -> usize
    requires { Room out.old at (part n one.now many.now) }
    ensures { Put result out.old out.new at (part n one.now many.now) }
{
    if n == 0 {
        return at;
    }
    put_further(out, at, n, one, many)
}

fn part_size(n: u64, one: &[u8], many: &[u8]) -> usize
    requires { (length one.now ≤ 32) × (length many.now ≤ 32) }
    ensures value { result ≡ length (part n one.now many.now) }
    ensures upper_bound { result ≤ 56 }
{
    if n == 0 {
        return 0;
    }
    counted_size(n, one, many) + 4
}

fn put_found(out: &mut [u8], total: u64, importable: u64) -> usize
    requires { Room out.old 0 (found total importable) }
    ensures { Put result out.old out.new 0 (found total importable) }
{
    let a = put_counted(out, 0, total, b" record", b" records");
    put_further(out, a, importable, b" to import", b" to import")
}

fn found_size(total: u64, importable: u64) -> usize
    ensures value { result ≡ length (found total importable) }
    ensures upper_bound { result ≤ 108 }
{
    counted_size(total, b" record", b" records")
        + counted_size(importable, b" to import", b" to import")
        + 4
}

fn put_confirmed(out: &mut [u8], at: usize, confirmations: u64, already: u64) -> usize
    requires { Room out.old at (confirmed confirmations already) }
    ensures { Put result out.old out.new at (confirmed confirmations already) }
{
    let a = put_part(out, at, confirmations, b" confirmation", b" confirmations");
    put_part(
        out,
        a,
        already,
        b" already confirmed",
        b" already confirmed",
    )
}

fn confirmed_size(confirmations: u64, already: u64) -> usize
    ensures value { result ≡ length (confirmed confirmations already) }
    ensures upper_bound { result ≤ 112 }
{
    part_size(confirmations, b" confirmation", b" confirmations")
        + part_size(already, b" already confirmed", b" already confirmed")
}

fn put_left_out(out: &mut [u8], at: usize, duplicates: u64, unmatched: u64, unusable: u64) -> usize
    requires { Room out.old at (left_out duplicates unmatched unusable) }
    ensures { Put result out.old out.new at (left_out duplicates unmatched unusable) }
{
    let a = put_part(
        out,
        at,
        duplicates,
        b" duplicate (skipped)",
        b" duplicates (skipped)",
    );
    let b = put_part(
        out,
        a,
        unmatched,
        b" confirmation unmatched",
        b" confirmations unmatched",
    );
    put_part(out, b, unusable, b" unusable", b" unusable")
}

fn left_out_size(duplicates: u64, unmatched: u64, unusable: u64) -> usize
    ensures value { result ≡ length (left_out duplicates unmatched unusable) }
    ensures upper_bound { result ≤ 168 }
{
    let skipped = part_size(
        duplicates,
        b" duplicate (skipped)",
        b" duplicates (skipped)",
    );
    let strange = part_size(
        unmatched,
        b" confirmation unmatched",
        b" confirmations unmatched",
    );
    skipped + strange + part_size(unusable, b" unusable", b" unusable")
}

fn put_summary(out: &mut [u8], c: Counts) -> usize
    requires { Room out.old 0 (summary_text c) }
    ensures { Put result out.old out.new 0 (summary_text c) }
{
    let a = put_found(out, c.total, c.importable);
    let b = put_confirmed(out, a, c.confirmations, c.already_confirmed);
    put_left_out(out, b, c.duplicates, c.unmatched, c.unusable)
}

fn summary_size(c: Counts) -> usize
    ensures { result ≡ length (summary_text c) }
{
    let head = found_size(c.total, c.importable);
    let middle = confirmed_size(c.confirmations, c.already_confirmed);
    head + middle + left_out_size(c.duplicates, c.unmatched, c.unusable)
}

// At the front of the output.
pub fn write_summary(c: Counts, out: &mut [u8]) -> Result<usize, Refusal>
    ensures value { result ≡ answer_to c out.old }
    ensures out_after { out.new ≡ output_after c out.old }
{
    if out.len() < summary_size(c) {
        return Err(Refusal::ShortOutput);
    }
    Ok(put_summary(out, c))
}
