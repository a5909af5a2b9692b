// Confirmations that counted before, found along chains of the records at which a service counted.
#![tactic(auto)]

ghost use Rattle.std.specs.Prelude.{◌≡◌, [], ◌%◌, ◌≤◌, ◌<◌, length, get_or};
ghost use Rattle.text.specs.Pick.{both};
ghost use Rattle.plan.specs.Confirmed.{has_bit};
ghost use Rattle.counted.specs.Counted.{keys_tested, rows_tested, code_in, seen, Marked, with_services, with_head, marked};

use entries::{key_in, number_in, with_number};
use plan::CONFIRMED;

// Bit s of the byte.
pub fn has_service(byte: u32, s: u32) -> bool
    ensures { result ≡ has_bit byte s }
{
    s != 0 && byte / s % 2 == 1
}

// The code, then the texts.
fn is_key(text: &[u8], r: [u32; 28], s: [u32; 28]) -> bool
    ensures { result ≡ keys_tested text.now r s }
{
    r[4] == s[4] && dedupe::same_unmatched(text, key_in(r), text, key_in(s))
}

fn is_alike(text: &[u8], r: [u32; 28], s: [u32; 28]) -> bool
    ensures { result ≡ rows_tested text.now r s }
{
    let fate = s[0];
    if r[0] != fate {
        return false;
    }
    if fate == CONFIRMED {
        return r[22] == s[22];
    }
    is_key(text, r, s)
}

// The service counted at the record, and it confirms what the other one does.
fn is_hit(text: &[u8], r: [u32; 28], k: [u32; 28], s: u32) -> bool
    ensures { result ≡ both (rows_tested text.now r k) (has_bit (get_or r 24 0) s) }
{
    has_service(r[24], s) && is_alike(text, r, k)
}

fn code_in(r: [u32; 28]) -> usize
    ensures { result ≡ code_in r }
{
    if r[0] == CONFIRMED {
        return number_in(r, 22);
    }
    number_in(r, 4)
}

// Whether service s counted at an earlier record that confirms what record k confirms.
pub fn is_seen(text: &[u8], rows: &[[u32; 28]], n: usize, k: usize, s: u32) -> bool
    requires { Marked text.now n k rows.now }
    ensures { result ≡ seen text.now rows.now k s }
{
    let b = code_in(rows[k]) % n;
    // Kept: a chain is followed, whose length is no number.
    let mut at = number_in(rows[b], 25);
    while at != 0 {
        let i = at - 1;
        if is_hit(text, rows[i], rows[k], s) {
            return true;
        }
        at = number_in(rows[i], 26);
    }
    false
}

fn with_services(r: [u32; 28], services: u32, next: u32) -> [u32; 28]
    ensures { result ≡ with_services r services next }
{
    with_number(with_number(r, 24, services), 26, next)
}

fn with_head(r: [u32; 28], v: u32) -> [u32; 28]
    ensures { result ≡ with_head r v }
{
    with_number(r, 25, v)
}

fn head_in(r: [u32; 28]) -> u32
    ensures { result ≡ get_or r 25 0 }
{
    r[25]
}

// These services count at record k, which goes to the front of its chain.
pub fn mark(rows: &mut [[u32; 28]], n: usize, k: usize, services: u32)
    requires { (n ≤ length rows.old) × (k < n) × (n < 4294967296) }
    ensures { rows.new ≡ marked rows.old (code_in (get_or rows.old k []) % n) k services }
{
    let b = code_in(rows[k]) % n;
    let was = head_in(rows[b]);
    rows[k] = with_services(rows[k], services, was);
    rows[b] = with_head(rows[b], (k + 1) as u32);
}
