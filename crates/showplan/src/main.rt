// What importing the ADIF text on standard input would do to an empty log, at a window of 1800 seconds.
#![tactic(auto)]

ghost use Rattle.std.specs.Prelude.{◌≡◌, ◌≤◌, length};
ghost use Rattle.output.specs.Put.{Put};
ghost use Rattle.index.specs.Contacts.{no_contact};
ghost use Rattle.showplan.specs.Printed.{records_in, shown_text, PlannedIn, printed};

use index::Contact;
use planner::Planned;
use refusals::Refusal;
use std::io;
use std::io::{Read, Write};

// The longest text, in bytes.
const LONGEST: usize = 49_152;

// The plan line by line, or why there is none.
fn show_planned(plan: Result<Planned, Refusal>, fates: &[[u32; 28]], out: &mut [u8]) -> usize
    requires { (records_in plan ≤ length fates.now) × (length fates.now ≤ 3000) × (196608 ≤ length out.old) }
    ensures put { Put result out.old out.new 0 (shown_text fates.now plan) }
    ensures upper_bound { result ≤ 196608 }
{
    match plan {
        Ok(p) => show::write_plan(
            fates,
            p.records,
            p.confirmations as u64,
            p.already,
            p.unmatched,
            out,
        ),
        Err(why) => show::write_refusal(why, out),
    }
}

fn no_contact() -> Contact
    ensures { result ≡ no_contact }
{
    index::contact_of([0u32; 14])
}

// The plan against a list. The index has one record, which is more than enough for a list with no contact.
fn planned_in(
    text: &[u8],
    list: &[u8],
    window: i64,
    table: &mut [u32],
    fates: &mut [[u32; 28]],
    cards: &mut [[u32; 5]],
) -> Result<Planned, Refusal>
    ensures { PlannedIn text.now list.now window table.old fates.old cards.old result table.new fates.new cards.new }
{
    let mut index = [no_contact(); 1];
    planner::plan(text, list, window, false, table, &mut index, fates, cards)
}

// What is printed of a text, put at the front of the output.
fn shown(text: &[u8], out: &mut [u8]) -> usize
    requires { 196608 ≤ length out.old }
    ensures put { Put result out.old out.new 0 (printed text.now) }
    ensures upper_bound { result ≤ 196608 }
{
    if LONGEST < text.len() {
        return show::write_too_long(out);
    }
    let mut table = [0u32; 15000];
    let mut fates = [[0u32; 28]; 3000];
    let mut cards = [[0u32; 5]; 3000];
    let plan = planned_in(
        text,
        b"\x01\0\0\0\0",
        1800,
        &mut table,
        &mut fates,
        &mut cards,
    );
    show_planned(plan, &fates, out)
}

// Reads until the buffer is full, the input ends or a read fails, and says how many bytes it put at the front.
fn read_full<R: Read>(input: &mut R, buffer: &mut [u8]) -> usize
    ensures { result ≤ length buffer.new }
{
    let mut done = 0;
    while done < buffer.len() {
        match input.read(&mut buffer[done..]) {
            Ok(n) if 0 < n => done += n,
            _ => break,
        }
    }
    done
}

fn main(rt: HostRuntime) -> io::Result<()> {
    let mut buffer = [0u8; 65536];
    let size = read_full(&mut rt.stdin(), &mut buffer);
    let mut out = [0u8; 196608];
    let n = shown(&buffer[..size], &mut out);
    io::writer(&rt).write_all(&out[..n])
}
