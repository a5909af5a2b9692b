// A plan of what a file would do to a log, in lent tables, and its summary. What is not said with an answer is 0.
#![tactic(auto)]

ghost use Rattle.std.specs.Prelude.{◌≡◌, length};
ghost use Rattle.summary.specs.Summary.{answer_to, output_after};
ghost use Rattle.index.specs.Contacts.{plain};
ghost use Rattle.planner.specs.Planning.{asked, planned_as, PlannedTo};
ghost use Rattle.ox_import.specs.Plans.{no_counts, unplanned_of, of_planned, counts_in, plan_answer, InRows, of_line};

use index::Contact;
use planner::Planned;
use refusals::Refusal;
use summary::Counts;

// Refusals as in the answer of a reading, with their places in the text, never in the list. Of a plan: the records and the rows they
// take, the confirmations to record, the list's mark, which the plan keeps, and what it counts.
#[repr(C)]
#[derive(Clone, Copy)]
pub struct PlanAnswer {
    pub refusal: u32,
    pub place: usize,
    pub name: usize,
    pub name_length: usize,
    pub wanted: u64,
    pub left: u64,
    pub records: usize,
    pub rows: usize,
    pub confirmations: usize,
    pub contacts: usize,
    pub largest: u64,
    pub counts: Counts,
}

// How many bytes the line has.
#[repr(C)]
#[derive(Clone, Copy)]
pub struct LineAnswer {
    pub refusal: u32,
    pub length: usize,
}

fn no_counts() -> Counts
    ensures { result ≡ no_counts }
{
    Counts {
        total: 0,
        importable: 0,
        confirmations: 0,
        already_confirmed: 0,
        duplicates: 0,
        unmatched: 0,
        unusable: 0,
    }
}

impl From<Refusal> for PlanAnswer {
    ghost from_gives = { λ why r. r ≡ unplanned_of why };

    #[tactic(auto, unfolding(crate::specs::Plans::unplanned_of))]
    fn from(why: Refusal) -> PlanAnswer {
        PlanAnswer {
            refusal: refusals::number(why),
            place: refusals::place(why),
            name: refusals::name(why),
            name_length: refusals::name_length(why),
            wanted: refusals::wanted(why),
            left: refusals::left(why),
            records: 0,
            rows: 0,
            confirmations: 0,
            contacts: 0,
            largest: 0,
            counts: no_counts(),
        }
    }
}

fn of_planned(planned: Result<Planned, Refusal>, fates: &[[u32; 28]]) -> PlanAnswer
    requires { InRows planned fates.now }
    ensures { result ≡ of_planned planned (counts_in planned fates.now) }
{
    match planned {
        Ok(p) => PlanAnswer {
            refusal: 0,
            place: 0,
            name: 0,
            name_length: 0,
            wanted: 0,
            left: 0,
            records: p.records,
            rows: p.rows,
            confirmations: p.confirmations,
            contacts: p.contacts,
            largest: p.largest,
            counts: plan::counts_of(
                fates,
                p.records,
                p.confirmations as u64,
                p.already,
                p.unmatched,
            ),
        },
        Err(why) => PlanAnswer::from(why),
    }
}

// As `plan`, or `plan_download`. Lent are a row for every five numbers of `table`, a record of the index for each contact, a row for each
// record, and one for each confirmation. After a refusal all are zero throughout, and else past what is used.
#[unsafe(no_mangle)]
pub extern "C" fn ox_plan(
    text: &[u8],
    list: &[u8],
    window: i64,
    download: bool,
    table: &mut [u32],
    index: &mut [Contact],
    fates: &mut [[u32; 28]],
    confirmations: &mut [[u32; 5]],
) -> PlanAnswer
    ensures value { result ≡ plan_answer (asked text.now list.now window download table.old (plain index.old) fates.old confirmations.old) }
    ensures planned_to { PlannedTo (asked text.now list.now window download table.old (plain index.old) fates.old confirmations.old) (planned_as (asked text.now list.now window download table.old (plain index.old) fates.old confirmations.old)) table.new (plain index.new) fates.new confirmations.new }
{
    let planned = planner::plan(
        text,
        list,
        window,
        download,
        table,
        index,
        fates,
        confirmations,
    );
    of_planned(planned, fates)
}

impl From<Result<usize, Refusal>> for LineAnswer {
    ghost from_gives = { λ line r. r ≡ of_line line };

    #[tactic(auto, unfolding(crate::specs::Plans::of_line))]
    fn from(line: Result<usize, Refusal>) -> LineAnswer {
        match line {
            Ok(n) => LineAnswer {
                refusal: 0,
                length: n,
            },
            Err(why) => LineAnswer {
                refusal: refusals::number(why),
                length: 0,
            },
        }
    }
}

// As `summary`: the one line at the front of the output, which a refusal leaves untouched.
#[unsafe(no_mangle)]
pub extern "C" fn ox_plan_summary(counts: Counts, out: &mut [u8]) -> LineAnswer
    ensures value { result ≡ of_line (answer_to counts out.old) }
    ensures out_after { out.new ≡ output_after counts out.old }
{
    LineAnswer::from(summary::write_summary(counts, out))
}
