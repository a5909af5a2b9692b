// The last phases of a plan, over records that were looked up in the log: their fates, then the confirmations; and what is left of the
// tables.
#![tactic(auto)]

ghost use Rattle.std.specs.Prelude.{◌≡◌, length, replicate};
ghost use Rattle.plan.specs.Cards.{no_card};
ghost use Rattle.closing.specs.Phases.{plan_read, Searched, Recorded};
ghost use Rattle.closing.specs.Closed.{Closed};

use cards::Counted;

// The two phases over the rows of n records.
fn settle_all(
    text: &[u8],
    list: &[u8],
    window: i64,
    download: bool,
    table: &[u32],
    fates: &mut [[u32; 28]],
    n: usize,
    cards: &mut [[u32; 5]],
) -> Option<Counted>
    requires { Searched text.now list.now table.now window n fates.old }
    ensures { Recorded (plan_read text.now list.now window download table.now) n fates.old cards.old result fates.new cards.new }
{
    fates::settle(text, window, download, fates, n);
    cards::confirm(text, table, list, fates, n, cards)
}

// And then of the rows fate and reason alone; nothing of any table where the confirmations found no room.
pub fn close(
    text: &[u8],
    list: &[u8],
    window: i64,
    download: bool,
    table: &mut [u32],
    fates: &mut [[u32; 28]],
    n: usize,
    cards: &mut [[u32; 5]],
) -> Option<Counted>
    requires { Searched text.now list.now table.old window n fates.old × (cards.old ≡ replicate (length cards.old) no_card) }
    ensures { Closed (plan_read text.now list.now window download table.old) table.old (length fates.old) (length cards.old) result table.new fates.new cards.new }
{
    let carded = settle_all(text, list, window, download, table, fates, n, cards);
    match carded {
        Some(counted) => {
            wiped::keep_fates(fates, n);
            Some(counted)
        }
        None => {
            reader::clear(table, 0);
            wiped::clear_fates(fates);
            wiped::clear_cards(cards);
            None
        }
    }
}
