// What a plan leaves of its lent tables: of a record's row fate and reason alone; after a refusal nothing.
#![tactic(auto)]

ghost use Rattle.std.specs.Prelude.{◌≡◌, ◌≤◌, length, replicate};
ghost use Rattle.std.proofs.lemmas.List.Edits.{sets};
ghost use Rattle.entries.specs.Row.{no_row};
ghost use Rattle.plan.specs.Cards.{no_card};
ghost use Rattle.wiped.specs.Kept.{kept_row, kept_rows};

pub fn clear_fates(rows: &mut [[u32; 28]])
    ensures { rows.new ≡ replicate (length rows.old) no_row }
{
    rows.fill([0u32; 28]);
}

pub fn clear_cards(cards: &mut [[u32; 5]])
    ensures { cards.new ≡ replicate (length cards.old) no_card }
{
    cards.fill([0u32; 5]);
}

fn keep_row(row: &mut [u32; 28])
    ensures { row.new ≡ kept_row row.old }
{
    row[2..].fill(0);
}

// Of the first n rows fate and reason are kept, and the rest is zero.
pub fn keep_fates(rows: &mut [[u32; 28]], n: usize)
    requires { n ≤ length rows.old }
    ensures { rows.new ≡ sets rows.old 0 (kept_rows rows.old n) }
{
    for row in rows[..n].iter_mut() {
        keep_row(row);
    }
}
