// What each record of a plan finds in the log: the number of the contact, and the place of its entry in the list, from which its id and
// its services are read. This is the one phase of a plan that has the contact index.
#![tactic(auto)]

ghost use Rattle.std.specs.Prelude.{◌≡◌, ◌≤◌, ◌<◌, length};
ghost use Rattle.std.proofs.lemmas.List.Edits.{sets};
ghost use Rattle.index.specs.Contacts.{plain};
ghost use Rattle.logged.specs.Logged.{wanted_in, with_hit, logged_rows, Searchable};

use index::Contact;
use search::Hit;
use wanted::Wanted;

fn wanted_in(row: [u32; 28]) -> Wanted
    ensures { result ≡ wanted_in row }
{
    Wanted {
        key: entries::key_in(row),
        moment: infile::moment_in(row),
    }
}

fn with_hit(r: [u32; 28], hit: Hit) -> [u32; 28]
    requires { (hit.number < 4294967296) × (hit.place < 4294967296) }
    ensures { result ≡ with_hit r hit.number hit.place }
{
    entries::with_number(
        entries::with_number(r, 22, hit.number as u32),
        27,
        hit.place as u32,
    )
}

// The first n records are looked up in the log.
pub fn find_each(
    text: &[u8],
    list: &[u8],
    index: &[Contact],
    contacts: usize,
    limit: u64,
    rows: &mut [[u32; 28]],
    n: usize,
)
    requires { (n ≤ length rows.old) × Searchable list.now contacts (plain index.now) n }
    ensures { rows.new ≡ sets rows.old 0 (logged_rows text.now list.now limit rows.old n) }
{
    for row in rows[..n].iter_mut() {
        let hit = search::find(text, list, index, contacts, wanted_in(*row), limit);
        *row = with_hit(*row, hit);
    }
}
