// Whether a record can be made into a contact, and why not. After `check` of `import.rs`.
#![tactic(auto)]

ghost use Rattle.std.specs.Prelude.{◌≡◌};
ghost use Rattle.text.specs.Space.{blank, trimmed};
ghost use Rattle.contacts.specs.Contacts.{is_date, is_time};
ghost use Rattle.usable.specs.Reasons.{reason_by};

// The reason of a record with this call, date and time, or 0: `blank_mode` where its mode is blank, `inexact` where the mapping refused a
// frequency.
// Kept: a number and no Result, since the plan's table holds it as one of its numbers, for C.
pub fn check(call: &[u8], date: &[u8], time: &[u8], blank_mode: bool, inexact: bool) -> u32
    ensures { result ≡ reason_by (blank call.now) (is_date (trimmed date.now)) (is_time (trimmed time.now)) blank_mode inexact }
{
    if text::space::is_blank(call) {
        return 1;
    }
    if !contacts::is_date(text::space::trim(date)) {
        return 2;
    }
    if !contacts::is_time(text::space::trim(time)) {
        return 3;
    }
    if blank_mode {
        return 4;
    }
    if inexact {
        return 5;
    }
    0
}
