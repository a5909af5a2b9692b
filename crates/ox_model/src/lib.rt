// A record's rows as a QSO over their text, and a QSO normalised. What is not said with an answer is 0.
#![tactic(auto)]

ghost use Rattle.std.specs.Prelude.{◌≡◌};
ghost use Rattle.ox_model.specs.Answers.{column_answer, refusal_of, answer_of, map_answer, map_normal_answer, normalize_answer};

use model::{Answer, Qso};
use refusals::Refusal;

// The QSO, and the number of the refusal, or 0. Refused with 15 a mapping gives the QSO with both frequencies absent, with another number
// an empty QSO; normalising gives a refused QSO back unchanged.
#[repr(C)]
#[derive(Clone, Copy)]
pub struct QsoAnswer {
    pub refusal: u32,
    pub qso: Qso,
}

// The number of the column that a field's name names; 13 for an extra field.
#[repr(C)]
#[derive(Clone, Copy)]
pub struct ColumnAnswer {
    pub refusal: u32,
    pub place: usize,
    pub column: u32,
}

// A name is a plain text: one that is too long or no UTF-8 is refused, and is no extra field.
#[unsafe(no_mangle)]
pub extern "C" fn ox_column(name: &[u8]) -> ColumnAnswer
    ensures { result ≡ column_answer name.now }
{
    match refusals::check_text(name) {
        Err(why) => ColumnAnswer {
            refusal: refusals::number(why),
            place: refusals::place(why),
            column: 0,
        },
        Ok(()) => ColumnAnswer {
            refusal: 0,
            place: 0,
            column: columns::column_of(name).unwrap_or(13),
        },
    }
}

fn refusal_of(verdict: Result<(), Refusal>) -> u32
    ensures { result ≡ refusal_of verdict }
{
    match verdict {
        Ok(()) => 0,
        Err(why) => refusals::number(why),
    }
}

fn answer_of(answer: Answer) -> QsoAnswer
    ensures { result ≡ answer_of answer }
{
    QsoAnswer {
        refusal: refusal_of(answer.verdict),
        qso: answer.qso,
    }
}

// As `record_to_qso`, of `count` rows from row `first` on.
#[unsafe(no_mangle)]
pub extern "C" fn ox_record_to_qso(
    text: &[u8],
    table: &[u32],
    first: usize,
    count: usize,
) -> QsoAnswer
    ensures { result ≡ map_answer text.now table.now first count }
{
    answer_of(mapping::record_to_qso(text, table, first, count))
}

// The same, normalised: what `parse_adif_to_qsos` makes of each record.
#[unsafe(no_mangle)]
pub extern "C" fn ox_record_to_normal_qso(
    text: &[u8],
    table: &[u32],
    first: usize,
    count: usize,
) -> QsoAnswer
    ensures { result ≡ map_normal_answer text.now table.now first count }
{
    answer_of(mapping::record_to_normal_qso(text, table, first, count))
}

// As `Qso::normalize`.
#[unsafe(no_mangle)]
pub extern "C" fn ox_normalize_qso(text: &[u8], qso: Qso) -> QsoAnswer
    ensures { result ≡ normalize_answer text.now qso }
{
    answer_of(model::normalized(text, qso))
}
