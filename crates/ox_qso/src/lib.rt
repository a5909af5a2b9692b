// A QSO written as a record of ADIF text. The call writes at the front of the output and touches no byte past what it reports, and none at
// all where it refuses.
#![tactic(auto)]

ghost use Rattle.std.specs.Prelude.{◌≡◌, length};
ghost use Rattle.qsowriter.specs.Writing.{written_to, output_after};
ghost use Rattle.ox_qso.specs.Answers.{of_written};

use model::Qso;
use refusals::{Refusal, number};

// How many bytes were written, or the number of the refusal and none; and the QSO, unchanged.
#[repr(C)]
#[derive(Clone, Copy)]
pub struct QsoWritten {
    pub refusal: u32,
    pub length: usize,
    pub qso: Qso,
}

fn answer_of(written: Result<usize, Refusal>, qso: Qso) -> QsoWritten
    ensures { result ≡ of_written written qso }
{
    match written {
        Ok(n) => QsoWritten {
            refusal: 0,
            length: n,
            qso,
        },
        Err(why) => QsoWritten {
            refusal: number(why),
            length: 0,
            qso,
        },
    }
}

// As rigflow's `qso_to_record` and `write_record`: the QSO, and as its extra fields the first `count` rows of the table, five numbers a
// row, whose record numbers are not read.
#[unsafe(no_mangle)]
pub extern "C" fn ox_write_qso(
    text: &[u8],
    qso: Qso,
    table: &[u32],
    count: usize,
    out: &mut [u8],
) -> QsoWritten
    ensures value { result ≡ of_written (written_to text.now qso table.now count (length out.old)) qso }
    ensures out_after { out.new ≡ output_after text.now qso table.now count out.old }
{
    let answer = qsowriter::write_qso(text, qso, table, count, out);
    answer_of(answer.written, answer.qso)
}
