// Rows of a text written as ADIF, the headers, and a station's fields. Each call writes at the front of the output and touches no byte
// past what it reports, and none at all where it refuses.
#![tactic(auto)]

ghost use Rattle.std.specs.Prelude.{◌≡◌, length};
ghost use Rattle.writer.specs.Answer.{answer_of, output_of};
ghost use Rattle.refusals.specs.Written.{output_by};
ghost use Rattle.headers.specs.Headers.{journal_header, export_header};
ghost use Rattle.station.specs.Station.{station_text};
ghost use Rattle.station.specs.Answer.{station_answer};
ghost use Rattle.ox_text.specs.Writing.{of_written};
ghost use Rattle.ox_writer.specs.Writing.{journal_answer, export_answer};

use ox_text::Written;

// As rigflow's `write_record`, record after record: the first `count` rows of the table, five numbers a row.
#[unsafe(no_mangle)]
pub extern "C" fn ox_write(text: &[u8], table: &[u32], count: usize, out: &mut [u8]) -> Written
    ensures value { result ≡ of_written (answer_of text.now table.now count (length out.old)) }
    ensures out_after { out.new ≡ output_of text.now table.now count out.old }
{
    Written::from(writer::write(text, table, count, out))
}

// As rigflow's `adif_header`.
#[tactic(auto, unfolding(crate::specs::Writing::journal_answer))]
#[unsafe(no_mangle)]
pub extern "C" fn ox_journal_header(out: &mut [u8]) -> Written
    ensures value { result ≡ of_written (journal_answer (length out.old)) }
    ensures out_after { out.new ≡ output_by (journal_answer (length out.old)) out.old journal_header }
{
    Written::from(headers::write_journal_header(out))
}

// As rigflow's `export_header`.
#[tactic(auto, unfolding(crate::specs::Writing::export_answer))]
#[unsafe(no_mangle)]
pub extern "C" fn ox_export_header(
    version: &[u8],
    program: &[u8],
    created: &[u8],
    out: &mut [u8],
) -> Written
    ensures value { result ≡ of_written (export_answer version.now program.now created.now (length out.old)) }
    ensures out_after { out.new ≡ output_by (export_answer version.now program.now created.now (length out.old)) out.old (export_header version.now program.now created.now) }
{
    Written::from(headers::write_export_header(version, program, created, out))
}

// As rigflow's `Station::my_adif_fields`, in field form; an absent text is an empty one.
#[unsafe(no_mangle)]
pub extern "C" fn ox_station_fields(
    call: &[u8],
    grid: &[u8],
    name: &[u8],
    state: &[u8],
    county: &[u8],
    cq: &[u8],
    itu: &[u8],
    out: &mut [u8],
) -> Written
    ensures value { result ≡ of_written (station_answer call.now grid.now name.now state.now county.now cq.now itu.now (length out.old)) }
    ensures out_after { out.new ≡ output_by (station_answer call.now grid.now name.now state.now county.now cq.now itu.now (length out.old)) out.old (station_text call.now grid.now name.now state.now county.now cq.now itu.now) }
{
    Written::from(station::write_station(call, grid, name, state, county, cq, itu, out))
}
