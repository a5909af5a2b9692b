// Rows written and read back: what the writer and the reader promise, put together.
#![tactic(auto)]

ghost use Rattle.std.specs.Prelude.{◌≡◌};
ghost use Rattle.writer.specs.Answer.{output_of};
ghost use Rattle.roundtrip.specs.Trip.{trip_of, table_of, SaysSame};

use reader::Reading;
use refusals::Refusal;

// The first `count` rows are written to the output, and what was written is read into the table: it says the same records.
pub fn write_and_read(
    text: &[u8],
    rows: &[u32],
    count: usize,
    out: &mut [u8],
    table: &mut [u32],
) -> Result<Result<Reading, Refusal>, Refusal>
    ensures value { result ≡ trip_of text.now rows.now count out.old table.old }
    ensures out_after { out.new ≡ output_of text.now rows.now count out.old }
    ensures table_after { table.new ≡ table_of text.now rows.now count out.old table.old }
    ensures says_same { SaysSame text.now rows.now count out.old out.new table.old table.new }
{
    let n = writer::write(text, rows, count, out)?;
    Ok(reader::read(&out[..n], table))
}
