// An ADIF text read into a lent table of 32-bit numbers, five a row. What is not said with an answer is 0.
#![tactic(auto)]

ghost use Rattle.std.specs.Prelude.{◌≡◌};
ghost use Rattle.reader.specs.Table.{table_after};
ghost use Rattle.ox_reader.specs.Readings.{unread_of, of_reading, read_answer};

use reader::Reading;
use refusals::Refusal;

// With 2 `place` is the first bad byte's, with 3 to 8 that of the tag's `<`, with 9 and 10 that of the tag which closed the record, or the
// text's length; a place may be 0. With 4 to 7 `name` and `name_length` are the place and the length of the tag's name, with 6
// `wanted` its length's number and `left` the bytes that were there. Of a text that is read, its records and the rows they take.
#[repr(C)]
#[derive(Clone, Copy)]
pub struct ReadAnswer {
    pub refusal: u32,
    pub place: usize,
    pub name: usize,
    pub name_length: usize,
    pub wanted: u64,
    pub left: u64,
    pub records: usize,
    pub rows: usize,
}

impl From<Refusal> for ReadAnswer {
    ghost from_gives = { λ why r. r ≡ unread_of why };

    #[tactic(auto, unfolding(crate::specs::Readings::unread_of))]
    fn from(why: Refusal) -> ReadAnswer {
        ReadAnswer {
            refusal: refusals::number(why),
            place: refusals::place(why),
            name: refusals::name(why),
            name_length: refusals::name_length(why),
            wanted: refusals::wanted(why),
            left: refusals::left(why),
            records: 0,
            rows: 0,
        }
    }
}

impl From<Result<Reading, Refusal>> for ReadAnswer {
    ghost from_gives = { λ reading r. r ≡ of_reading reading };

    #[tactic(auto, unfolding(crate::specs::Readings::of_reading))]
    fn from(reading: Result<Reading, Refusal>) -> ReadAnswer {
        match reading {
            Ok(Reading { records, rows }) => ReadAnswer {
                refusal: 0,
                place: 0,
                name: 0,
                name_length: 0,
                wanted: 0,
                left: 0,
                records,
                rows,
            },
            Err(why) => ReadAnswer::from(why),
        }
    }
}

// As `parse_adif`. After a refusal the table is zero throughout, and else past the rows.
#[tactic(auto, unfolding(crate::specs::Readings::read_answer))]
#[unsafe(no_mangle)]
pub extern "C" fn ox_read(text: &[u8], table: &mut [u32]) -> ReadAnswer
    ensures value { result ≡ read_answer text.now table.old }
    ensures table_after { table.new ≡ table_after text.now table.old }
{
    ReadAnswer::from(reader::read(text, table))
}
