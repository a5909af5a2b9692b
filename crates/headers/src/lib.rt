// What stands in front of records: the journal's header and the header of an export. Each is measured first, and then written or
// refused.
#![tactic(auto)]

ghost use Rattle.std.specs.Prelude.{◌≡◌, ◌++◌, ◌+◌, ◌≤◌, length, Ok};
ghost use Rattle.fields.specs.Written.{field_text, end_of_header};
ghost use Rattle.fields.specs.Parts.{field_as};
ghost use Rattle.output.specs.Put.{Put, Room};
ghost use Rattle.headers.specs.Headers.{journal_header, adif_version, program_id, program_version, created_timestamp, rigflow, export_header};
ghost use Rattle.headers.specs.Answer.{capped, capped_after, all_utf8, answer_of};
ghost use Rattle.refusals.specs.Written.{fitted, output_by};

use refusals::Refusal;

pub fn write_journal_header(out: &mut [u8]) -> Result<usize, Refusal>
    ensures value { result ≡ fitted (Ok (length journal_header)) (length out.old) }
    ensures out_after { out.new ≡ output_by result out.old journal_header }
{
    let header = b"<ADIF_VER:5>3.1.6 <PROGRAMID:7>rigflow <EOH>\n";
    refusals::fit(Ok(header.len()), out.len())?;
    Ok(output::put_bytes(out, 0, header))
}

// A size of at most 16,777,216, or one more.
#[tactic(auto, using(crate::proofs::SizeLaws::cap_small, crate::proofs::SizeLaws::cap_large))]
pub fn cap(n: usize) -> usize
    ensures value { result ≡ capped n }
    ensures upper_bound { result ≤ 16777217 }
{
    if n <= refusals::LONGEST {
        n
    } else {
        refusals::LONGEST + 1
    }
}

// The size with one more field.
pub fn with_field(size: usize, name: &[u8], value: &[u8]) -> usize
    requires { (size ≤ 16777217) × (length name.now ≤ 32) }
    ensures value { result ≡ capped_after size (field_text (field_as name.now value.now)) }
    ensures upper_bound { result ≤ 16777217 }
{
    if refusals::LONGEST < value.len() {
        return refusals::LONGEST + 1;
    }
    cap(size + fields::field_size(name, value))
}

#[tactic(auto, unfolding(crate::specs::Answer::all_utf8))]
pub fn are_utf8(a: &[u8], b: &[u8], c: &[u8]) -> bool
    ensures { result ≡ all_utf8 a.now b.now c.now }
{
    text::utf8::is_utf8(a) && text::utf8::is_utf8(b) && text::utf8::is_utf8(c)
}

// The size of an export's header.
fn export_size(version: &[u8], program: &[u8], created: &[u8]) -> usize
    ensures { result ≡ capped (length (export_header version.now program.now created.now)) }
{
    let a = with_field(6, b"ADIF_VER", version);
    let b = with_field(a, b"PROGRAMID", b"rigflow");
    let c = with_field(b, b"PROGRAMVERSION", program);
    with_field(c, b"CREATED_TIMESTAMP", created)
}

fn put_versions(out: &mut [u8], version: &[u8], program: &[u8]) -> usize
    requires { Room out.old 0 (field_text (field_as adif_version version.now) ++ (field_text (field_as program_id rigflow) ++ field_text (field_as program_version program.now))) }
    ensures { Put result out.old out.new 0 (field_text (field_as adif_version version.now) ++ (field_text (field_as program_id rigflow) ++ field_text (field_as program_version program.now))) }
{
    let a = fields::put_field(out, 0, b"ADIF_VER", version);
    let b = fields::put_field(out, a, b"PROGRAMID", b"rigflow");
    fields::put_field(out, b, b"PROGRAMVERSION", program)
}

fn put_created(out: &mut [u8], at: usize, created: &[u8]) -> usize
    requires { Room out.old at (field_text (field_as created_timestamp created.now) ++ end_of_header) }
    ensures { Put result out.old out.new at (field_text (field_as created_timestamp created.now) ++ end_of_header) }
{
    let a = fields::put_field(out, at, b"CREATED_TIMESTAMP", created);
    output::put_bytes(out, a, b"<EOH>\n")
}

fn put_export(out: &mut [u8], version: &[u8], program: &[u8], created: &[u8]) -> usize
    requires { Room out.old 0 (export_header version.now program.now created.now) }
    ensures { Put result out.old out.new 0 (export_header version.now program.now created.now) }
{
    let a = put_versions(out, version, program);
    put_created(out, a, created)
}

// As the original's `export_header`.
pub fn write_export_header(
    version: &[u8],
    program: &[u8],
    created: &[u8],
    out: &mut [u8],
) -> Result<usize, Refusal>
    ensures value { result ≡ answer_of (all_utf8 version.now program.now created.now) (export_header version.now program.now created.now) (length out.old) }
    ensures out_after { out.new ≡ output_by result out.old (export_header version.now program.now created.now) }
{
    if !are_utf8(version, program, created) {
        return Err(Refusal::BadRow);
    }
    refusals::fit(Ok(export_size(version, program, created)), out.len())?;
    Ok(put_export(out, version, program, created))
}
