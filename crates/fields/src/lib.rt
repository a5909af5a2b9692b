// A field as ADIF text: `<NAME:LEN>value` and a space, the name in capitals and LEN in bytes.
#![tactic(auto)]

ghost use Rattle.std.specs.Prelude.{◌≡◌, ◌+◌, ◌≤◌, length};
ghost use Rattle.letters.specs.Capitals.{capitals};
ghost use Rattle.output.specs.Put.{Put, Room};
ghost use Rattle.fields.specs.Written.{field_text};
ghost use Rattle.fields.specs.Parts.{field_as, open_text, length_text, value_text};

pub fn put_raised(out: &mut [u8], at: usize, src: &[u8]) -> usize
    requires { Room out.old at (capitals src.now) }
    ensures { Put result out.old out.new at (capitals src.now) }
{
    for (i, &b) in src.iter().enumerate() {
        out[at + i] = letters::raise(b);
    }
    at + src.len()
}

pub fn put_open(out: &mut [u8], at: usize, name: &[u8]) -> usize
    requires { Room out.old at (open_text name.now) }
    ensures { Put result out.old out.new at (open_text name.now) }
{
    let a = output::put_byte(out, at, b'<');
    let b = put_raised(out, a, name);
    output::put_byte(out, b, b':')
}

pub fn put_length(out: &mut [u8], at: usize, n: u64) -> usize
    requires { Room out.old at (length_text n) }
    ensures { Put result out.old out.new at (length_text n) }
{
    let a = output::put_decimal(out, at, n);
    output::put_byte(out, a, b'>')
}

fn put_value(out: &mut [u8], at: usize, value: &[u8]) -> usize
    requires { Room out.old at (value_text value.now) }
    ensures { Put result out.old out.new at (value_text value.now) }
{
    let a = output::put_bytes(out, at, value);
    output::put_byte(out, a, b' ')
}

pub fn put_field(out: &mut [u8], at: usize, name: &[u8], value: &[u8]) -> usize
    requires { Room out.old at (field_text (field_as name.now value.now)) }
    ensures { Put result out.old out.new at (field_text (field_as name.now value.now)) }
{
    let a = put_open(out, at, name);
    let b = put_length(out, a, value.len() as u64);
    put_value(out, b, value)
}

// The length of a field's text.
pub fn field_size(name: &[u8], value: &[u8]) -> usize
    requires { length name.now + length value.now ≤ 33554432 }
    ensures value { result ≡ length (field_text (field_as name.now value.now)) }
    ensures upper_bound { result ≤ 33554456 }
{
    name.len() + value.len() + output::decimal_size(value.len() as u64) + 4
}
