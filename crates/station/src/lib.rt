// A station's fields, as they stand in each of its records. They are measured first, and then written or refused.
#![tactic(auto)]

ghost use Rattle.std.specs.Prelude.{◌≡◌, ◌++◌, ◌≤◌, length};
ghost use Rattle.output.specs.Put.{Put, Room};
ghost use Rattle.refusals.specs.Written.{output_by};
ghost use Rattle.headers.specs.Answer.{capped, capped_after};
ghost use Rattle.station.specs.Station.{my_county, my_cq_zone, my_gridsquare, my_itu_zone, my_name, my_state, operator, station_callsign, station_text, filled, all7};
ghost use Rattle.station.specs.Answer.{short, all_short, short7, station_answer};

use refusals::Refusal;

// The texts of a station; an absent one is empty.
#[derive(Clone, Copy)]
struct Station<'a> {
    pub call: &'a [u8],
    pub grid: &'a [u8],
    pub name: &'a [u8],
    pub state: &'a [u8],
    pub county: &'a [u8],
    pub cq: &'a [u8],
    pub itu: &'a [u8],
}

// The field, unless its text is blank.
fn put_given(out: &mut [u8], at: usize, name: &[u8], value: &[u8]) -> usize
    requires { Room out.old at (filled name.now value.now) }
    ensures { Put result out.old out.new at (filled name.now value.now) }
{
    if text::space::is_blank(value) {
        return at;
    }
    fields::put_field(out, at, name, text::space::trim(value))
}

fn with_given(size: usize, name: &[u8], value: &[u8]) -> usize
    requires { (size ≤ 16777217) × (length name.now ≤ 32) }
    ensures value { result ≡ capped_after size (filled name.now value.now) }
    ensures upper_bound { result ≤ 16777217 }
{
    if text::space::is_blank(value) {
        return headers::cap(size);
    }
    headers::with_field(size, name, text::space::trim(value))
}

fn put_place(out: &mut [u8], county: &[u8], cq: &[u8], grid: &[u8]) -> usize
    requires { Room out.old 0 (filled my_county county.now ++ (filled my_cq_zone cq.now ++ filled my_gridsquare grid.now)) }
    ensures { Put result out.old out.new 0 (filled my_county county.now ++ (filled my_cq_zone cq.now ++ filled my_gridsquare grid.now)) }
{
    let a = put_given(out, 0, b"MY_CNTY", county);
    let b = put_given(out, a, b"MY_CQ_ZONE", cq);
    put_given(out, b, b"MY_GRIDSQUARE", grid)
}

fn put_region(out: &mut [u8], at: usize, itu: &[u8], name: &[u8], state: &[u8]) -> usize
    requires { Room out.old at (filled my_itu_zone itu.now ++ (filled my_name name.now ++ filled my_state state.now)) }
    ensures { Put result out.old out.new at (filled my_itu_zone itu.now ++ (filled my_name name.now ++ filled my_state state.now)) }
{
    let a = put_given(out, at, b"MY_ITU_ZONE", itu);
    let b = put_given(out, a, b"MY_NAME", name);
    put_given(out, b, b"MY_STATE", state)
}

fn put_call(out: &mut [u8], at: usize, call: &[u8]) -> usize
    requires { Room out.old at (filled operator call.now ++ filled station_callsign call.now) }
    ensures { Put result out.old out.new at (filled operator call.now ++ filled station_callsign call.now) }
{
    let a = put_given(out, at, b"OPERATOR", call);
    put_given(out, a, b"STATION_CALLSIGN", call)
}

fn put_station(out: &mut [u8], s: Station) -> usize
    requires { Room out.old 0 (station_text s.call.now s.grid.now s.name.now s.state.now s.county.now s.cq.now s.itu.now) }
    ensures { Put result out.old out.new 0 (station_text s.entry.call.now s.entry.grid.now s.entry.name.now s.entry.state.now s.entry.county.now s.entry.cq.now s.entry.itu.now) }
{
    let a = put_place(out, s.county, s.cq, s.grid);
    let b = put_region(out, a, s.itu, s.name, s.state);
    put_call(out, b, s.call)
}

fn place_size(county: &[u8], cq: &[u8], grid: &[u8]) -> usize
    ensures value { result ≡ capped (length (filled my_county county.now ++ (filled my_cq_zone cq.now ++ filled my_gridsquare grid.now))) }
    ensures upper_bound { result ≤ 16777217 }
{
    let a = with_given(0, b"MY_CNTY", county);
    let b = with_given(a, b"MY_CQ_ZONE", cq);
    with_given(b, b"MY_GRIDSQUARE", grid)
}

fn region_size(size: usize, itu: &[u8], name: &[u8], state: &[u8]) -> usize
    requires { size ≤ 16777217 }
    ensures value { result ≡ capped_after size (filled my_itu_zone itu.now ++ (filled my_name name.now ++ filled my_state state.now)) }
    ensures upper_bound { result ≤ 16777217 }
{
    let a = with_given(size, b"MY_ITU_ZONE", itu);
    let b = with_given(a, b"MY_NAME", name);
    with_given(b, b"MY_STATE", state)
}

fn call_size(size: usize, call: &[u8]) -> usize
    requires { size ≤ 16777217 }
    ensures { result ≡ capped_after size (filled operator call.now ++ filled station_callsign call.now) }
{
    let a = with_given(size, b"OPERATOR", call);
    with_given(a, b"STATION_CALLSIGN", call)
}

// The size of a station's fields.
fn station_size(s: Station) -> usize
    ensures { result ≡ capped (length (station_text s.entry.call.now s.entry.grid.now s.entry.name.now s.entry.state.now s.entry.county.now s.entry.cq.now s.entry.itu.now)) }
{
    let a = place_size(s.county, s.cq, s.grid);
    let b = region_size(a, s.itu, s.name, s.state);
    call_size(b, s.call)
}

#[tactic(auto, unfolding(crate::specs::Station::all7))]
fn are_all_utf8(s: Station) -> bool
    ensures { result ≡ all7 s.entry.call.now s.entry.grid.now s.entry.name.now s.entry.state.now s.entry.county.now s.entry.cq.now s.entry.itu.now }
{
    headers::are_utf8(s.call, s.grid, s.name)
        && headers::are_utf8(s.state, s.county, s.cq)
        && text::utf8::is_utf8(s.itu)
}

#[tactic(auto, unfolding(crate::specs::Answer::short))]
fn is_short(s: &[u8]) -> bool
    ensures { result ≡ short s.now }
{
    s.len() <= refusals::LONGEST
}

#[tactic(auto, unfolding(crate::specs::Answer::all_short))]
fn are_short(a: &[u8], b: &[u8], c: &[u8]) -> bool
    ensures { result ≡ all_short a.now b.now c.now }
{
    is_short(a) && is_short(b) && is_short(c)
}

// The texts themselves, not what is written of them: a blank one is trimmed away, and is measured nowhere else.
#[tactic(auto, unfolding(crate::specs::Answer::short7))]
fn are_all_short(s: Station) -> bool
    ensures { result ≡ short7 s.entry.call.now s.entry.grid.now s.entry.name.now s.entry.state.now s.entry.county.now s.entry.cq.now s.entry.itu.now }
{
    are_short(s.call, s.grid, s.name) && are_short(s.state, s.county, s.cq) && is_short(s.itu)
}

// As the original's `Station::my_adif_fields`, in field form; an absent text is an empty one.
pub fn write_station(
    call: &[u8],
    grid: &[u8],
    name: &[u8],
    state: &[u8],
    county: &[u8],
    cq: &[u8],
    itu: &[u8],
    out: &mut [u8],
) -> Result<usize, Refusal>
    ensures value { result ≡ station_answer call.now grid.now name.now state.now county.now cq.now itu.now (length out.old) }
    ensures out_after { out.new ≡ output_by result out.old (station_text call.now grid.now name.now state.now county.now cq.now itu.now) }
{
    let station = Station {
        call,
        grid,
        name,
        state,
        county,
        cq,
        itu,
    };
    if !are_all_utf8(station) {
        return Err(Refusal::BadRow);
    }
    if !are_all_short(station) {
        return Err(Refusal::TooLong);
    }
    refusals::fit(Ok(station_size(station)), out.len())?;
    Ok(put_station(out, station))
}
