// Writes an MDI packet (01, "MDI packet"): the items of 01's table in its order, empty ones left out.
#![tactic(auto)]

ghost use Rattle.std.specs.Prelude.{◌≡◌, false, not, ◌||◌, [], ◌∷◌, ◌+◌, ◌*◌, ◌≤◌, ◌<◌, length, eqb, ltb};
ghost use Rattle.laws.specs.Big.{bytes_of};
ghost use Rattle.laws.specs.Limits.{longest};
ghost use Rattle.laws.specs.Refuse.{refused_with};
ghost use Rattle.laws.specs.Written.{written};
ghost use Rattle.clock.specs.Stamps.{Within, stamp_bytes, field_tests};
ghost use Rattle.description.specs.Bytes.{value_of};
ghost use Rattle.description.specs.WellFormed as described;
ghost use Rattle.description.specs.Answers.{unserved};
ghost use Rattle.fac.specs.Channel as fast;
ghost use Rattle.fac.specs.Channel.{fac_bytes};
ghost use Rattle.sdc.specs.Block.{sdc_bytes};
ghost use Rattle.mdi_spots.specs.Table.{name_of};
ghost use Rattle.mdi_spots.specs.Streams.{filled};
ghost use Rattle.moves.specs.Wrote.{wrote_in};
ghost use Rattle.refusal.specs.Refusal.{number_in};
ghost use Rattle.mdi_write.specs.Packet.{four, time_bytes, head_values, stream_values};
ghost use Rattle.mdi_write.specs.Rows.{all_names, wire, wire_size, laid, size_for, Tested};
ghost use Rattle.mdi_write.specs.Answers.{any_long, bad_time, is_too_large, write_tests, write_for, out_for};

use refusal::Refusal;

// The bytes of an item with a value of n bytes: an empty one is left out.
fn item_size(n: usize) -> usize
    requires { n ≤ 65528 }
    ensures { (result ≡ wire_size n) × (result ≤ 65536) }
{
    if n == 0 { 0 } else { 8 + n }
}

// Writes the item of a row of the table at an offset, and answers the offset behind it. An empty one is left out.
fn put_item(names: &[u8], row: usize, value: &[u8], out: &mut [u8], at: usize) -> usize
    requires { (names.now ≡ all_names) × (row < 11) × (length value.now ≤ 65528) × (at + wire_size (length value.now) ≤ length out.old) }
    ensures value { result ≡ at + wire_size (length value.now) }
    ensures out_after { out.new ≡ written out.old at (wire (name_of row) value.now) }
{
    let n = value.len();
    if n == 0 {
        return at;
    }
    moves::copy(&names[4 * row..4 * row + 4], out, at);
    fields::write32(out, at + 4, (8 * n) as u32);
    moves::copy(value, out, at + 8);
    at + 8 + n
}

fn put_count(names: &[u8], count: u32, out: &mut [u8], at: usize) -> usize
    requires { (names.now ≡ all_names) × (at + wire_size (length (bytes_of 4 count)) ≤ length out.old) }
    ensures value { result ≡ at + wire_size (length (bytes_of 4 count)) }
    ensures out_after { out.new ≡ written out.old at (wire (name_of 1) (bytes_of 4 count)) }
{
    let mut value = [0u8; 4];
    fields::write32(&mut value, 0, count);
    put_item(names, mdi_spots::DLFC, &value, out, at)
}

fn put_fac(names: &[u8], f: fac::Fac, out: &mut [u8], at: usize) -> usize
    requires { (names.now ≡ all_names) × (fast.is_too_large f ≡ false) × (fast.not_served f ≡ false) × (at + wire_size (length (fac_bytes f)) ≤ length out.old) }
    ensures value { result ≡ at + wire_size (length (fac_bytes f)) }
    ensures out_after { out.new ≡ written out.old at (wire (name_of 2) (fac_bytes f)) }
{
    let mut value = [0u8; 9];
    let _ = fac::write(f, &mut value);
    put_item(names, mdi_spots::FAC, &value, out, at)
}

fn put_sdc(names: &[u8], s: sdc::Sdc, out: &mut [u8], at: usize) -> usize
    requires { (names.now ≡ all_names) × (at + wire_size (length (sdc_bytes s)) ≤ length out.old) }
    ensures value { result ≡ at + wire_size (length (sdc_bytes s)) }
    ensures out_after { out.new ≡ written out.old at (wire (name_of 3) (sdc_bytes s)) }
{
    let mut value = [0u8; 1027];
    sdc::put(s, &mut value, 0);
    let n = sdc::value_length(s);
    put_item(names, mdi_spots::SDC, &value[0..n], out, at)
}

fn put_description(
    names: &[u8],
    d: description::Description,
    mode: u8,
    out: &mut [u8],
    at: usize,
) -> usize
    requires { (names.now ≡ all_names) × (described.is_too_large d ≡ false) × (mode ≤ 3) × (unserved mode ≡ false) × (described.ill_formed mode d ≡ false) × (at + wire_size (length (value_of d)) ≤ length out.old) }
    ensures value { result ≡ at + wire_size (length (value_of d)) }
    ensures out_after { out.new ≡ written out.old at (wire (name_of 4) (value_of d)) }
{
    let mut value = [0u8; 13];
    let n = description::write(d, mode, &mut value).unwrap_or(0);
    put_item(names, mdi_spots::SDCI, &value[0..n], out, at)
}

fn put_mode(names: &[u8], robustness: u8, out: &mut [u8], at: usize) -> usize
    requires { (names.now ≡ all_names) × (at + wire_size (length (robustness ∷ [])) ≤ length out.old) }
    ensures value { result ≡ at + wire_size (length (robustness ∷ [])) }
    ensures out_after { out.new ≡ written out.old at (wire (name_of 5) (robustness ∷ [])) }
{
    let value = [robustness];
    put_item(names, mdi_spots::ROBM, &value, out, at)
}

fn put_stamp(names: &[u8], t: clock::Stamp, out: &mut [u8], at: usize) -> usize
    requires { (names.now ≡ all_names) × Within t × (at + wire_size (length (stamp_bytes t)) ≤ length out.old) }
    ensures value { result ≡ at + wire_size (length (stamp_bytes t)) }
    ensures out_after { out.new ≡ written out.old at (wire (name_of 10) (stamp_bytes t)) }
{
    let mut value = [0u8; 8];
    let _ = clock::encode(t, &mut value);
    put_item(names, mdi_spots::TIST, &value, out, at)
}

fn put_time(names: &[u8], time: Option<clock::Stamp>, out: &mut [u8], at: usize) -> usize
    requires { (names.now ≡ all_names) × (bad_time time ≡ false) × (at + wire_size (length (time_bytes time)) ≤ length out.old) }
    ensures value { result ≡ at + wire_size (length (time_bytes time)) }
    ensures out_after { out.new ≡ written out.old at (wire (name_of 10) (time_bytes time)) }
{
    match time {
        None => at,
        Some(stamp) => put_stamp(names, stamp, out, at),
    }
}

// The items before the streams, at the front of the output.
fn put_head(names: &[u8], r: record::Record, out: &mut [u8]) -> usize
    requires { (names.now ≡ all_names) × Tested r × (0 + length (laid 0 (head_values r)) ≤ length out.old) }
    ensures value { result ≡ 0 + length (laid 0 (head_values r)) }
    ensures out_after { out.new ≡ written out.old 0 (laid 0 (head_values r)) }
{
    let f = r.fac;
    let s = r.sdc;
    let d = r.description;
    let opening = mdi_spots::OPENING;
    let a = put_item(names, mdi_spots::PTR, &opening, out, 0);
    let b = put_count(names, r.count, out, a);
    let c = put_fac(names, f, out, b);
    let e = put_sdc(names, s, out, c);
    let g = put_description(names, d, f.msc, out, e);
    put_mode(names, r.robustness, out, g)
}

// The streams, behind them.
fn put_streams(
    names: &[u8],
    s0: &[u8],
    s1: &[u8],
    s2: &[u8],
    s3: &[u8],
    out: &mut [u8],
    at: usize,
) -> usize
    requires { (names.now ≡ all_names) × (any_long (four s0.now s1.now s2.now s3.now) ≡ false) × (at + length (laid 6 (stream_values (four s0.now s1.now s2.now s3.now))) ≤ length out.old) }
    ensures value { result ≡ at + length (laid 6 (stream_values (four s0.now s1.now s2.now s3.now))) }
    ensures out_after { out.new ≡ written out.old at (laid 6 (stream_values (four s0.now s1.now s2.now s3.now))) }
{
    let a = put_item(names, mdi_spots::STR0, s0, out, at);
    let b = put_item(names, mdi_spots::STR1, s1, out, a);
    let c = put_item(names, mdi_spots::STR2, s2, out, b);
    put_item(names, mdi_spots::STR3, s3, out, c)
}

// Whether a stream is longer than any input may be.
fn is_long(n0: usize, n1: usize, n2: usize, n3: usize) -> bool
    ensures { result ≡ (ltb longest n0 || ltb longest n1 || ltb longest n2 || ltb longest n3) }
{
    (65528 < n0) | (65528 < n1) | (65528 < n2) | (65528 < n3)
}

// Whether a timestamp is refused by itself.
fn is_bad(time: Option<clock::Stamp>) -> bool
    ensures { result ≡ bad_time time }
{
    time.is_some_and(|t| clock::check(t).is_err())
}

// Whether a field is too large for its bits.
fn is_large(r: record::Record) -> bool
    ensures { result ≡ is_too_large r }
{
    let f = r.fac;
    let s = r.sdc;
    let d = r.description;
    let t = r.time;
    fac::too_large(f)
        | sdc::too_large(s)
        | description::too_large(d)
        | (3 < r.robustness)
        | is_bad(t)
}

// Whether streams of these lengths are as long as the description says.
fn is_agreed(d: description::Description, n0: usize, n1: usize, n2: usize, n3: usize) -> bool
    ensures { (result ≡ filled d n0 n1 n2 n3) × (length d.stream ≡ 4) }
{
    let [s0, s1, s2, s3] = d.stream;
    (n0 == s0.size()) & (n1 == s1.size()) & (n2 == s2.size()) & (n3 == s3.size())
}

fn time_size(time: Option<clock::Stamp>) -> usize
    ensures { (result ≡ wire_size (length (time_bytes time))) × (result ≤ 16) }
{
    if time.is_some() { 16 } else { 0 }
}

// The bytes of the packet with streams of these lengths.
fn packet_size(r: record::Record, n0: usize, n1: usize, n2: usize, n3: usize) -> usize
    requires { (r.description.count ≤ 4) × (n0 ≤ 65528) × (n1 ≤ 65528) × (n2 ≤ 65528) × (n3 ≤ 65528) }
    ensures { result ≡ size_for r n0 n1 n2 n3 }
{
    let s = r.sdc;
    let d = r.description;
    let t = r.time;
    let head = 63 + item_size(sdc::value_length(s)) + 3 * d.count;
    head + item_size(n0) + item_size(n1) + item_size(n2) + item_size(n3) + time_size(t)
}

// Why the packet is not written to an output of so many bytes.
fn check_packet(
    r: record::Record,
    s0: &[u8],
    s1: &[u8],
    s2: &[u8],
    s3: &[u8],
    room: usize,
) -> Result<(), Refusal>
    ensures { number_in result ≡ refused_with (write_tests r (four s0.now s1.now s2.now s3.now) room) }
{
    let f = r.fac;
    let s = r.sdc;
    let d = r.description;
    if is_long(s0.len(), s1.len(), s2.len(), s3.len()) {
        return Err(Refusal::Size);
    }
    if sdc::over_long(s) {
        return Err(Refusal::ItemLength);
    }
    if is_large(r) {
        return Err(Refusal::BadValue);
    }
    if fac::not_served(f) {
        return Err(Refusal::NotServed);
    }
    if description::ill_formed(d, f.msc) {
        return Err(Refusal::IllFormed);
    }
    if !is_agreed(d, s0.len(), s1.len(), s2.len(), s3.len()) {
        return Err(Refusal::StreamLength);
    }
    if room < packet_size(r, s0.len(), s1.len(), s2.len(), s3.len()) {
        return Err(Refusal::Size);
    }
    Ok(())
}

// Writes the packet to the front of the output, and answers its length. Refused with 1 (a stream over 65,528 bytes), 5 (over 1,024 SDC
// bytes), 6 (a field too large), 9 (the FAC is not served), 10 (the description is not well formed), 11 (a stream of another length than
// it says), last with 1 (an output too short).
pub fn write(
    r: record::Record,
    s0: &[u8],
    s1: &[u8],
    s2: &[u8],
    s3: &[u8],
    out: &mut [u8],
) -> Result<usize, Refusal>
    ensures answer { wrote_in result ≡ write_for r (four s0.now s1.now s2.now s3.now) (length out.old) }
    ensures memory { out.new ≡ out_for r (four s0.now s1.now s2.now s3.now) out.old }
{
    check_packet(r, s0, s1, s2, s3, out.len())?;
    let t = r.time;
    let names = mdi_spots::NAMES;
    let a = put_head(&names, r, out);
    let b = put_streams(&names, s0, s1, s2, s3, out, a);
    let length = put_time(&names, t, out, b);
    Ok(length)
}
