// The description of the streams (01, "The description and the frame it cuts"): the `sdci` value and the type 0 entity, read and written.
#![tactic(auto)]

ghost use Rattle.std.specs.Prelude.{◌≡◌, [], ◌+◌, ◌≤◌, not, eqb, length, take, drop, IfOk};
ghost use Rattle.laws.specs.Big.{big_of};
ghost use Rattle.laws.specs.Refuse.{refused_with};
ghost use Rattle.laws.specs.Written.{written};
ghost use Rattle.description.specs.Bytes.{streams, slot_at, described_by, length_bytes, value_of};
ghost use Rattle.description.specs.WellFormed.{any, all, empty, over, is_too_large, ill_formed};
ghost use Rattle.moves.specs.Wrote.{wrote_in};
ghost use Rattle.refusal.specs.Refusal.{number_in};
ghost use Rattle.description.specs.Answers.{value_length, unserved, length_in, version_in, type_in, wrong_head, handed, value_size};
ghost use Rattle.description.specs.Answers.{reading_tests, described_in, read_for, entity_in, read_entity_for};
ghost use Rattle.description.specs.Answers.{writing_tests, write_for, output_for, write_entity_for, entity_output_for};

use refusal::Refusal;

// The lengths in bytes of a stream's part A and part B.
#[derive(Clone, Copy, Default, PartialEq, Eq)]
pub struct Lengths {
    pub a: u16,
    pub b: u16,
}

// The protection levels of parts A and parts B.
#[derive(Clone, Copy, Default, PartialEq, Eq)]
pub struct Levels {
    pub a: u8,
    pub b: u8,
}

// The streams in use are the first count slots; the slots behind them hold zeros.
#[derive(Clone, Copy, Default, PartialEq, Eq)]
pub struct Description {
    pub level: Levels,
    pub count: usize,
    pub stream: [Lengths; 4],
}

// A type 0 entity: its version, and what it says of the streams.
#[derive(Clone, Copy, Default, PartialEq, Eq)]
pub struct Versioned {
    pub version: u8,
    pub description: Description,
}

// The first byte, 0 where there is none.
fn first(s: &[u8]) -> u8
    ensures { result ≡ big_of (take 1 s.now) }
{
    s.first().copied().unwrap_or(0)
}

// The lengths whose three bytes begin at the offset; both 0 where they are not all there.
fn slot_at(v: &[u8], at: usize) -> Lengths
    requires { at ≤ 10 }
    ensures { result ≡ slot_at v.now at }
{
    if v.len() < at + 3 {
        return Lengths::default();
    }
    let x = u32::from(v[at]) * 65536 + u32::from(v[at + 1]) * 256 + u32::from(v[at + 2]);
    Lengths {
        a: (x / 4096 % 4096) as u16,
        b: (x % 4096) as u16,
    }
}

// What a value says, whatever its length: bytes that are not there count as 0. The reserved bits are not looked at.
pub fn of_value(v: &[u8]) -> Description
    ensures { result ≡ described_by v.now }
{
    let head = first(v);
    Description {
        level: Levels {
            a: head / 4 % 4,
            b: head % 4,
        },
        count: v.len() / 3,
        stream: [slot_at(v, 1), slot_at(v, 4), slot_at(v, 7), slot_at(v, 10)],
    }
}

impl Lengths {
    // The bytes of both parts.
    pub fn size(self) -> usize
        ensures { (result ≡ self.a + self.b) × (result ≤ 131070) }
    {
        usize::from(self.a) + usize::from(self.b)
    }

    fn is_empty(self) -> bool
        ensures { result ≡ empty self }
    {
        (self.a == 0) & (self.b == 0)
    }

    fn is_over(self) -> bool
        ensures { result ≡ over self }
    {
        (4095 < self.a) | (4095 < self.b)
    }
}

impl Description {
    // A slot with a length over 12 bits.
    // Kept: the slots by name, here and in the three tests below. By iterators, whose bounds the count gives, a description read or written takes
    // some 15 ns more, and `mdi_write` misses its limit in bench/limits.txt.
    fn has_over(self) -> bool
        ensures { result ≡ any over self.stream }
    {
        let [s0, s1, s2, s3] = self.stream;
        s0.is_over() | s1.is_over() | s2.is_over() | s3.is_over()
    }

    // A stream in use that has no byte.
    fn has_empty(self) -> bool
        ensures { result ≡ any empty (streams self) }
    {
        let n = self.count;
        let [s0, s1, s2, s3] = self.stream;
        ((0 < n) & s0.is_empty())
            | ((1 < n) & s1.is_empty())
            | ((2 < n) & s2.is_empty())
            | ((3 < n) & s3.is_empty())
    }

    // A slot behind the streams that is not zeros.
    fn has_more(self) -> bool
        ensures { result ≡ any (λ l. not (empty l)) (drop self.count self.stream) }
    {
        let n = self.count;
        let [s0, s1, s2, s3] = self.stream;
        ((n <= 0) & !s0.is_empty())
            | ((n <= 1) & !s1.is_empty())
            | ((n <= 2) & !s2.is_empty())
            | ((n <= 3) & !s3.is_empty())
    }

    // Whether every part A is empty.
    fn is_without_a(self) -> bool
        ensures { result ≡ all (λ l. eqb l.a 0) self.stream }
    {
        let [s0, s1, s2, s3] = self.stream;
        (s0.a == 0) & (s1.a == 0) & (s2.a == 0) & (s3.a == 0)
    }
}

// Whether a field is too large for its bits.
pub fn too_large(d: Description) -> bool
    ensures { result ≡ is_too_large d }
{
    (3 < d.level.a) | (3 < d.level.b) | d.has_over()
}

// Whether the description is not well formed under the MSC mode.
pub fn ill_formed(d: Description, mode: u8) -> bool
    ensures { result ≡ ill_formed mode d }
{
    ((d.count == 0) | (4 < d.count))
        | (d.has_empty() | d.has_more())
        | (d.level.a != 0 && d.is_without_a())
        | ((mode == 3) & ((1 < d.level.a) | (1 < d.level.b)))
}

fn is_unserved(mode: u8) -> bool
    ensures { result ≡ unserved mode }
{
    (mode == 1) | (mode == 2)
}

pub fn is_value_length(n: usize) -> bool
    ensures { result ≡ value_length n }
{
    (n == 4) | (n == 7) | (n == 10) | (n == 13)
}

// Reads a value under a mode, in an input that is too long or not, and with a wrong head or not.
fn read_value(long: bool, wrong_head: bool, v: &[u8], mode: u8) -> Result<Description, Refusal>
    ensures number { number_in result ≡ refused_with (reading_tests long wrong_head v.now mode) }
    ensures value { IfOk result (λ d. d ≡ described_by v.now) }
{
    if long {
        return Err(Refusal::Size);
    }
    if !is_value_length(v.len()) {
        return Err(Refusal::ItemLength);
    }
    if 3 < mode {
        return Err(Refusal::BadValue);
    }
    if is_unserved(mode) {
        return Err(Refusal::NotServed);
    }
    let d = of_value(v);
    if wrong_head | ill_formed(d, mode) {
        return Err(Refusal::IllFormed);
    }
    Ok(d)
}

// Reads a `sdci` value. Refused with 1 (over 65,528 bytes), 5, 6, 9, 10.
pub fn read(value: &[u8], mode: u8) -> Result<Description, Refusal>
    ensures { described_in result ≡ read_for value.now mode }
{
    read_value(65528 < value.len(), false, value, mode)
}

// What follows the first byte.
fn rest(s: &[u8]) -> &[u8]
    ensures { result.now ≡ drop 1 s.now }
{
    s.get(1..).unwrap_or(&[])
}

fn length_in(s: &[u8]) -> usize
    ensures { result ≡ length_in s.now }
{
    (first(s) / 2 % 128) as usize
}

fn version_in(s: &[u8]) -> u8
    ensures { result ≡ version_in s.now }
{
    first(s) % 2
}

// The four bits before the levels of a value: an entity has its type there.
fn type_in(v: &[u8]) -> u8
    ensures { result ≡ type_in v.now }
{
    first(v) / 16 % 16
}

fn wrong_head(s: &[u8]) -> bool
    ensures { result ≡ wrong_head s.now }
{
    let v = rest(s);
    (length_in(s) != 3 * (v.len() / 3)) | (type_in(v) != 0)
}

// Reads one type 0 entity. Refused with 1 (over 65,528 bytes), 5, 6, 9, 10 (also: another type or length field).
pub fn read_entity(bytes: &[u8], mode: u8) -> Result<Versioned, Refusal>
    ensures { entity_in result ≡ read_entity_for bytes.now mode }
{
    let long = 65528 < bytes.len();
    let description = read_value(long, wrong_head(bytes), rest(bytes), mode)?;
    Ok(Versioned {
        version: version_in(bytes),
        description,
    })
}

// Tries a description and a mode handed in, with what else is too large: 6, 9, 10.
pub fn handed_number(large: bool, d: Description, mode: u8) -> Result<(), Refusal>
    ensures { number_in result ≡ refused_with (handed large d mode []) }
{
    if large | too_large(d) | (3 < mode) {
        return Err(Refusal::BadValue);
    }
    if is_unserved(mode) {
        return Err(Refusal::NotServed);
    }
    if ill_formed(d, mode) {
        return Err(Refusal::IllFormed);
    }
    Ok(())
}

// Tries what a writer is handed that puts some bytes before the value. Gives the bytes of both.
fn size_to_write(
    large: bool,
    d: Description,
    mode: u8,
    before: usize,
    room: usize,
) -> Result<usize, Refusal>
    requires { before ≤ 1 }
    ensures number { number_in result ≡ refused_with (writing_tests large d mode (before + value_size d) room) }
    ensures size { IfOk result (λ n. n ≡ before + value_size d) }
{
    handed_number(large, d, mode)?;
    // The count is 1 to 4 here.
    let size = before + (1 + 3 * d.count);
    if room < size {
        return Err(Refusal::Size);
    }
    Ok(size)
}

fn put_lengths(l: Lengths, out: &mut [u8], at: usize)
    requires { at + 3 ≤ length out.old }
    ensures { out.new ≡ written out.old at (length_bytes l) }
{
    let x = u32::from(l.a) * 4096 + u32::from(l.b);
    out[at] = (x / 65536 % 256) as u8;
    out[at + 1] = (x / 256 % 256) as u8;
    out[at + 2] = (x % 256) as u8;
}

fn put_value(d: Description, out: &mut [u8], at: usize)
    requires { (d.count ≤ 4) × (at + value_size d ≤ length out.old) }
    ensures { out.new ≡ written out.old at (value_of d) }
{
    out[at] = ((u32::from(d.level.a) * 4 + u32::from(d.level.b)) % 256) as u8;
    let streams = &d.stream[..d.count];
    for (i, &l) in streams.iter().enumerate() {
        put_lengths(l, out, at + (1 + 3 * i));
    }
}

// Writes the `sdci` value to the front of the output. Refused with 6, 9, 10, 1.
pub fn write(d: Description, mode: u8, out: &mut [u8]) -> Result<usize, Refusal>
    ensures answer { wrote_in result ≡ write_for d mode out.old }
    ensures memory { out.new ≡ output_for d mode out.old }
{
    let size = size_to_write(false, d, mode, 0, out.len())?;
    put_value(d, out, 0);
    Ok(size)
}

// Writes the type 0 entity to the front of the output; version 1 is the next configuration. Refused with 6, 9, 10, 1.
pub fn write_entity(version: u8, d: Description, mode: u8, out: &mut [u8]) -> Result<usize, Refusal>
    ensures answer { wrote_in result ≡ write_entity_for version d mode out.old }
    ensures memory { out.new ≡ entity_output_for version d mode out.old }
{
    let size = size_to_write(1 < version, d, mode, 1, out.len())?;
    out[0] = (6 * d.count) as u8 + version;
    put_value(d, out, 1);
    Ok(size)
}
