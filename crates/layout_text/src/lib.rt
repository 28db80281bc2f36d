// What the program `layout` prints (01, "The description and the frame it cuts"): the layout of a frame, or its refusal, as text.
#![tactic(auto)]

ghost use Rattle.std.specs.Prelude.{◌≡◌, ◌++◌, ◌+◌, ◌≤◌, length, drop, IfOk};
ghost use Rattle.laws.specs.Written.{written};
ghost use Rattle.io.specs.Counts.{IsPrefixLen};
ghost use Rattle.moves.specs.Moves.{Puts};
ghost use Rattle.refusal.specs.Refusal.{number_in};
ghost use Rattle.places.specs.Parts.{parts_of, padding_of};
ghost use Rattle.line_text.specs.Decimal.{decimal};
ghost use Rattle.layout_text.specs.Text.{line_of, part_lines, padding, lines_of, capacity_in, described_in, number_for, text_of};

use places::{Part, Placement};
use refusal::Refusal;

// The line of stream i's part; none where it has no byte.
fn put_part(name: &[u8; 14], i: usize, x: Part, out: &mut [u8], at: usize) -> usize
    requires { at + 87 ≤ length out.old }
    ensures { (result ≤ at + 87) × Puts out.old at (line_of (name.now ++ decimal i) x) out.new result }
{
    if x.len == 0 {
        return at;
    }
    let a = line_text::named(name, i as u64, out, at);
    line_text::pair(b" at ", x.at as u64, b" length ", x.len as u64, out, a)
}

// The lines of the parts of streams 0, 1, ..
fn put_parts(name: &[u8; 14], parts: &[Part], out: &mut [u8], at: usize) -> usize
    requires { (length parts.now ≤ 4) × (at + 348 ≤ length out.old) }
    ensures { (result ≤ at + 348) × Puts out.old at (part_lines name.now 0 parts.now) out.new result }
{
    let mut next = at;
    for (i, &x) in parts.iter().enumerate() {
        next = put_part(name, i, x, out, next);
    }
    next
}

fn put_padding(x: Part, out: &mut [u8], at: usize) -> usize
    requires { at + 60 ≤ length out.old }
    ensures { (result ≤ at + 60) × Puts out.old at (line_of padding x) out.new result }
{
    if x.len == 0 {
        return at;
    }
    let a = line_text::word(b"padding", out, at);
    line_text::pair(b" at ", x.at as u64, b" length ", x.len as u64, out, a)
}

fn put_layout(capacity: usize, p: Placement, out: &mut [u8]) -> usize
    requires { 1024 ≤ length out.old }
    ensures { (result ≤ 1024) × Puts out.old 0 (lines_of capacity p.part p.padding) out.new result }
{
    let a = line_text::line(b"capacity ", capacity as u64, out, 0);
    let b = put_parts(b"part A stream ", &p.part[..4], out, a);
    let c = put_parts(b"part B stream ", &p.part[4..8], out, b);
    put_padding(p.padding, out, c)
}

// The value behind the two bytes of the capacity.
fn value_in(input: &[u8]) -> &[u8]
    ensures { result.now ≡ drop 2 input.now }
{
    input.get(2..).unwrap_or(&[])
}

fn capacity_in(input: &[u8]) -> usize
    ensures { result ≡ capacity_in input.now }
{
    fields::read16(input, 0) as usize
}

// The layout of the frame, under MSC mode 0.
fn layout_of(input: &[u8]) -> Result<Placement, Refusal>
    ensures number { number_in result ≡ number_for input.now }
    ensures value { IfOk result (λ p. (p.part ≡ parts_of (described_in input.now)) × (p.padding ≡ padding_of (capacity_in input.now) (described_in input.now))) }
{
    if input.len() < 2 {
        return Err(Refusal::Size);
    }
    if 65528 < input.len() {
        return Err(Refusal::Size);
    }
    let capacity = capacity_in(input);
    if places::is_bad_capacity(capacity) {
        return Err(Refusal::Size);
    }
    let value = value_in(input);
    if !description::is_value_length(value.len()) {
        return Err(Refusal::ItemLength);
    }
    places::layout(capacity, description::of_value(value), 0)
}

// The text for an input, at the front of the buffer; the answer is its length.
pub fn text(input: &[u8], out: &mut [u8; 1024]) -> usize
    ensures answer { result ≡ length (text_of input.now) }
    ensures memory { out.new ≡ written out.old 0 (text_of input.now) }
    ensures room { IsPrefixLen result out.new }
{
    match layout_of(input) {
        Ok(p) => put_layout(capacity_in(input), p, out),
        Err(why) => line_text::line(b"refused ", u64::from(why.number()), out, 0),
    }
}
