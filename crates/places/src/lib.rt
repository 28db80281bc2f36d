// The layout of the frame that a description cuts (01, "The description and the frame it cuts").
#![tactic(auto)]

ghost use Rattle.std.specs.Prelude.{◌≡◌, ◌≤◌, length, sum};
ghost use Rattle.places.specs.Parts.{bad_capacity, lengths_in, used_by, parts_from, places_in, layout_for};

use description::Description;
use refusal::Refusal;

// Where a part stands in the frame.
#[derive(Clone, Copy, Default, PartialEq, Eq)]
pub struct Part {
    pub at: usize,
    pub len: usize,
}

// The parts A of streams 0 to 3, then the parts B, and the padding behind them.
#[derive(Clone, Copy, Default, PartialEq, Eq)]
pub struct Placement {
    pub part: [Part; 8],
    pub padding: Part,
}

// The lengths of the parts in the frame's order.
fn lengths(d: Description) -> [u16; 8]
    ensures { result ≡ lengths_in d }
{
    let [s0, s1, s2, s3] = d.stream;
    [s0.a, s1.a, s2.a, s3.a, s0.b, s1.b, s2.b, s3.b]
}

fn total(lengths: &[u16]) -> usize
    requires { length lengths.now ≤ 8 }
    ensures value { result ≡ sum lengths.now }
    ensures most { result ≤ 524280 }
{
    lengths.iter().map(|&n| usize::from(n)).sum()
}

// The bytes of all streams.
pub fn used(d: Description) -> usize
    ensures { (result ≡ used_by d) × (result ≤ 524280) }
{
    total(&lengths(d))
}

pub fn is_bad_capacity(capacity: usize) -> bool
    ensures { result ≡ bad_capacity capacity }
{
    (capacity == 0) | (32760 < capacity)
}

// Each part begins where the one before it ends.
fn parts(lengths: &[u16]) -> [Part; 8]
    requires { length lengths.now ≡ 8 }
    ensures { result ≡ parts_from 0 lengths.now }
{
    let mut part = [Part::default(); 8];
    let mut at = 0;
    for (i, &n) in lengths.iter().enumerate() {
        let len = usize::from(n);
        part[i] = Part { at, len };
        at += len;
    }
    part
}

// The layout of a frame of this capacity. Refused with 1 (a capacity not from 1 to 32,760), 6, 9, 10, 12.
pub fn layout(capacity: usize, d: Description, mode: u8) -> Result<Placement, Refusal>
    ensures { places_in result ≡ layout_for capacity d mode }
{
    if is_bad_capacity(capacity) {
        return Err(Refusal::Size);
    }
    description::handed_number(false, d, mode)?;
    let at = used(d);
    if capacity < at {
        return Err(Refusal::OverCapacity);
    }
    Ok(Placement {
        part: parts(&lengths(d)),
        padding: Part {
            at,
            len: capacity - at,
        },
    })
}
