// Calls 10 to 15 of docs/CASES.md: descriptions and layouts. Nothing here decides an answer: each function hands what stands in a case to
// the library, and says what came back.
#![tactic(auto)]

ghost use Rattle.std.specs.Prelude.{◌≡◌, slice_index};
ghost use Rattle.laws.specs.Big.{number_at};
ghost use Rattle.answer_description.specs.Values.{lengths_in, description_in};

use cases::case;
use description::{Description, Lengths, Levels};
use places::{Part, Placement};
use saying::Said;

// Bytes that a description takes in a body.
pub const DESCRIPTION: usize = 19;

fn lengths_at(body: &[u8], at: usize) -> Lengths
    ensures { result ≡ lengths_in body.now at }
{
    Lengths {
        a: fields::read16(body, at),
        b: fields::read16(body, case::past(at, 2)),
    }
}

// The description at a position of the body.
pub fn description_at(body: &[u8], at: usize) -> Description
    ensures { result ≡ description_in body.now at }
{
    let s0 = lengths_at(body, case::past(at, 3));
    let s1 = lengths_at(body, case::past(at, 7));
    let s2 = lengths_at(body, case::past(at, 11));
    let s3 = lengths_at(body, case::past(at, 15));
    let stream = [s0, s1, s2, s3];
    let level = Levels {
        a: case::byte(body, at),
        b: case::byte(body, case::past(at, 1)),
    };
    Description {
        level,
        count: case::byte(body, case::past(at, 2)) as usize,
        stream,
    }
}

// What was said, and the eleven values of a description.
pub fn with_description(said: Said, d: Description) -> Said {
    let mut said = saying::three(
        said,
        u64::from(d.level.a),
        u64::from(d.level.b),
        d.count as u64,
    );
    for l in d.stream {
        said = saying::value(saying::value(said, u64::from(l.a)), u64::from(l.b));
    }
    said
}

pub fn description_read(body: &[u8], s: &[u8]) -> Said {
    let (number, d) = saying::numbered(description::read(s, case::byte(body, 0)));
    with_description(saying::begin(number, 0), d)
}

pub fn entity_read(body: &[u8], s: &[u8]) -> Said {
    let (number, got) = saying::numbered(description::read_entity(s, case::byte(body, 0)));
    with_description(saying::one(number, u64::from(got.version)), got.description)
}

pub fn description_write(body: &[u8], dst: &mut [u8]) -> Said {
    let mode = case::byte(body, 19);
    let (number, length) = saying::numbered(description::write(description_at(body, 0), mode, dst));
    saying::one(number, length as u64)
}

pub fn entity_write(body: &[u8], dst: &mut [u8]) -> Said {
    let version = case::byte(body, 0);
    let mode = case::byte(body, 20);
    let d = description_at(body, 1);
    let (number, length) = saying::numbered(description::write_entity(version, d, mode, dst));
    saying::one(number, length as u64)
}

// The first n bytes of the text's array.
fn first_of(text: &[u8; 1024], n: usize) -> &[u8] {
    case::front(text, n)
}

// The text goes to an array of its own, and from there to the output, where that has room for it.
pub fn layout_write(input: &[u8], dst: &mut [u8]) -> Said {
    let mut text = [0u8; 1024];
    let n = layout_text::text(input, &mut text);
    let put = moves::put(first_of(&text, n), dst, 0);
    saying::one((put < n) as u32, put as u64)
}

fn with_part(said: Said, x: Part) -> Said {
    saying::value(saying::value(said, x.at as u64), x.len as u64)
}

// The parts A, the parts B, the padding.
fn said_places(number: u32, p: Placement) -> Said {
    let mut said = saying::begin(number, 0);
    for x in p.part {
        said = with_part(said, x);
    }
    with_part(said, p.padding)
}

// What stands in a body before the buffers of a frame: capacity, description, MSC mode.
pub const FRAME: usize = 28;

#[derive(Clone, Copy)]
pub struct FrameHead {
    pub capacity: usize,
    pub description: Description,
    pub mode: u8,
}

pub fn frame_head(body: &[u8]) -> FrameHead
    ensures capacity { result.capacity ≡ number_at 8 body.now 0 }
    ensures description { result.description ≡ description_in body.now 8 }
    ensures mode { result.mode ≡ slice_index body.now 27 }
{
    FrameHead {
        capacity: fields::read64(body, 0) as usize,
        description: description_at(body, 8),
        mode: case::byte(body, 27),
    }
}

pub fn layout(body: &[u8]) -> Said {
    let head = frame_head(body);
    let (number, p) = saying::numbered(places::layout(head.capacity, head.description, head.mode));
    said_places(number, p)
}
