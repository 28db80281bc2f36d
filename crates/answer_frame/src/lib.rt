// Call 16 of docs/CASES.md: a frame built from its streams. Nothing here decides an answer.
#![tactic(auto)]

ghost use Rattle.std.specs.Prelude.{◌≤◌, length, IfSome, All};

use cases::case::Taken;
use cases::{answer, case};
use saying::Said;

// The lengths of four buffers that stand one behind the other in a body, and where it goes on.
#[derive(Clone, Copy)]
pub struct Four {
    pub len: [usize; 4],
    pub next: usize,
}

fn quarter_mut(rooms: &mut [u8], i: usize) -> &mut [u8]
    ensures { length result.now ≤ 131072 }
{
    let from = i % 4 * 131072;
    let to = from + 131072;
    if rooms.len() < to {
        return &mut rooms[0..0];
    }
    &mut rooms[from..to]
}

fn one_of(body: &[u8], at: usize, rooms: &mut [u8], i: usize) -> Option<Taken>
    ensures { IfSome result (λ t. t.len ≤ 131072) }
{
    case::buffer(body, at, quarter_mut(rooms, i))
}

// Reads four buffers, each to the front of its quarter of 524,288 bytes, so that all of them can be lent at once.
pub fn four_at(body: &[u8], at: usize, rooms: &mut [u8]) -> Option<Four>
    ensures { IfSome result (λ four. All (λ n. n ≤ 131072) four.len) }
{
    let a = one_of(body, at, rooms, 0)?;
    let b = one_of(body, a.next, rooms, 1)?;
    let c = one_of(body, b.next, rooms, 2)?;
    let d = one_of(body, c.next, rooms, 3)?;
    Some(Four {
        len: [a.len, b.len, c.len, d.len],
        next: d.next,
    })
}

// The first n bytes of a quarter.
pub fn quarter(rooms: &[u8], i: usize, n: usize) -> &[u8]
    ensures { length result.now ≤ n }
{
    let from = i % 4 * 131072;
    if rooms.len() < from {
        return &rooms[0..0];
    }
    case::front(&rooms[from..], n)
}

fn build_of(body: &[u8], rooms: &[u8], f: Four, dst: &mut [u8]) -> Said {
    let head = answer_description::frame_head(body);
    let (number, length) = saying::numbered(frames::build(
        head.capacity,
        head.description,
        head.mode,
        quarter(rooms, 0, f.len[0]),
        quarter(rooms, 1, f.len[1]),
        quarter(rooms, 2, f.len[2]),
        quarter(rooms, 3, f.len[3]),
        dst,
    ));
    saying::one(number, length as u64)
}

fn build_to(body: &[u8], rooms: &[u8], f: Four, room: &mut [u8], out: &mut [u8]) -> Option<usize> {
    let s = case::buffer(body, f.next, room)?;
    let dst = case::front_mut(room, s.len);
    let said = build_of(body, rooms, f, dst);
    let said = saying::only_if(Some(said), case::ends(Some(s), body));
    Some(saying::lent(out, said, dst))
}

// Arrays, and not slices, are handed on here: a proof need not count their bytes.
fn build_in(
    body: &[u8],
    rooms: &mut [u8; 524288],
    room: &mut [u8; 131072],
    out: &mut [u8],
) -> Option<usize> {
    let f = four_at(body, answer_description::FRAME, rooms)?;
    build_to(body, rooms, f, room, out)
}

fn build(body: &[u8], out: &mut [u8]) -> Option<usize> {
    let mut rooms = [0u8; 524288];
    let mut room = [0u8; case::BUFFER];
    build_in(body, &mut rooms, &mut room, out)
}

// The answer to a case of this group, at the front of out.
pub fn answer(call: u8, body: &[u8], out: &mut [u8]) -> usize {
    let size = if call == 16 { build(body, out) } else { None };
    answer::or_none(out, size)
}
