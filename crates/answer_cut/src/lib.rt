// Call 17 of docs/CASES.md: a frame cut into its streams. Nothing here decides an answer.
#![tactic(auto)]

use cases::{answer, case};

fn cut(body: &[u8], out: &mut [u8]) -> Option<usize> {
    let mut room = [0u8; case::BUFFER];
    let mut w = [0u8; case::BUFFER];
    let mut x = [0u8; case::BUFFER];
    let mut y = [0u8; case::BUFFER];
    let mut z = [0u8; case::BUFFER];
    let s = case::buffer(body, answer_description::FRAME, &mut room)?;
    let a = case::buffer(body, s.next, &mut w)?;
    let b = case::buffer(body, a.next, &mut x)?;
    let c = case::buffer(body, b.next, &mut y)?;
    let d = case::buffer(body, c.next, &mut z)?;
    if !case::ends(Some(d), body) {
        return None;
    }
    let a = case::front_mut(&mut w, a.len);
    let b = case::front_mut(&mut x, b.len);
    let c = case::front_mut(&mut y, c.len);
    let d = case::front_mut(&mut z, d.len);
    let head = answer_description::frame_head(body);
    let (number, lengths) = saying::numbered(frames::cut(
        head.capacity,
        head.description,
        head.mode,
        case::front(&room, s.len),
        a,
        b,
        c,
        d,
    ));
    let mut said = saying::begin(number, 0);
    for n in lengths {
        said = saying::value(said, n as u64);
    }
    Some(saying::lent_four(out, Some(said), a, b, c, d))
}

// The answer to a case of this group, at the front of out.
pub fn answer(call: u8, body: &[u8], out: &mut [u8]) -> usize {
    let size = if call == 17 { cut(body, out) } else { None };
    answer::or_none(out, size)
}
