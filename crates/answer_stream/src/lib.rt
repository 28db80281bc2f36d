// Calls 35 to 37 of docs/CASES.md: scripts of steps over a sender and a receiver, each step handed what the last one left. Nothing here
// decides an answer.
#![tactic(auto)]

use cases::{answer, case};
use saying::Said;

// The most steps of a script.
const STEPS: u8 = 24;

// The buffers that an answer gives.
// Kept: a match on the number of a case; the arms are numbers, and nothing is run.
fn buffers(call: u8) -> u8 {
    match call {
        35 => 2,
        36 => 1,
        _ => 0,
    }
}

// The number of steps at a position of the body; none where none stands there, or one that is not allowed.
fn steps(body: &[u8], at: usize) -> Option<u8> {
    body.get(at).copied().filter(|&n| n <= STEPS)
}

// The script whose number of steps stands at a position of the body, and nothing behind its steps.
fn script(call: u8, body: &[u8], at: usize, one: &mut [u8], two: &mut [u8]) -> Option<Said> {
    let first = stream_values::begun(call, body, case::past(at, 1));
    let r = stream_play::play(first, call, steps(body, at)?, body, one, two)?;
    saying::only_if(Some(stream_values::told(r, call)), r.at == body.len())
}

// Bytes before the first buffer, or before the number of steps; none of another call.
// Kept: a match on the number of a case; the arms are numbers, and nothing is run.
fn head(call: u8) -> Option<usize> {
    match call {
        35 => Some(120),
        36 => Some(20),
        37 => Some(answer_hand::SETTINGS),
        _ => None,
    }
}

// A run from fresh states has a store and a receiver's buffer of zeros.
fn run(call: u8, body: &[u8], out: &mut [u8]) -> Option<usize> {
    let mut room = [0u8; case::BUFFER];
    let mut more = [0u8; case::BUFFER];
    let s = case::buffer_if(call != 37, body, head(call)?, &mut room, 12288)?;
    let t = case::buffer_if(call == 35, body, s.next, &mut more, 16384)?;
    let one = case::front_mut(&mut room, s.len);
    let two = case::front_mut(&mut more, t.len);
    let said = script(call, body, t.next, one, two)?;
    Some(saying::some(out, Some(said), buffers(call), one, two))
}

// The answer to a case of this group, at the front of out.
pub fn answer(call: u8, body: &[u8], out: &mut [u8]) -> usize {
    let size = run(call, body, out);
    answer::or_none(out, size)
}
