// Calls of docs/CASES.md that are handed at most one buffer to read and one to write to. What stands in a case is read by the form of its
// call, and a function of one of the libraries below says what came back. A new call is such a function, its form, and a line of `say`.
#![tactic(auto)]

use cases::{answer, case};
use saying::Said;

// Bytes before the first buffer and between the two; and which buffers there are: one to read, one that is lent to write to.
#[derive(Clone, Copy)]
struct Form {
    head: usize,
    gap: usize,
    reads: bool,
    lends: bool,
}

// Kept: a match on the number of a case; the arms are numbers, and nothing is run.
fn form_of(call: u8) -> Form {
    let (head, reads, lends) = match call {
        14 => (28, false, false),
        22 => (12, false, false),
        23 => (24, false, false),
        28 => (8, false, false),
        33 => (64, false, false),
        34 => (96, false, false),
        1 | 2 | 21 | 24 | 43 => (0, true, false),
        10 | 12 => (1, true, false),
        25 | 30 => (8, true, false),
        4 => (9, true, false),
        26 => (0, false, true),
        20 => (12, false, true),
        5 => (17, false, true),
        11 => (20, false, true),
        13 | 44 => (21, false, true),
        32 => (12, true, true),
        _ => (0, true, true),
    };
    let gap = if call == 27 { 8 } else { 0 };
    Form {
        head,
        gap,
        reads,
        lends,
    }
}

// What a call says. The body goes on at `between` behind the buffer that it reads.
// Kept: a match on the number of a case (docs/CASES.md): each arm has arguments of its own, so no closure could stand for all.
fn say(call: u8, body: &[u8], between: usize, s: &[u8], dst: &mut [u8]) -> Option<Said> {
    let said = match call {
        1 => answer_leaves::crc8(s),
        2 => answer_leaves::crc16(s),
        3 => answer_leaves::disperse(s, dst),
        4 => answer_leaves::number_read(body, s)?,
        5 => answer_leaves::number_write(body, dst)?,
        10 => answer_description::description_read(body, s),
        11 => answer_description::description_write(body, dst),
        12 => answer_description::entity_read(body, s),
        13 => answer_description::entity_write(body, dst),
        14 => answer_description::layout(body),
        15 => answer_description::layout_write(s, dst),
        20 => answer_clock::stamp_write(body, dst),
        21 => answer_clock::stamp_read(s),
        22 => answer_clock::stamp_next(body),
        23 => answer_clock::stamp_follows(body),
        24 => answer_clock::recording_open(s),
        25 => answer_clock::recording_next(body, s),
        26 => answer_clock::recording_start(dst),
        27 => answer_clock::recording_append(body, between, s, dst),
        28 => answer_clock::date(body),
        30 => answer_packet::packet_check(body, s),
        32 => answer_packet::packet_write(body, s, dst),
        33 => answer_hand::settings_check(body),
        34 => answer_hand::hand_out(body),
        43 => answer_fac::fac_read(s),
        44 => answer_fac::fac_write(body, dst),
        _ => return None,
    };
    Some(said)
}

// What the call says, and how many bytes are lent to it at the front of the second room; none where the case is none.
fn said_in(call: u8, body: &[u8], one: &mut [u8], two: &mut [u8]) -> Option<(Said, usize)> {
    let f = form_of(call);
    let s = case::buffer_if(f.reads, body, f.head, one, 0)?;
    let t = case::buffer_if(f.lends, body, case::past(s.next, f.gap), two, 0);
    let dst = case::front_mut(two, t?.len);
    let said = say(call, body, s.next, case::front(one, s.len), dst);
    Some((saying::only_if(said, case::ends(t, body))?, t?.len))
}

fn plain(call: u8, body: &[u8], out: &mut [u8]) -> usize {
    let mut one = [0u8; case::BUFFER];
    let mut two = [0u8; case::BUFFER];
    let Some((said, n)) = said_in(call, body, &mut one, &mut two) else {
        return answer::none(out);
    };
    let dst = case::front(&two, n);
    saying::some(out, Some(said), u8::from(form_of(call).lends), dst, body)
}

// The call that gives back a part of what it reads has a form of its own.
pub fn answer(call: u8, body: &[u8], out: &mut [u8]) -> usize {
    if call == 31 {
        return answer_packet::packet_read(body, out);
    }
    plain(call, body, out)
}
