// Calls 40 and 41 of docs/CASES.md: MDI packets read. Nothing here decides an answer: each function hands what stands in a case to the
// library, and says what came back. A record is large, so each function says one part of it.
#![tactic(auto)]

use cases::{answer, case};
use clock::Stamp;
use record::Record;
use saying::Said;
use sdc::{Head, Sdc};

// What was said, and of a record the frame count and the FAC.
fn with_front(said: Said, r: Record) -> Said {
    let f = r.fac;
    answer_fac::with_fac(saying::value(said, r.count as u64), f)
}

// Whether there is an SDC block, its AFS index, its data bytes.
fn with_head(said: Said, h: Option<Head>) -> Said {
    match h {
        None => saying::three(said, 0, 0, 0),
        Some(h) => saying::three(said, 1, h.afs as u64, h.size as u64),
    }
}

fn with_block(said: Said, s: Sdc) -> Said {
    let h = s.head;
    with_head(said, h)
}

fn with_time(said: Said, t: Option<Stamp>) -> Said {
    match t {
        None => saying::three(saying::value(said, 0), 0, 0, 0),
        Some(stamp) => answer_clock::with_stamp(saying::value(said, 1), stamp),
    }
}

// Description, robustness, timestamp.
fn with_rest(said: Said, r: Record) -> Said {
    let d = r.description;
    let t = r.time;
    let said = answer_description::with_description(said, d);
    with_time(saying::value(said, r.robustness as u64), t)
}

// The first n bytes of the SDC data.
fn first_of(data: &[u8; 1024], n: usize) -> &[u8] {
    case::front(data, n)
}

fn tell_sdc(s: Sdc, said: Said, out: &mut [u8]) -> usize {
    let size = s.head.map_or(0, |h| h.size);
    saying::lent(out, Some(said), first_of(&s.body, size))
}

fn tell_record(r: Record, said: Said, out: &mut [u8]) -> usize {
    let s = r.sdc;
    tell_sdc(s, with_rest(with_block(with_front(said, r), s), r), out)
}

fn tell_read(packet: &[u8], out: &mut [u8]) -> usize {
    let (said, r) = match mdi::read(packet) {
        Ok(r) => (saying::begin(0, 0), r),
        Err(refused) => (
            saying::begin(refused.why.number(), refused.place),
            record::none(),
        ),
    };
    tell_record(r, said, out)
}

// The packet that stands at a position of the body, and nothing behind it.
fn packet_at<'a>(body: &[u8], at: usize, room: &'a mut [u8]) -> Option<&'a [u8]> {
    let s = case::buffer(body, at, room)?;
    if case::ends(Some(s), body) {
        Some(case::front(room, s.len))
    } else {
        None
    }
}

fn read(body: &[u8], out: &mut [u8]) -> Option<usize> {
    let mut room = [0u8; case::BUFFER];
    let packet = packet_at(body, 0, &mut room)?;
    Some(tell_read(packet, out))
}

fn stream(body: &[u8], out: &mut [u8]) -> Option<usize> {
    let mut room = [0u8; case::BUFFER];
    let packet = packet_at(body, 8, &mut room)?;
    let n = fields::read64(body, 0) as usize;
    Some(saying::lent(out, Some(saying::begin(0, 0)), mdi::stream(packet, n)))
}

// The answer to a case of this group, at the front of out.
// Kept: a match on the number of a case (docs/CASES.md); in a table of functions the same numbers and names would stand, and a search.
pub fn answer(call: u8, body: &[u8], out: &mut [u8]) -> usize {
    let size = match call {
        40 => read(body, out),
        41 => stream(body, out),
        _ => None,
    };
    answer::or_none(out, size)
}
