// Calls 42 and 45 of docs/CASES.md: an MDI packet written, and whether one follows another. Nothing here decides an answer: what stands in a
// case becomes a record, part by part, since it is large.
#![tactic(auto)]

use answer_frame::Four;
use cases::case::Taken;
use cases::{answer, case};
use clock::Stamp;
use record::Record;
use saying::Said;
use sdc::{Head, Sdc};

fn head_in(body: &[u8]) -> Option<Head> {
    if case::byte(body, 25) == 0 {
        return None;
    }
    Some(Head {
        afs: case::byte(body, 26),
        size: fields::read64(body, 27) as usize,
    })
}

// The time at a position of the body, behind the mark that says whether there is one.
fn time_at(body: &[u8], at: usize) -> Option<Stamp> {
    if case::byte(body, at) == 0 {
        return None;
    }
    Some(answer_clock::stamp_at(body, case::past(at, 1)))
}

// The record whose description stands at a position of the body, and the robustness behind it.
fn record_at(body: &[u8], at: usize, count: u32, sdc: Sdc, time: Option<Stamp>) -> Record {
    let fac = answer_fac::fac_at(body, 4);
    let description = answer_description::description_at(body, at);
    Record {
        count,
        fac,
        sdc,
        description,
        robustness: case::byte(body, case::past(at, answer_description::DESCRIPTION)),
        time,
    }
}

fn record_in(body: &[u8], at: usize, data: [u8; 1024]) -> Record {
    let head = head_in(body);
    let sdc = Sdc { head, body: data };
    let time = time_at(body, case::past(at, 20));
    record_at(body, at, fields::read32(body, 0), sdc, time)
}

fn written(r: Record, rooms: &[u8], f: Four, dst: &mut [u8]) -> Said {
    let (number, length) = saying::numbered(mdi_write::write(
        r,
        answer_frame::quarter(rooms, 0, f.len[0]),
        answer_frame::quarter(rooms, 1, f.len[1]),
        answer_frame::quarter(rooms, 2, f.len[2]),
        answer_frame::quarter(rooms, 3, f.len[3]),
        dst,
    ));
    saying::one(number, length as u64)
}

fn write_to(
    r: Record,
    body: &[u8],
    rooms: &[u8],
    f: Four,
    room: &mut [u8],
    out: &mut [u8],
) -> Option<usize> {
    let s = case::buffer(body, f.next, room)?;
    let dst = case::front_mut(room, s.len);
    let said = written(r, rooms, f, dst);
    let said = saying::only_if(Some(said), case::ends(Some(s), body));
    Some(saying::lent(out, said, dst))
}

// The SDC data stand behind count, FAC, mark, AFS index and number of data bytes; the streams behind the description, the robustness, a mark
// and a timestamp.
// Arrays, and not slices, are handed on here: a proof need not count their bytes.
fn write_in(
    body: &[u8],
    data: &mut [u8; 1024],
    rooms: &mut [u8; 524288],
    room: &mut [u8; 131072],
    out: &mut [u8],
) -> Option<usize> {
    let sdc = take_data(body, data)?;
    let f = answer_frame::four_at(body, case::past(sdc.next, 33), rooms)?;
    write_to(record_in(body, sdc.next, *data), body, rooms, f, room, out)
}

fn take_data(body: &[u8], data: &mut [u8]) -> Option<Taken> {
    case::buffer(body, 35, data)
}

fn write(body: &[u8], out: &mut [u8]) -> Option<usize> {
    let mut data = [0u8; 1024];
    let mut rooms = [0u8; 524288];
    let mut room = [0u8; case::BUFFER];
    write_in(body, &mut data, &mut rooms, &mut room, out)
}

// A record with the count and the time at a position of the body. Of the rest nothing is looked at.
fn moment_at(body: &[u8], at: usize) -> Record {
    let time = time_at(body, case::past(at, 4));
    record_at(
        body,
        body.len(),
        fields::read32(body, at),
        sdc::absent(),
        time,
    )
}

fn said_follows(body: &[u8]) -> Said {
    let (number, yes) = saying::numbered(record::follows(moment_at(body, 0), moment_at(body, 17)));
    saying::one(number, u64::from(yes))
}

fn follows(body: &[u8], out: &mut [u8]) -> Option<usize> {
    let said = saying::only_if(Some(said_follows(body)), body.len() == 34);
    Some(saying::alone(out, said))
}

// The answer to a case of this group, at the front of out.
// Kept: a match on the number of a case (docs/CASES.md); in a table of functions the same numbers and names would stand, and a search.
pub fn answer(call: u8, body: &[u8], out: &mut [u8]) -> usize {
    let size = match call {
        42 => write(body, out),
        45 => follows(body, out),
        _ => None,
    };
    answer::or_none(out, size)
}
