// Packets given to a receiver: those of call 36 (docs/CASES.md), and those of the frames of call 37. Nothing here decides an answer.
#![tactic(auto)]

use cases::case;
use cases::case::Taken;
use receiver::{Receiver, Told};
use stream_sending::Acted;
use stream_values::Run;

// The bytes of the longest frame; room for all units that a frame can complete.
const FRAME: usize = 8190;

const UNITS: usize = 32768;

// The five values of a packet of call 36, which stood so in the body.
fn tell(r: Run, t: Told, s: Taken) -> Run {
    let (number, delivered) = saying::numbered(t.answer);
    let said = stream_values::begin_step(r.said, number);
    let said = match delivered {
        Some(unit) => saying::three(said, 1, u64::from(unit.id), unit.length as u64),
        None => saying::three(said, 0, 0, 0),
    };
    Run {
        at: s.next,
        said: saying::value(said, t.dropped as u64),
        sender: r.sender,
        receiver: t.next,
    }
}

// What the packets of a frame delivered: how many units, the sum of (id + 1) times length, and where their bytes end in a slice that
// gathers them; and the bytes that they dropped.
#[derive(Clone, Copy)]
struct Gathered {
    units: u64,
    sum: u64,
    end: usize,
    dropped: u64,
    receiver: Receiver,
}

// n bytes of s from a position on, or none where it has fewer.
fn part(s: &[u8], at: usize, n: usize) -> &[u8] {
    if s.len() < at {
        return &s[0..0];
    }
    case::front(&s[at..], n)
}

// (id + 1) times length.
fn weight(id: u8, length: usize) -> u64 {
    let n = (length % 65536) as u64;
    match id {
        0 => n,
        1 => n * 2,
        2 => n * 3,
        _ => n * 4,
    }
}

// One packet to the receiver; a unit that it completes goes behind the bytes gathered.
fn hear_one(g: Gathered, p: usize, packet: &[u8], buffer: &mut [u8], all: &mut [u8]) -> Gathered {
    let told = g.receiver.step(p, buffer, packet);
    let mut next = g;
    next.receiver = told.next;
    next.dropped = g.dropped.wrapping_add(told.dropped as u64);
    if let Ok(Some(unit)) = told.answer {
        let at = usize::from(unit.id % 4) * 4096;
        moves::copy(part(buffer, at, unit.length), all, g.end);
        next.units = g.units.wrapping_add(1);
        next.sum = g.sum.wrapping_add(weight(unit.id, unit.length));
        next.end = case::past(g.end, unit.length);
    }
    next
}

// The n packets of a frame, in order.
fn hear_all(
    g: Gathered,
    p: usize,
    n: usize,
    frame: &[u8],
    buffer: &mut [u8],
    all: &mut [u8],
) -> Gathered {
    let size = case::past(p, 3);
    let mut r = g;
    for packet in frame.chunks(size).take(n) {
        r = hear_one(r, p, packet, buffer, all);
    }
    r
}

// The five values of a step of call 37.
fn summed(r: Run, a: Acted, g: Gathered, all: &[u8]) -> Run {
    let done = a.done;
    let word = crc::crc16(case::front(all, g.end));
    let said = stream_values::begin_step(r.said, done.number);
    let said = saying::three(said, g.units, g.sum, word as u64);
    let said = saying::value(said, g.dropped);
    stream_sending::after(a, said, g.receiver)
}

// The packets of a frame to the receiver, by the p of the settings at the front of the body.
fn tell_all(r: Run, a: Acted, body: &[u8], frame: &[u8], buffer: &mut [u8]) -> Run {
    let mut all = [0u8; UNITS];
    let receiver = r.receiver;
    let none = Gathered {
        units: 0,
        sum: 0,
        end: 0,
        dropped: 0,
        receiver,
    };
    let p = fields::read64(body, 0) as usize;
    let got = hear_all(none, p, a.n, frame, buffer, &mut all);
    summed(r, a, got, &all)
}

// A packet of call 36, by the receiver's outer call.
pub fn hear(r: Run, body: &[u8], buffer: &mut [u8]) -> Option<Run> {
    let mut packet = [0u8; case::BUFFER];
    let s = case::buffer(body, case::past(r.at, 8), &mut packet)?;
    let p = fields::read64(body, r.at) as usize;
    let before = r.receiver;
    let t = stream_lending::step_lent(before, p, buffer, case::front(&packet, s.len));
    Some(tell(r, t, s))
}

// A step of call 37 has the settings at the front of the body, and the packets of its frame go to the receiver.
pub fn pass(r: Run, body: &[u8], store: &mut [u8], buffer: &mut [u8]) -> Option<Run> {
    let mut frame = [0u8; FRAME];
    let a = stream_sending::act(
        r.sender,
        r.at,
        0,
        case::past(r.at, 1),
        body,
        store,
        &mut frame,
    )?;
    Some(tell_all(r, a, body, &frame, buffer))
}
