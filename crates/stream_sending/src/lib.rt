// Loads and frames: the steps of call 35 (docs/CASES.md). Those of call 37 go the same way. Nothing here decides an answer.
#![tactic(auto)]

use cases::case::Taken;
use cases::{answer, case};
use hand::{Settings, Three};
use receiver::Receiver;
use saying::Said;
use sender::{Framed, Loaded, Sender};
use stream_values::Run;

// What a step did, where the body goes on behind it, and the packets of the frame, none where it is a load or refused.
#[derive(Clone, Copy)]
pub struct Acted {
    pub at: usize,
    pub n: usize,
    pub done: Framed,
}

// A load, told as a frame without packets.
fn loaded(t: Taken, l: Loaded) -> Acted {
    let next = l.next;
    let packets = Three { a: 0, b: 0, c: 0 };
    let done = Framed {
        number: l.number,
        next,
        packets,
        spares: 0,
        filler: 0,
    };
    Acted {
        at: t.next,
        n: 0,
        done,
    }
}

// The id and the unit stand at a position of the body.
fn load(s: Sender, g: Settings, body: &[u8], at: usize, store: &mut [u8]) -> Option<Acted> {
    let mut unit = [0u8; case::BUFFER];
    let t = case::buffer(body, case::past(at, 8), &mut unit)?;
    let id = fields::read64(body, at) as usize;
    let l = s.load(g, store, id, case::front(&unit, t.len));
    Some(loaded(t, l))
}

fn framed(at: usize, n: usize, done: Framed) -> Acted {
    Acted {
        at,
        n: if done.number == 0 { n } else { 0 },
        done,
    }
}

// The step at a position of the body, by settings at another; what a load is handed stands at a third.
pub fn act(
    s: Sender,
    at: usize,
    settings: usize,
    unit: usize,
    body: &[u8],
    store: &mut [u8],
    output: &mut [u8],
) -> Option<Acted> {
    let g = answer_hand::settings_at(body, settings);
    match case::byte(body, at) {
        0 => load(s, g, body, unit, store),
        1 => Some(framed(unit, g.n, s.frame(g, store, output))),
        _ => None,
    }
}

fn tell_frame(said: Said, f: Framed) -> Said {
    let said = answer_hand::tell_three(said, f.packets);
    saying::value(saying::value(said, f.spares as u64), f.filler as u64)
}

// The eight values of a step of call 35.
fn tell(r: Run, a: Acted, output: &[u8]) -> Run {
    let done = a.done;
    let said = stream_values::begin_step(r.said, done.number);
    let said = tell_frame(said, done);
    let said = saying::value(said, crc::crc16(output) as u64);
    let said = saying::value(said, answer::sum(output) as u64);
    after(a, said, r.receiver)
}

// The run behind a step.
pub fn after(a: Acted, said: Said, receiver: Receiver) -> Run {
    let done = a.done;
    let sender = done.next;
    Run {
        at: a.at,
        said,
        sender,
        receiver,
    }
}

// A step of call 35 has settings of its own.
pub fn send(r: Run, body: &[u8], store: &mut [u8], output: &mut [u8]) -> Option<Run> {
    let own = case::past(r.at, 1);
    let unit = case::past(own, answer_hand::SETTINGS);
    let a = act(r.sender, r.at, own, unit, body, store, output)?;
    Some(tell(r, a, output))
}
