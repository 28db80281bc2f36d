// How far a script of calls 35 to 37 (docs/CASES.md) is run; the states of sender and receiver, as a body has them and as an answer gives
// them.
#![tactic(auto)]

use cases::case;
use queue::Queue;
use receiver::{Link, Receiver};
use saying::Said;
use sender::Sender;

fn half(body: &[u8], at: usize, more: usize) -> u16 {
    fields::read16(body, case::past(at, more))
}

fn queue_at(body: &[u8], at: usize) -> Queue {
    let l0 = half(body, at, 20);
    let l1 = half(body, at, 22);
    let l2 = half(body, at, 24);
    let l3 = half(body, at, 26);
    let l4 = half(body, at, 28);
    let l5 = half(body, at, 30);
    let l6 = half(body, at, 32);
    let l7 = half(body, at, 34);
    let left = [l0, l1, l2, l3, l4, l5, l6, l7];
    Queue {
        left,
        count: fields::read64(body, at) as usize,
        sent: fields::read64(body, case::past(at, 8)) as usize,
    }
}

fn index_at(body: &[u8], at: usize) -> [u8; 4] {
    let a = case::byte(body, at);
    let b = case::byte(body, case::past(at, 1));
    let c = case::byte(body, case::past(at, 2));
    let d = case::byte(body, case::past(at, 3));
    [a, b, c, d]
}

// A number of 16 bits of each queue, which stands so many bytes from where the queue begins.
fn halves(body: &[u8], more: usize) -> [u16; 3] {
    let a = half(body, 0, more);
    let b = half(body, 36, more);
    let c = half(body, 72, more);
    [a, b, c]
}

// The sender at the front of a body.
fn sender_in(body: &[u8]) -> Sender {
    let a = queue_at(body, 0);
    let b = queue_at(body, 36);
    let c = queue_at(body, 72);
    let q = [a, b, c];
    let index = index_at(body, 116);
    Sender {
        q,
        turn: fields::read64(body, 108) as usize,
        index,
        waiting: halves(body, 16),
        start: halves(body, 18),
    }
}

fn four(said: Said, a: u16, b: u16, c: u16, d: u16) -> Said {
    let said = saying::three(said, a as u64, b as u64, c as u64);
    saying::value(said, d as u64)
}

fn tell_left(said: Said, left: [u16; 8]) -> Said {
    let mut next = said;
    for x in left {
        next = saying::value(next, u64::from(x));
    }
    next
}

// A queue, with the count that is stored for it and the start of its ring.
fn tell_queue(said: Said, q: Queue, waiting: u16, start: u16) -> Said {
    let left = q.left;
    let said = saying::three(said, q.count as u64, q.sent as u64, waiting as u64);
    tell_left(saying::value(said, start as u64), left)
}

fn tell_queues(said: Said, q: [Queue; 3], w: [u16; 3], start: [u16; 3]) -> Said {
    let [a, b, c] = q;
    let said = tell_queue(said, a, w[0], start[0]);
    let said = tell_queue(said, b, w[1], start[1]);
    tell_queue(said, c, w[2], start[2])
}

fn tell_index(said: Said, index: [u8; 4]) -> Said {
    let mut next = said;
    for x in index {
        next = saying::value(next, u64::from(x));
    }
    next
}

fn tell_sender(said: Said, s: Sender) -> Said {
    let q = s.q;
    let index = s.index;
    let waiting = s.waiting;
    let start = s.start;
    let said = tell_queues(said, q, waiting, start);
    tell_index(saying::value(said, s.turn as u64), index)
}

fn link_at(body: &[u8], at: usize) -> Link {
    Link {
        heard: case::byte(body, at) != 0,
        index: case::byte(body, case::past(at, 1)),
        begun: case::byte(body, case::past(at, 2)) != 0,
        len: half(body, at, 3),
    }
}

// The receiver at the front of a body.
fn receiver_in(body: &[u8]) -> Receiver {
    let a = link_at(body, 0);
    let b = link_at(body, 5);
    let c = link_at(body, 10);
    let d = link_at(body, 15);
    let link = [a, b, c, d];
    Receiver { link }
}

fn tell_link(said: Said, l: Link) -> Said {
    four(said, l.heard as u16, l.index as u16, l.begun as u16, l.len)
}

fn tell_receiver(said: Said, r: Receiver) -> Said {
    let a = r.link[0];
    let b = r.link[1];
    let c = r.link[2];
    let d = r.link[3];
    let said = tell_link(tell_link(said, a), b);
    tell_link(tell_link(said, c), d)
}

// Where the next step stands in the body, what was said, the two states.
#[derive(Clone, Copy)]
pub struct Run {
    pub at: usize,
    pub said: Said,
    pub sender: Sender,
    pub receiver: Receiver,
}

// The run before its first step, which stands at a position of the body. It is fresh where the body has no state.
pub fn begun(call: u8, body: &[u8], at: usize) -> Run {
    let said = saying::begin(0, 0);
    let sender = if call == 35 {
        sender_in(body)
    } else {
        Sender::fresh()
    };
    let receiver = if call == 36 {
        receiver_in(body)
    } else {
        Receiver::fresh()
    };
    Run {
        at,
        said,
        sender,
        receiver,
    }
}

// What was said of the steps, and the state after the last.
// Kept: a match on the number of a case (docs/CASES.md): each arm has arguments of its own, so no closure could stand for all.
pub fn told(r: Run, call: u8) -> Said {
    match call {
        35 => tell_sender(r.said, r.sender),
        36 => tell_receiver(r.said, r.receiver),
        _ => r.said,
    }
}

// A step's first value is its number, and the answer's number is that of the last step.
pub fn begin_step(said: Said, number: u32) -> Said {
    let mut next = said;
    next.number = number;
    saying::value(next, u64::from(number))
}
