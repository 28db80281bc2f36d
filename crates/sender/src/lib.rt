// The sender of a shared stream (01, "Packets, queues and receiver"; 02, E1, E9): three queues of units and filler. Its state is handed
// over and back as a value; the bytes of the units stand in a store that is lent, a ring of 4,096 for each queue.
#![tactic(auto)]

ghost use Rattle.std.specs.Prelude.{◌≡◌, ◌+◌, ◌*◌, ◌%◌, ◌≤◌, ◌<◌, length, get_or};
ghost use Rattle.refusal.specs.Refusal.{number_in};
ghost use Rattle.laws.specs.Part.{part_of};
ghost use Rattle.laws.specs.Refuse.{refused_with};
ghost use Rattle.laws.specs.Written.{written};
ghost use Rattle.hand.specs.Settings.{total};
ghost use Rattle.ring.specs.Ring.{around};
ghost use Rattle.sender.specs.State.{index_of};
ghost use Rattle.sender.specs.Frame.{end_of, ends_of, next_from, row_at, nulls, frame_packets, frame_bytes};
ghost use Rattle.sender.specs.Rings.{front_of, unrolled, fresh_rings, strayed, ring_load_for, ring_store_for, ring_frame_tests, ring_framed, ring_frame_for, ring_frame_out};
ghost use Rattle.sender.specs.Private.{Ready, faulty, Shape, unit_tests, no_room, loaded_in, framed_in, less, on_from};

use hand::{Settings, Three};
use queue::Queue;
use refusal::Refusal;
use row::Out;

// 01's part of the state, as its definitions have it: the three queues, whose turn it is to get a spare, and the next continuity index of
// each id, filler last. In 01 the unsent bytes of each queue stand at the front of its part of the store: hence the name.
#[derive(Clone, Copy)]
pub struct Front {
    pub q: [Queue; 3],
    pub turn: usize,
    pub index: [u8; 4],
}

// What callers hold from one call to the next: 01's part, and beside it for each queue the packets that wait in it (E1), for whoever
// shows them, and the place in its part of the store where its unsent bytes begin (E9). Load and frame keep both, and refuse a state in
// which a count is wrong or a start is past 4,095.
// Kept: it crosses to C by value, as Loaded and Framed do: host/keshgurvat.h.
#[repr(C)]
#[derive(Clone, Copy)]
pub struct Sender {
    pub q: [Queue; 3],
    pub turn: usize,
    pub index: [u8; 4],
    pub waiting: [u16; 3],
    pub start: [u16; 3],
}

// The number, and the state after the call.
#[repr(C)]
#[derive(Clone, Copy)]
pub struct Loaded {
    pub number: u32,
    pub next: Sender,
}

// The number, the state after the call, and what the frame holds: packets of each queue, spares among them, filler.
#[repr(C)]
#[derive(Clone, Copy)]
pub struct Framed {
    pub number: u32,
    pub next: Sender,
    pub packets: Three,
    pub spares: usize,
    pub filler: usize,
}

// Where the writing of a frame ends: of the three queues, and filler's next index.
#[derive(Clone, Copy)]
pub struct Ends {
    pub a: Out,
    pub b: Out,
    pub c: Out,
    pub index: u8,
}

// 01's part of the state after a frame.
fn next_state(e: Ends, turn: usize) -> Front
    ensures { result ≡ next_from e turn }
{
    Front {
        q: [e.a.q, e.b.q, e.c.q],
        turn,
        index: [e.a.index, e.b.index, e.c.index, e.index],
    }
}

// A queue has eight places. Neither this nor `shape` does anything: they hand on to a proof what the types say of arrays.
fn known(q: Queue)
    ensures { length q.left ≡ 8 }
{}

// The arrays of a state have their lengths.
fn shape(s: Sender)
    ensures { Shape s }
{
    let a = s.q[0];
    known(a);
    let b = s.q[1];
    known(b);
    let c = s.q[2];
    known(c);
}

// A queue that has `bytes` to send has eight units, or not n bytes of room.
fn is_full(q: Queue, n: usize, bytes: usize) -> bool
    requires { (n ≤ 4096) × (bytes ≤ 524280) }
    ensures { result ≡ no_room q n bytes }
{
    if 8 <= q.count {
        return true;
    }
    4096 < n + bytes
}

// The place behind `bytes` unsent ones of a ring.
fn behind(start: u16, bytes: usize) -> usize
    requires { bytes ≤ 524280 }
    ensures { (result ≡ (start + bytes) % 4096) × (result < 4096) }
{
    (usize::from(start) + bytes) % 4096
}

// The unit's bytes into the ring of queue id, from place at on.
fn put_in(unit: &[u8], store: &mut [u8], id: usize, at: usize)
    requires { (id < 3) × (length store.old ≡ 12288) × (at < 4096) × (length unit.now ≤ 4096) }
    ensures { store.new ≡ written store.old (id * 4096) (around (part_of store.old id) at unit.now) }
{
    let b = id * 4096;
    ring::copy_in(unit, &mut store[b..b + 4096], at);
}

// Stored counts, or starts, as numbers.
fn three(w: [u16; 3]) -> Three
    ensures { (result.a ≡ get_or w 0 0) × (result.b ≡ get_or w 1 0) × (result.c ≡ get_or w 2 0) }
{
    Three {
        a: usize::from(w[0]),
        b: usize::from(w[1]),
        c: usize::from(w[2]),
    }
}

// The counts w after a frame that has `got` of each queue.
fn less(w: Three, got: Three) -> [u16; 3]
    requires { (w.a ≤ 4096) × (w.b ≤ 4096) × (w.c ≤ 4096) × (got.a ≤ w.a) × (got.b ≤ w.b) × (got.c ≤ w.c) }
    ensures { result ≡ less w got }
{
    [
        (w.a - got.a) as u16,
        (w.b - got.b) as u16,
        (w.c - got.c) as u16,
    ]
}

// The starts after a frame that began at these.
fn on(from: Three, e: Ends) -> [u16; 3]
    requires { (from.a ≤ 4095) × (from.b ≤ 4095) × (from.c ≤ 4095) × (e.a.at ≤ 8190) × (e.b.at ≤ 8190) × (e.c.at ≤ 8190) }
    ensures { result ≡ on_from from e }
{
    [
        ((from.a + e.a.at) % 4096) as u16,
        ((from.b + e.b.at) % 4096) as u16,
        ((from.c + e.c.at) % 4096) as u16,
    ]
}

impl Sender {
    // No unit, nothing waits, turn 0, indexes 0, starts 0.
    #[tactic(auto, unfolding(crate::specs::Rings::fresh_rings, crate::specs::Kept::fresh_kept, crate::specs::State::fresh))]
    pub fn fresh() -> Sender
        ensures { result ≡ fresh_rings }
    {
        Sender {
            q: [Queue::fresh(); 3],
            turn: 0,
            index: [0; 4],
            waiting: [0; 3],
            start: [0; 3],
        }
    }

    // One of the starts is past 4,095.
    fn is_stray(self) -> bool
        ensures { result ≡ strayed self }
    {
        let [a, b, c] = self.start;
        4095 < a || 4095 < b || 4095 < c
    }

    // One of the faults of refusal 17, a wrong count and a start past 4,095 among them. Each queue's units are gone through once.
    fn is_faulty(self, p: u8) -> bool
        ensures { result ≡ faulty p self }
    {
        if self.is_stray() {
            return true;
        }
        let w = self.waiting;
        for id in 0..3 {
            let q = self.q[id];
            if q.is_wrong(p, w[id]) {
                return true;
            }
        }
        if 2 < self.turn {
            return true;
        }
        let index = self.index;
        if 7 < index[0] {
            return true;
        }
        if 7 < index[1] {
            return true;
        }
        if 7 < index[2] {
            return true;
        }
        7 < index[3]
    }

    // Whether a unit of n bytes is refused before the room of its queue is looked at.
    fn load_check(self, settings: Settings, id: usize, n: usize, room: usize) -> Result<(), Refusal>
        ensures { number_in result ≡ refused_with (unit_tests settings self id n room) }
    {
        settings.check()?;
        if self.is_faulty(settings.p as u8) {
            return Err(Refusal::BadState);
        }
        if room != 12288 || 65528 < n {
            return Err(Refusal::Size);
        }
        if n == 0 || 4096 < n || 2 < id {
            return Err(Refusal::BadUnit);
        }
        Ok(())
    }

    // The answer to a unit that is refused.
    fn keeping(self, why: Refusal) -> Loaded
        ensures { result ≡ loaded_in self (Err why) }
    {
        Loaded {
            number: why.number(),
            next: self,
        }
    }

    // A unit enters queue id, or is refused and nothing changes. Refused with 13: settings. With 17: the state. With 1: a store of
    // another length than 12,288, a unit over 65,528 bytes. With 14: a unit that is empty or over 4,096, an id over 2. With 15: no room.
    pub fn load(self, settings: Settings, store: &mut [u8], id: usize, unit: &[u8]) -> Loaded
        ensures answer { result ≡ ring_load_for settings self id unit.now store.old }
        ensures memory { store.new ≡ ring_store_for settings self id unit.now store.old }
    {
        let n = unit.len();
        if let Err(why) = self.load_check(settings, id, n, store.len()) {
            return self.keeping(why);
        }
        let mut entered = self;
        let q = entered.q[id];
        let bytes = q.unsent();
        if is_full(q, n, bytes) {
            return self.keeping(Refusal::NoRoom);
        }
        let start = entered.start[id];
        put_in(unit, store, id, behind(start, bytes));
        shape(self);
        let r = q.pushed(n as u16);
        entered.q[id] = r;
        entered.waiting[id] += queue::packets(settings.p as u8, n as u16);
        Loaded {
            number: 0,
            next: entered,
        }
    }

    // Whether a frame is refused.
    fn frame_check(self, settings: Settings, room: usize, size: usize) -> Result<(), Refusal>
        ensures { number_in result ≡ refused_with (ring_frame_tests settings self room size) }
    {
        settings.check()?;
        if self.is_faulty(settings.p as u8) {
            return Err(Refusal::BadState);
        }
        if room != 12288 || size < settings.n * (settings.p + 3) {
            return Err(Refusal::Size);
        }
        Ok(())
    }

    // n packets of queue id, from index at of the frame on.
    fn row_at(self, p: u8, id: usize, n: usize, store: &[u8], out: &mut [u8], at: usize) -> Out
        requires { (id < 3) × Ready p (front_of self) (length store.now) × (at + n * (p + 3) ≤ length out.old) }
        ensures value { result ≡ end_of p (front_of self) id n }
        ensures out_after { out.new ≡ written out.old at (row_at p (front_of self) (unrolled self.start store.now) id n) }
    {
        let q = self.q[id];
        let index = self.index[id];
        let start = self.start[id];
        let b = id * 4096;
        row::row(
            q,
            index,
            p,
            id as u8,
            n,
            &store[b..b + 4096],
            start as usize,
            &mut out[at..],
        )
    }

    // n null packets, and the index of the next one. An empty queue with id 3 sends just these; of the store it reads nothing.
    fn filler_at(self, p: u8, n: usize, store: &[u8], out: &mut [u8], at: usize) -> u8
        requires { Ready p (front_of self) (length store.now) × (at + n * (p + 3) ≤ length out.old) }
        ensures value { result ≡ (index_of (front_of self) 3 + n) % 8 }
        ensures out_after { out.new ≡ written out.old at (nulls p (index_of (front_of self) 3) n) }
    {
        let q = Queue::fresh();
        let index = self.index[3];
        let o = row::row(q, index, p, 3, n, &store[0..4096], 0, &mut out[at..]);
        o.index
    }

    // The whole frame.
    fn write_rows(self, p: u8, n: Three, filler: usize, store: &[u8], out: &mut [u8]) -> Ends
        requires { Ready p (front_of self) (length store.now) × ((total n + filler) * (p + 3) ≤ length out.old) }
        ensures value { result ≡ ends_of p (front_of self) n filler }
        ensures out_after { out.new ≡ written out.old 0 (frame_packets p (front_of self) (unrolled self.start store.now) n filler) }
    {
        let w = p as usize + 3;
        let e0 = n.a * w;
        let e1 = e0 + n.b * w;
        let e2 = e1 + n.c * w;
        let a = self.row_at(p, 0, n.a, store, out, 0);
        let b = self.row_at(p, 1, n.b, store, out, e0);
        let c = self.row_at(p, 2, n.c, store, out, e1);
        let index = self.filler_at(p, filler, store, out, e2);
        Ends {
            a: a,
            b: b,
            c: c,
            index: index,
        }
    }

    // The frame, handed out by the stored counts; or why there is none, and nothing is written.
    fn try_frame(self, settings: Settings, store: &[u8], out: &mut [u8]) -> Result<Framed, Refusal>
        ensures answer { framed_in self result ≡ ring_frame_for settings self store.now out.old }
        ensures output { out.new ≡ ring_frame_out settings self store.now out.old }
    {
        self.frame_check(settings, store.len(), out.len())?;
        shape(self);
        let w = three(self.waiting);
        let h = settings.hand_out(w, self.turn)?;
        let e = self.write_rows(settings.p as u8, h.packets, h.filler, store, out);
        let Front { q, turn, index } = next_state(e, h.turn);
        let waiting = less(w, h.packets);
        let start = on(three(self.start), e);
        let next = Sender {
            q,
            turn,
            index,
            waiting,
            start,
        };
        Ok(Framed {
            number: 0,
            next,
            packets: h.packets,
            spares: h.spares,
            filler: h.filler,
        })
    }

    // Writes a frame to the front of the output, or is refused and nothing changes; the store is only read. Refused with 13: settings. With
    // 17: the state. With 1: a store of another length than 12,288. Last with 1: an output under N (p + 3) bytes.
    pub fn frame(self, settings: Settings, store: &[u8], out: &mut [u8]) -> Framed
        ensures answer { result ≡ ring_frame_for settings self store.now out.old }
        ensures output { out.new ≡ ring_frame_out settings self store.now out.old }
    {
        match self.try_frame(settings, store, out) {
            Ok(framed) => framed,
            Err(why) => Framed {
                number: why.number(),
                next: self,
                packets: Three::default(),
                spares: 0,
                filler: 0,
            },
        }
    }
}
