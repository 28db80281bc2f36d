// The receiver of a shared stream (01, "Packets, queues and receiver"): one packet a call. Its record is handed over and back as a value;
// the bytes of the open units stand in a buffer that is lent, 4,096 for each id.
#![tactic(auto)]

ghost use Rattle.std.specs.Prelude.{◌≡◌, ◌≤◌, ◌<◌, length, Ok, IfOk};
ghost use Rattle.refusal.specs.Refusal.{number_in};
ghost use Rattle.packet.specs.Calls.{head_in, read_for};
ghost use Rattle.receiver.specs.Answer.{answer_of, told_of, heard_of};
ghost use Rattle.receiver.specs.Link.{kept, null_of, base_of, joins, adds, link_with, link_after, broken_link};
ghost use Rattle.receiver.specs.Bytes.{dropped_bytes};
ghost use Rattle.receiver.specs.Receiver.{fresh, broken, step_number, buffer_in, buffer_for};
ghost use Rattle.receiver.specs.Dropped.{told_in, told_for, heard_for, reported, report_for};
ghost use Rattle.receiver.specs.Private.{says_with, Checked};

use packet::Head;
use refusal::Refusal;

// What is known of one id: whether a packet of it has come, the next index, whether a unit is open, and its bytes so far.
// Kept: a flag with a value beside it, since the record crosses to C.
#[repr(C)]
#[derive(Clone, Copy, Default)]
pub struct Link {
    pub heard: bool,
    pub index: u8,
    pub begun: bool,
    pub len: u16,
}

#[repr(C)]
#[derive(Clone, Copy)]
pub struct Receiver {
    pub link: [Link; 4],
}

// A unit that is complete: its bytes are the first `length` of the id's 4,096.
#[derive(Clone, Copy)]
pub struct Delivered {
    pub id: u8,
    pub length: usize,
}

// What a packet brought, the bytes of an open unit that it dropped (02, E5), and the record after the call.
#[derive(Clone, Copy)]
pub struct Told {
    pub answer: Result<Option<Delivered>, Refusal>,
    pub dropped: usize,
    pub next: Receiver,
}

// The same where the record after the call stands behind a loan.
#[derive(Clone, Copy)]
pub struct Heard {
    pub answer: Result<Option<Delivered>, Refusal>,
    pub dropped: usize,
}

// A null packet: it has both flags and no useful byte.
fn is_null(head: Head) -> bool
    ensures { result ≡ null_of head.first head.last head.length }
{
    head.first && head.last && head.length == 0
}

// An id whose last packet had this index; a unit of n bytes is open, or none is.
fn link_with(index: u8, begun: bool, n: u16) -> Link
    requires { index < 8 }
    ensures { result ≡ link_with index begun n }
{
    Link {
        heard: true,
        index: (index + 1) % 8,
        begun,
        len: if begun { n } else { 0 },
    }
}

impl Link {
    // One of the faults of refusal 17.
    fn is_broken(self) -> bool
        ensures { result ≡ broken_link self }
    {
        7 < self.index || self.begun && 4096 < self.len
    }

    // The open unit outlives the index of a packet.
    fn is_kept(self, index: u8) -> bool
        ensures { result ≡ kept self index }
    {
        self.begun && (!self.heard || index == self.index)
    }

    // The bytes of the unit before those of a packet.
    fn base(self, first: bool) -> usize
        ensures { (result ≡ base_of self first) × (result ≤ 65535) }
    {
        if first { 0 } else { usize::from(self.len) }
    }

    // A packet belongs to a unit.
    fn joins(self, head: Head) -> bool
        ensures { result ≡ joins self head.index head.first head.last head.length }
    {
        !is_null(head) && (head.first || self.is_kept(head.index))
    }

    // And its bytes are added to it.
    fn adds(self, head: Head) -> bool
        requires { head.length ≤ 255 }
        ensures { result ≡ adds self head.index head.first head.last head.length }
    {
        self.joins(head) && self.base(head.first) + head.length <= 4096
    }

    // What is known of the id after a packet.
    fn after(self, head: Head) -> Link
        requires { (head.index < 8) × (head.length ≤ 255) }
        ensures { result ≡ link_after self head.index head.first head.last head.length }
    {
        if is_null(head) {
            return link_with(head.index, self.is_kept(head.index), self.len);
        }
        if self.adds(head) && !head.last {
            let n = self.base(head.first) + head.length;
            return link_with(head.index, true, n as u16);
        }
        link_with(head.index, false, 0)
    }

    // The bytes of the open unit that a packet drops (02, E5).
    fn dropped(self, head: Head) -> usize
        requires { head.length ≤ 255 }
        ensures { result ≡ dropped_bytes self head.index head.first head.last head.length }
    {
        if !self.begun {
            return 0;
        }
        let open = usize::from(self.len);
        let all = open + head.length;
        if !self.is_kept(head.index) {
            // by its index
            open
        } else if is_null(head) {
            0
        } else if head.first {
            // by a new first packet
            open
        } else if all <= 4096 {
            0
        } else {
            // by overlength: the bytes of the packet that did not fit count too
            all
        }
    }
}

impl Receiver {
    // No packet has come.
    pub fn fresh() -> Receiver
        ensures { result ≡ fresh }
    {
        Receiver {
            link: [Link::default(); 4],
        }
    }

    // One of the faults of refusal 17, in any of the four: the packet's id is not yet known to be right.
    fn is_broken(self) -> bool
        ensures { result ≡ broken self }
    {
        let [a, b, c, d] = self.link;
        a.is_broken() || b.is_broken() || c.is_broken() || d.is_broken()
    }

    // What the header of a packet says that is not refused.
    fn accept(self, p: usize, room: usize, packet: &[u8]) -> Result<Head, Refusal>
        ensures number { number_in result ≡ step_number p self packet.now room }
        ensures head { IfOk result (λ h. head_in (Ok h) ≡ read_for p packet.now) }
    {
        if p == 0 || 255 < p {
            return Err(Refusal::BadSettings);
        }
        if self.is_broken() {
            return Err(Refusal::BadState);
        }
        if room != 16384 {
            return Err(Refusal::Size);
        }
        packet::read(p, packet)
    }

    // A packet that is not refused: what its header says, and its useful bytes.
    fn take(self, head: Head, useful: &[u8], buffer: &mut [u8]) -> Told
        requires { Checked head (length useful.now) (length buffer.old) }
        ensures value { told_of result ≡ told_in self (says_with head useful.now) }
        ensures buffer_after { buffer.new ≡ buffer_in self (says_with head useful.now) buffer.old }
    {
        let id = usize::from(head.id);
        let l = self.link[id];
        let base = l.base(head.first);
        let adds = l.adds(head);
        if adds {
            moves::copy(useful, buffer, id * 4096 + base);
        }
        let unit = Delivered {
            id: head.id,
            length: base + head.length,
        };
        let complete = adds && head.last;
        let mut next = self;
        next.link[id] = l.after(head);
        Told {
            answer: Ok(complete.then_some(unit)),
            dropped: l.dropped(head),
            next,
        }
    }

    // One packet of p + 3 bytes. Refused with 13: p outside 1 to 255. With 17: the record. With 1: a buffer of another length than 16,384,
    // a packet of another length than p + 3. With 16: the packet's check word, or its count over p - 1. Then nothing changes, and
    // nothing is dropped.
    pub fn step(self, p: usize, buffer: &mut [u8], packet: &[u8]) -> Told
        ensures answer { told_of result ≡ told_for p self packet.now (length buffer.old) }
        ensures values { reported (answer_of result.answer) result.dropped ≡ report_for p self packet.now (length buffer.old) }
        ensures memory { buffer.new ≡ buffer_for p self packet.now buffer.old }
    {
        match self.accept(p, buffer.len(), packet) {
            Ok(head) => {
                // behind the header, and behind the count where there is one
                let from = if head.padded { 2 } else { 1 };
                self.take(head, &packet[from..from + head.length], buffer)
            }
            Err(why) => Told {
                answer: Err(why),
                dropped: 0,
                next: self,
            },
        }
    }
}

// The outer call (01: "a thin outer receiver call updates the caller's four-id record through a mutable loan"). What decides is the step by value.
// One packet, as `Receiver::step` has it: answer and dropped bytes are returned, and the record after the call stands where the one before stood.
pub fn step_in(r: &mut Receiver, p: usize, buffer: &mut [u8], packet: &[u8]) -> Heard
    ensures answer { heard_of result ≡ heard_for p r.old packet.now (length buffer.old) }
    ensures values { reported (answer_of result.answer) result.dropped ≡ report_for p r.old packet.now (length buffer.old) }
    ensures state { r.new ≡ (told_for p r.old packet.now (length buffer.old)).next }
    ensures memory { buffer.new ≡ buffer_for p r.old packet.now buffer.old }
{
    let t = r.step(p, buffer, packet);
    *r = t.next;
    Heard {
        answer: t.answer,
        dropped: t.dropped,
    }
}
