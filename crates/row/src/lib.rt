// The packets of one queue in a frame, one behind the other (01, "Packets, queues and receiver"), read from a ring (02, E9).
#![tactic(auto)]

ghost use Rattle.std.specs.Prelude.{◌≡◌, ◌+◌, ◌*◌, ◌≤◌, ◌<◌, ltb, length, get_or, take};
ghost use Rattle.laws.specs.Pick.{pick};
ghost use Rattle.laws.specs.Written.{written};
ghost use Rattle.packet.specs.Calls.{out_for};
ghost use Rattle.packet.specs.Packet.{packet_of};
ghost use Rattle.queue.specs.Queue.{units};
ghost use Rattle.ring.specs.Ring.{turned, ahead};
ghost use Rattle.row.specs.Row.{stepped, packet_at, steps, outs, fits, row_for, row_out};
ghost use Rattle.row.specs.Private.{InRegion};

use queue::Queue;

// Where the writing of a queue's packets stands: what is left, how many of its bytes are read, and the next index.
#[derive(Clone, Copy)]
pub struct Out {
    pub q: Queue,
    pub at: usize,
    pub index: u8,
}

// The start of a ring of size bytes: one past its end is its front.
fn within(size: usize, start: usize) -> usize
    ensures { (result ≡ pick (ltb size start) 0 start) × (result ≤ size) }
{
    if size < start { 0 } else { start }
}

// The place a bytes on from the start of a ring of size bytes.
fn place(size: usize, start: usize, a: usize) -> usize
    requires { (start ≤ size) × (a ≤ size) }
    ensures { (result ≡ ahead size start a) × (result ≤ size) }
{
    let k = size - start;
    if a < k {
        return start + a;
    }
    a - k
}

// A packet whose n useful bytes stand in the ring from place at on: all that is read of a ring. Straight from it, but where they go
// around its end: then they are put together first.
fn write_from(
    p: usize,
    first: bool,
    last: bool,
    id: u8,
    index: u8,
    ring: &[u8],
    at: usize,
    n: usize,
    dst: &mut [u8],
)
    requires { (at ≤ length ring.now) × (n ≤ length ring.now) × (n ≤ 255) }
    ensures { dst.new ≡ out_for p (packet_of first last id index (take n (turned at ring.now))) dst.old }
{
    if n <= ring.len() - at {
        let _ = packet::write(p, first, last, id, index, &ring[at..at + n], dst);
        return;
    }
    let mut body = [0u8; 255];
    ring::copy_out(ring, at, n, &mut body);
    let _ = packet::write(p, first, last, id, index, &body[0..n], dst);
}

// The bytes left of the first unit; 0 where there is none, whatever stands behind the count.
fn first_left(q: Queue) -> u16
    ensures { result ≡ get_or (units q) 0 0 }
{
    if q.count == 0 {
        return 0;
    }
    q.left[0]
}

// The next packet, read from the ring.
fn step_out(o: Out, p: u16, id: u8, ring: &[u8], start: usize, dst: &mut [u8]) -> Out
    requires { InRegion p o (length ring.now) × (start ≤ length ring.now) × (id < 4) × (1 ≤ p) × (p ≤ 255) × (length dst.old ≡ p + 3) }
    ensures value { result ≡ stepped p o }
    ensures dst_after { dst.new ≡ packet_at p id (turned start ring.now) o }
{
    let Out { q, at, index } = o;
    let x = first_left(q);
    let w = usize::from(p);
    let n = q.head_len(w);
    let from = place(ring.len(), start, at);
    write_from(w, q.sent == 0, x <= p, id, index, ring, from, n, dst);
    Out {
        q: q.pop(p),
        at: at + n,
        index: (index + 1) % 8,
    }
}

// Whether there is such a row: p, id and index within their bits, a queue without the faults of refusal 17, no more unsent bytes than
// the ring has, and room for n packets.
fn is_fit(q: Queue, index: u8, p: u8, id: u8, n: usize, room: usize, size: usize) -> bool
    ensures { result ≡ fits p id n q index room size }
{
    if p == 0 || 3 < id || 7 < index || q.is_broken(p) || room < q.unsent() {
        return false;
    }
    n <= size / (usize::from(p) + 3)
}

// The next n packets of a queue, to the front of dst.
fn write_row(o: Out, p: u16, id: u8, n: usize, ring: &[u8], start: usize, dst: &mut [u8]) -> Out
    requires { InRegion p o (length ring.now) × (start ≤ length ring.now) × (id < 4) × (1 ≤ p) × (p ≤ 255) × (n * (p + 3) ≤ length dst.old) }
    ensures value { result ≡ steps p n o }
    ensures dst_after { dst.new ≡ written dst.old 0 (outs p id (turned start ring.now) n o) }
{
    let w = usize::from(p) + 3;
    let mut r = o;
    let mut at = 0;
    for _ in 0..n {
        r = step_out(r, p, id, ring, start, &mut dst[at..at + w]);
        at += w;
    }
    r
}

// The same, for any ring, in which the unsent bytes of the queue stand from place start on and around its end; a start past its end is
// its front. Where there is no such row, nothing is written and the queue stays as it is.
pub fn row(
    q: Queue,
    index: u8,
    p: u8,
    id: u8,
    n: usize,
    ring: &[u8],
    start: usize,
    dst: &mut [u8],
) -> Out
    ensures value { result ≡ row_for p id n q index (length ring.now) (length dst.old) }
    ensures dst_after { dst.new ≡ row_out p id n q index (turned start ring.now) dst.old }
{
    let o = Out { q, at: 0, index };
    if !is_fit(q, index, p, id, n, ring.len(), dst.len()) {
        return o;
    }
    let from = within(ring.len(), start);
    write_row(o, p as u16, id, n, ring, from, dst)
}
