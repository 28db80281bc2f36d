// Calls 30 to 32 of docs/CASES.md: one data packet. Nothing here decides an answer.
#![tactic(auto)]

use cases::case;
use packet::Head;
use refusal::Refusal;
use saying::Said;

// p stands at the front of each of these bodies.
fn p_in(body: &[u8]) -> usize {
    fields::read64(body, 0) as usize
}

pub fn packet_check(body: &[u8], s: &[u8]) -> Said {
    let (number, ()) = saying::numbered(packet::check(p_in(body), s));
    saying::begin(number, 0)
}

fn told(answer: Result<Head, Refusal>) -> Said {
    let (number, h) = saying::numbered(answer);
    let said = saying::begin(number, 0);
    let said = saying::three(said, h.first as u64, h.last as u64, h.id as u64);
    saying::three(said, h.padded as u64, h.index as u64, h.length as u64)
}

// What the packet says, and its useful bytes.
pub fn packet_read(body: &[u8], out: &mut [u8]) -> usize {
    let mut room = [0u8; case::BUFFER];
    let taken = case::buffer(body, 8, &mut room);
    let s = case::front(&room, taken.map_or(0, |t| t.len));
    let p = p_in(body);
    let said = saying::only_if(Some(told(packet::read(p, s))), case::ends(taken, body));
    saying::lent(out, said, packet::useful(p, s))
}

pub fn packet_write(body: &[u8], useful: &[u8], dst: &mut [u8]) -> Said {
    let first = case::byte(body, 8) != 0;
    let last = case::byte(body, 9) != 0;
    let id = case::byte(body, 10);
    let index = case::byte(body, 11);
    let done = packet::write(p_in(body), first, last, id, index, useful, dst);
    let (number, length) = saying::numbered(done);
    saying::one(number, length as u64)
}
