// The hearing side of the night: each packet of a frame that is not lost to the receiver, and what it brought to the book.
#![tactic(auto)]

use night_book::Book;
use receiver::Receiver;

// A packet of the stream is lost on the way, the packets being counted from 1.
fn is_lost(book: &Book) -> bool {
    book.passed.checked_rem(book.plan.lose) == Some(0)
}

// One packet to the receiver.
fn hear(
    rt: &impl Print,
    receiver: &mut Receiver,
    book: &mut Book,
    packet: &[u8],
    buffer: &mut [u8],
) {
    let told = receiver.step(book.plan.p, buffer, packet);
    *receiver = told.next;
    book.drop_bytes(told.dropped);
    if let Ok(Some(delivered)) = told.answer {
        let id = usize::from(delivered.id % 4);
        let at = id * 4096;
        let unit = buffer
            .get(at..at.wrapping_add(delivered.length))
            .unwrap_or_default();
        book.deliver(rt, id, unit);
    }
}

// The packets of a frame, in order.
pub fn hear_all(
    rt: &impl Print,
    receiver: &mut Receiver,
    book: &mut Book,
    frame: &[u8],
    buffer: &mut [u8],
) {
    let size = book.plan.p.wrapping_add(3).max(1);
    for packet in frame.chunks(size).take(book.plan.n) {
        book.passed = book.passed.wrapping_add(1);
        if !is_lost(book) {
            hear(rt, receiver, book, packet, buffer);
        }
    }
}
