// The sending side of the night: what is due is loaded, the sender makes a frame, and the table gets its lines.
use crate::fit;
use night_book::Book;
use sender::Sender;

// The packets that wait in each queue, as the state has them (02, E1): nothing is added up.
fn waiting(sender: &Sender) -> [usize; 3] {
    sender.waiting.map(usize::from)
}

// A unit of the queue is due, and none was refused before this frame.
fn is_due(book: &Book, id: usize) -> bool {
    let units = book.units[id % 3];
    units.loaded < book.plan.came(id, book.frame) && units.refused != book.frame
}

// The next unit of a queue, where one is due. Where there is no room (15) nothing is changed, and it is tried again before the next frame.
fn load(sender: &mut Sender, book: &mut Book, id: usize, store: &mut [u8]) {
    if !is_due(book, id) {
        return;
    }
    let done = fit::offer(book, *sender, id, store);
    *sender = done.next;
    book.note(id, done.number, waiting(sender)[id % 3]);
}

// What is due in each queue, until a unit finds no room: no more than eight are ever unfinished, so that the ninth of a queue finds none.
fn load_all(sender: &mut Sender, book: &mut Book, store: &mut [u8]) {
    for id in 0..3 {
        for _ in 0..9 {
            load(sender, book, id, store);
        }
    }
}

// What is due is loaded, and the frame written.
pub(crate) fn send(
    rt: &impl Print,
    sender: &mut Sender,
    book: &mut Book,
    store: &mut [u8],
    out: &mut [u8],
) {
    book.begin(rt);
    load_all(sender, book, store);
    let done = sender.frame(book.plan.settings(), store, out);
    *sender = done.next;
    book.count(done.packets, done.filler);
}

// The end of a frame, with the units that are not wholly sent and the packets that wait now.
pub(crate) fn end(rt: &impl Print, sender: &Sender, book: &mut Book) {
    book.settle(sender.q.map(|queue| queue.count));
    book.end_frame(rt, waiting(sender));
}
