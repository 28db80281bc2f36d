// Units offered to the sender, and whether the night can be run.
use night_book::Book;
use night_plan::{MAPS, NEWS, STATIONS};
use sender::{Loaded, Sender};

// The next unit of a queue.
pub(crate) fn offer(book: &Book, sender: Sender, id: usize, store: &mut [u8]) -> Loaded {
    let plan = &book.plan;
    let mut room = [0u8; 4096];
    plan.make(id, book.units[id % 3].loaded, &mut room);
    let unit = room.get(..plan.size(id)).unwrap_or_default();
    sender.load(plan.settings(), store, id, unit)
}

// The first number that the library gives the settings and the units, each tried on a fresh sender; 0 where it takes all.
fn number(book: &Book, store: &mut [u8]) -> u32 {
    for id in [NEWS, MAPS, STATIONS] {
        let number = offer(book, Sender::fresh(), id, store).number;
        if number != 0 {
            return number;
        }
    }
    0
}

// The night can be run; where it cannot, a sentence says why.
pub(crate) fn is_fit(rt: &impl Print, book: &Book, store: &mut [u8]) -> bool {
    let number = number(book, store);
    night_book::refuse(rt, number as usize);
    number == 0
}
