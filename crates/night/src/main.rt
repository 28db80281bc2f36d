// The Sunday in October with two two-o'clocks, replayed: three queues share a stream, the map files are loaded twice, and the news
// pages come through within their promise. Nothing here decides what is sent: the sender and the receiver of the library do.
#![tactic(auto)]

mod fit;
mod send;

use night_book::Book;
use receiver::Receiver;
use sender::Sender;

// All frames of the night: the sender makes one, the receiver gets its packets.
fn play(rt: &impl Print, book: &mut Book, store: &mut [u8], buffer: &mut [u8]) {
    let mut out = [0u8; 8190];
    let mut sender = Sender::fresh();
    let mut receiver = Receiver::fresh();
    for _ in 0..book.plan.frames {
        send::send(rt, &mut sender, book, store, &mut out);
        night_hear::hear_all(rt, &mut receiver, book, &out, buffer);
        send::end(rt, &sender, book);
    }
}

fn main(rt: HostRuntime) {
    let mut store = [0u8; 12288];
    let mut buffer = [0u8; 16384];
    let mut book = Book::new(night_plan::arguments(&rt));
    if fit::is_fit(&rt, &book, &mut store) {
        book.head(&rt);
        play(&rt, &mut book, &mut store, &mut buffer);
        book.end(&rt);
    }
}
