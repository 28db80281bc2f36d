// What is written down along the night, and printed. What each queue has stands in an array, by id; what filler has too, behind it.
#![tactic(auto)]

mod table;

ghost use Rattle.std.specs.Prelude.{◌≡◌};

use hand::Three;
use night_plan::{Plan, over};
pub use table::refuse;

// Of a queue's units.
#[derive(Clone, Copy, Default)]
pub struct Units {
    pub loaded: usize,
    // the frame before which one was last refused
    pub refused: usize,
    pub delivered: usize,
    // the first unit that may still come: those before it came or are lost
    pub next: usize,
}

// What a line of the table shows.
#[derive(Clone, Copy, Default)]
pub struct Line {
    // packets since the last line
    pub sent: [usize; 4],
    // packets that wait
    pub waiting: [usize; 3],
    // bytes dropped since the last line
    pub dropped: usize,
    // the bar of the last frame
    pub bar: [usize; 4],
}

// Of a news page that is loaded: the frame before which it was, and the frames promised.
#[derive(Clone, Copy, Default)]
pub struct Page {
    pub since: usize,
    pub bound: usize,
}

#[derive(Clone, Copy)]
pub struct Book {
    pub plan: Plan,
    // the frame that is made, counted from 1
    pub frame: usize,
    pub units: [Units; 3],
    // refusals for want of room
    pub no_room: usize,
    // units that came back changed
    pub changed: usize,
    // packets of the stream so far, filler among them
    pub passed: usize,
    pub line: Line,
    // bytes dropped in all of the night
    pub dropped: usize,
    // of the news pages: those that came late, the longest wait and its promise
    pub late: usize,
    pub longest: usize,
    pub promise: usize,
    // By the page's number modulo 8. Page k + 8 is loaded only when page k is wholly sent, since at most eight are unfinished; and a page
    // comes in the frame in which it is wholly sent, or never. So losses make no page late, and its two numbers still stand here when it
    // comes.
    pub page: [Page; 8],
}

impl Book {
    // Before the first frame.
    pub fn new(plan: Plan) -> Book
        ensures plan { result.plan ≡ plan }
        ensures frame { result.frame ≡ 0 }
    {
        Book {
            plan,
            frame: 0,
            units: [Units::default(); 3],
            no_room: 0,
            changed: 0,
            passed: 0,
            line: Line::default(),
            dropped: 0,
            late: 0,
            longest: 0,
            promise: 0,
            page: [Page::default(); 8],
        }
    }

    // The packets of a frame: counted, and as so many characters of the bar.
    pub fn count(&mut self, packets: Three, filler: usize) {
        let grain = self.grain();
        let counts = [packets.a, packets.b, packets.c, filler];
        for (i, n) in counts.into_iter().enumerate() {
            self.line.bar[i] = over(n, grain);
            self.line.sent[i] = self.line.sent[i].wrapping_add(n);
        }
    }

    // The next frame: its number, and the job's start.
    pub fn begin(&mut self, rt: &impl Print) {
        self.frame = self.frame.wrapping_add(1);
        self.print_start(rt);
    }

    // The line of the table, where one is due after a frame, with the packets that wait in each queue; the sums begin anew.
    pub fn end_frame(&mut self, rt: &impl Print, waiting: [usize; 3]) {
        if !self.is_line_due() {
            return;
        }
        self.line.waiting = waiting;
        self.print_line(rt);
        self.line.sent = [0; 4];
        self.line.dropped = 0;
    }

    // The number that the next unit of a queue got, and the packets that wait in the queue now: the unit is loaded, or there was no room.
    pub fn note(&mut self, id: usize, number: u32, waiting: usize) {
        let units = &mut self.units[id % 3];
        if number != 0 {
            units.refused = self.frame;
            self.no_room = self.no_room.wrapping_add(1);
            return;
        }
        let k = units.loaded;
        units.loaded = k.wrapping_add(1);
        // With a share of s the page is wholly sent within waiting/s frames, rounded up, its own packets counted.
        if id == night_plan::NEWS {
            self.page[k % 8] = Page {
                since: self.frame,
                bound: over(waiting, self.plan.share[night_plan::NEWS]),
            };
        }
    }

    // Page k is delivered: the frames from its loading on count, both among them. A share of 0 promises nothing.
    fn close_page(&mut self, rt: &impl Print, k: usize) {
        let Page { since, bound } = self.page[k % 8];
        let wait = self.frame.wrapping_add(1).wrapping_sub(since);
        self.print_page(rt, k.wrapping_add(1), wait, bound);
        if 0 < bound && bound < wait {
            self.late = self.late.wrapping_add(1);
        }
        if self.longest < wait {
            self.longest = wait;
            self.promise = bound;
        }
    }

    // Which unit of a queue these bytes are, of those that may still come; none where they are none of them. Only map files can be two with
    // the same bytes: then it is the earlier.
    fn find(&self, id: usize, unit: &[u8]) -> Option<usize> {
        let units = self.units[id % 3];
        (units.next..units.loaded).find(|&k| self.plan.is_unit(id, k, unit))
    }

    // A unit of a queue came out of the receiver: it is one of those loaded, or it was changed on the way, as only eight packets of an id
    // lost in a row could do it, which the receiver cannot see. A news page is shown, with its wait.
    pub fn deliver(&mut self, rt: &impl Print, id: usize, unit: &[u8]) {
        let found = self.find(id, unit);
        let units = &mut self.units[id % 3];
        units.delivered = units.delivered.wrapping_add(1);
        let Some(k) = found else {
            self.changed = self.changed.wrapping_add(1);
            return;
        };
        units.next = k.wrapping_add(1);
        if id == night_plan::NEWS {
            self.close_page(rt, k);
        }
    }

    // All packets of a frame have gone, and so many units of each queue are not wholly sent: only these, and those loaded later, may still
    // come.
    pub fn settle(&mut self, unfinished: [usize; 3]) {
        for (units, n) in self.units.iter_mut().zip(unfinished) {
            units.next = units.loaded.wrapping_sub(n);
        }
    }

    // The receiver dropped so many bytes of an open unit.
    pub fn drop_bytes(&mut self, n: usize) {
        self.line.dropped = self.line.dropped.wrapping_add(n);
        self.dropped = self.dropped.wrapping_add(n);
    }
}
