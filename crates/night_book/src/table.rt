// The table that is printed: a line for some frames together, and the lines at the end. What cannot be written is let go.
use crate::{Book, Units};
use night_plan::{MAPS, NEWS, over};

// The lines of a night, about.
const LINES: usize = 20;

// The characters of a bar; rounding adds three at most.
const BAR: usize = 12;

// A character n times.
fn repeat(rt: &impl Print, c: char, n: usize) {
    for _ in 0..n {
        let _ = print!(rt; "{c}");
    }
}

// The plural's letter.
fn s(n: usize) -> &'static str {
    if n == 1 { "" } else { "s" }
}

// How long a page waited, and how long it may: a share of 0 promises nothing.
fn print_wait(rt: &impl Print, n: usize, bound: usize) {
    let s = s(n);
    let _ = if bound == 0 {
        println!(rt; "{n} frame{s}, nothing promised (share 0)")
    } else {
        println!(rt; "{n} frame{s}, promised at most {bound}")
    };
}

// Why a night cannot be run: the number that the sender gives its settings or its units. 0 says nothing.
pub fn refuse(rt: &impl Print, number: usize) {
    let _ = match number {
        0 => Ok(()),
        13 => print!(rt;
            "night: the settings are refused (13). Their limits: p from 1 to 255; n from 1,
with n(p+3) at most 8190; each share at most its ceiling; each ceiling from 1
to n; the three shares together at most n.
"
        ),
        _ => println!(rt;
            "night: a unit is refused ({number}). It has from 1 to 4096 bytes: news, map, station."
        ),
    };
}

impl Book {
    // The number of the frame, and the wall clock. The hour from two to three comes twice: A in summer time, B in winter time. What is over
    // four hours belongs to the last.
    fn print_stamp(&self, rt: &impl Print) {
        let n = self.frame;
        let frame = n.wrapping_sub(1);
        let hour = self.plan.hour();
        let name = match frame.checked_div(hour) {
            None | Some(0) => " 1",
            Some(1) => "2A",
            Some(2) => "2B",
            Some(_) => " 3",
        };
        let minute = self.minute(frame, hour);
        let _ = print!(rt; "{n:5}  {name}:{minute:02}  ");
    }

    // Minutes of an hour by the wall clock.
    fn minute(&self, frame: usize, hour: usize) -> usize {
        match frame.checked_rem(hour) {
            None => 0,
            Some(rest) => rest % 1000000 * 60 / hour,
        }
    }

    // The job's start, where it is two o'clock by the wall clock.
    pub(crate) fn print_start(&self, rt: &impl Print) {
        let hour = self.plan.hour();
        let files = self.plan.files;
        if self.frame == hour.wrapping_add(1) {
            self.print_stamp(rt);
            let _ = println!(rt; "two o'clock: the job starts, {files} map files");
        }
        if self.frame == hour.wrapping_mul(2).wrapping_add(1) {
            self.print_stamp(rt);
            let _ = println!(rt;
                "two o'clock again: the job starts again, the same {files} map files"
            );
        }
    }

    // A news page is delivered.
    pub(crate) fn print_page(&self, rt: &impl Print, k: usize, n: usize, bound: usize) {
        self.print_stamp(rt);
        let _ = print!(rt; "news page {k} delivered: waited ");
        print_wait(rt, n, bound);
    }

    // The packets of a frame that a character of the bar stands for, so that a line fits on a screen.
    pub(crate) fn grain(&self) -> usize {
        over(self.plan.n, BAR)
    }

    // A line is due after this frame.
    pub(crate) fn is_line_due(&self) -> bool {
        self.frame.checked_rem(over(self.plan.frames, LINES)) == Some(0)
    }

    pub(crate) fn print_line(&self, rt: &impl Print) {
        self.print_stamp(rt);
        let [a, b, c, filler] = self.line.sent;
        let _ = print!(rt; "{a:6}{b:6}{c:6}{filler:6} ");
        let [a, b, c] = self.line.waiting;
        let _ = print!(rt; "{a:5}{b:5}{c:5}{:8}  ", self.line.dropped);
        let [a, b, c, filler] = self.line.bar;
        repeat(rt, '0', a);
        repeat(rt, '1', b);
        repeat(rt, '2', c);
        repeat(rt, '.', filler);
        let _ = println!(rt; "");
    }

    pub fn head(&self, rt: &impl Print) {
        let files = self.plan.files;
        let _ = print!(rt;
            "The Sunday with two two-o'clocks. Three queues share one stream of packets:
0 news pages, 1 map files, 2 station data; a dot is filler. The job that loads
the {files} map files starts at two o'clock, and so it starts twice.
"
        );
        let grain = self.grain();
        if 1 < grain {
            let _ = println!(rt; "A character of the bar stands for up to {grain} packets.");
        }
        let _ = print!(rt;
            "
                packets sent of queue  packets waiting   bytes  the last frame,
frame  time        0     1     2  fill     0    1    2 dropped  packet by packet
"
        );
    }

    // The packets that did not reach the receiver.
    fn lost_packets(&self) -> usize {
        self.passed.checked_div(self.plan.lose).unwrap_or(0)
    }

    // The units that were wholly sent and did not come out of the receiver; one that is not wholly sent when the night ends is none of
    // these, whatever it has lost so far.
    fn lost_units(&self) -> usize {
        let mut lost: usize = 0;
        for units in &self.units {
            lost = lost.wrapping_add(units.next).wrapping_sub(units.delivered);
        }
        lost
    }

    // What did not come through, and what the receiver dropped of it.
    fn print_losses(&self, rt: &impl Print) {
        let packets = self.lost_packets();
        let units = self.lost_units();
        let dropped = self.dropped;
        let _ = print!(rt;
            "packets lost on the way: {packets}, units lost with them: {units}
bytes dropped by the receiver: {dropped}
"
        );
    }

    // The line of the news pages.
    fn print_pages(&self, rt: &impl Print) {
        let delivered = self.units[NEWS].delivered;
        if delivered == 0 {
            let _ = println!(rt; "news pages: none delivered");
            return;
        }
        let late = self.late;
        let _ = print!(rt; "news pages: {delivered} delivered, {late} late, longest wait ");
        print_wait(rt, self.longest, self.promise);
    }

    pub fn end(&self, rt: &impl Print) {
        let Units {
            loaded,
            delivered,
            ..
        } = self.units[MAPS];
        let left = self.plan.came(MAPS, self.frame).wrapping_sub(loaded);
        let no_room = self.no_room;
        let changed = self.changed;
        let _ = print!(rt;
            "
map files: {delivered} delivered, {loaded} loaded, {left} still to load
units refused for want of room (15) and offered again: {no_room}
units that came back changed: {changed}
"
        );
        self.print_losses(rt);
        self.print_pages(rt);
    }
}
