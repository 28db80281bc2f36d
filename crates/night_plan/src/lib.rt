// What the night is: the settings of the stream, the units and when they are due.
#![tactic(auto)]

mod wish;

use hand::{Settings, Three};
pub use wish::arguments;

// The queues, by id.
pub const NEWS: usize = 0;

pub const MAPS: usize = 1;

pub const STATIONS: usize = 2;

// The plan, in the order of the program's arguments; what each queue has stands in an array, by id.
#[derive(Clone, Copy)]
pub struct Plan {
    // data bytes of a packet
    pub p: usize,
    // packets of a frame
    pub n: usize,
    pub share: [usize; 3],
    pub ceiling: [usize; 3],
    // bytes of a unit
    pub size: [usize; 3],
    // frames from one news page to the next
    pub every: usize,
    // map files of the job
    pub files: usize,
    // frames of the night
    pub frames: usize,
    // packets `lose`, 2 `lose`, 3 `lose` and so on of the stream, counted with filler, do not reach the receiver; 0: all do
    pub lose: usize,
}

// x over n, rounded up; 0 where n is 0.
pub fn over(x: usize, n: usize) -> usize {
    if n == 0 { 0 } else { x.div_ceil(n) }
}

// Units of a queue that became due before the first n frames, one every so many frames, the first before the first.
fn spread(n: usize, every: usize) -> usize {
    if every == 0 { 1 } else { over(n, every) }
}

// Map files that became due before the first n frames: the job that loads them starts at two o'clock, and so it starts twice.
fn started(n: usize, hour: usize, files: usize) -> usize {
    if n <= hour {
        0
    } else if n <= hour.wrapping_mul(2) {
        files
    } else {
        files.wrapping_mul(2)
    }
}

fn three(numbers: [usize; 3]) -> Three {
    let [a, b, c] = numbers;
    Three { a, b, c }
}

// The byte at a place of those that all units are cut from.
fn byte(i: usize) -> u8 {
    (i % 1048576 * 2654435769 / 16777216 % 256) as u8
}

impl Plan {
    pub fn settings(&self) -> Settings {
        Settings {
            p: self.p,
            n: self.n,
            share: three(self.share),
            ceiling: three(self.ceiling),
        }
    }

    // Frames of an hour: the night has four, the second and third of which begin at two o'clock.
    pub fn hour(&self) -> usize {
        (self.frames / 4).max(1)
    }

    // Units of a queue that became due before the first n frames.
    pub fn came(&self, id: usize, n: usize) -> usize {
        match id {
            MAPS => started(n, self.hour(), self.files),
            NEWS => spread(n, self.every),
            _ => spread(n, 6),
        }
    }

    pub fn size(&self, id: usize) -> usize {
        self.size[id % 3]
    }

    // Where unit k of a queue begins among the bytes that all are cut from. The map files are the same ones again in the second start.
    fn start(&self, id: usize, k: usize) -> usize {
        let k = if id == MAPS && self.files != 0 {
            k % self.files
        } else {
            k
        };
        k % 85 * 3
    }

    // The bytes of unit k of a queue, as many as there is room.
    pub fn make(&self, id: usize, k: usize, room: &mut [u8]) {
        let start = self.start(id, k);
        for (i, b) in room.iter_mut().enumerate() {
            *b = byte(start.wrapping_add(i));
        }
    }

    // These bytes are unit k of a queue.
    pub fn is_unit(&self, id: usize, k: usize, s: &[u8]) -> bool {
        let start = self.start(id, k);
        s.len() == self.size(id)
            && s.iter()
                .enumerate()
                .all(|(i, b)| *b == byte(start.wrapping_add(i)))
    }
}
