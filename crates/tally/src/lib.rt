// What the program `inspect` counts over a recording (01, "Clock and recordings"): packets, by the number that reading gave, breaks in the
// succession, and the first and the last timestamp.
#![tactic(auto)]

ghost use Rattle.std.specs.Prelude.{◌≡◌};
ghost use Rattle.tally.specs.Tally.{no_tally, more_for, counted_for};

use clock::Stamp;
use mdi::Answer;

// `numbers` has for each number that `mdi::read` gives, 0 to 11, how many packets got it: 0 is a packet that was read. Counts wrap at 2^64.
#[derive(Clone, Copy)]
pub struct Tally {
    pub packets: u64,
    pub numbers: [u64; 12],
    pub breaks: u64,
    pub first: Option<Stamp>,
    pub last: Option<Stamp>,
}

// Before the first packet.
pub fn none() -> Tally
    ensures { result ≡ no_tally }
{
    Tally {
        packets: 0,
        numbers: [0; 12],
        breaks: 0,
        first: None,
        last: None,
    }
}

fn more(n: u64, one: bool) -> u64
    ensures { result ≡ more_for n one }
{
    if one {
        return std::num::wrapping_add_u64(n, 1);
    }
    n
}

// One packet more, and whether it broke the succession. A refused packet has no timestamp.
pub fn count(t: Tally, a: Answer, broke: bool) -> Tally
    ensures { result ≡ counted_for t a broke }
{
    let mut numbers = t.numbers;
    let i = (a.number % 12) as usize;
    numbers[i] = std::num::wrapping_add_u64(numbers[i], 1);
    let c = a.content;
    let time = c.time;
    let first = t.first.or(time);
    let last = time.or(t.last);
    let breaks = more(t.breaks, broke);
    Tally {
        packets: std::num::wrapping_add_u64(t.packets, 1),
        numbers,
        breaks,
        first,
        last,
    }
}
