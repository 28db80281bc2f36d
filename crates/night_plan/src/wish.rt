// The arguments: the numbers of the plan, in the order of their places. scripts/demo.sh makes them of names, and says what is wrong with
// one; here what is no number counts as 0, which the sender refuses where it matters.
ghost use Rattle.std.specs.Prelude.{◌≤◌};

use crate::Plan;
use std::rt::Env;

// The places of the arguments; of what each queue has, that of queue 0. scripts/wishes.sh holds the names against them.
const P: usize = 1;

const N: usize = 2;

const SHARE: usize = 3;

const CEILING: usize = 6;

const SIZE: usize = 9;

const EVERY: usize = 12;

const FILES: usize = 13;

const FRAMES: usize = 14;

const LOSE: usize = 15;

// Digits alone: a sign is no number here.
fn number_in(text: &str) -> usize {
    if text.bytes().all(|b| b.is_ascii_digit()) {
        text.parse().unwrap_or(0)
    } else {
        0
    }
}

// A longer argument than six characters is read as none.
fn argument(rt: &impl Env, place: usize) -> usize {
    let mut word = [0u8; 6];
    let Ok(n) = rt.arg(place, &mut word) else {
        return 0;
    };
    str::from_utf8(&word[..n]).map_or(0, number_in)
}

fn of_queues(rt: &impl Env, place: usize) -> [usize; 3]
    requires { place ≤ 15 }
{
    [
        argument(rt, place),
        argument(rt, place + 1),
        argument(rt, place + 2),
    ]
}

// The plan of the night.
pub fn arguments(rt: &impl Env) -> Plan {
    Plan {
        p: argument(rt, P),
        n: argument(rt, N),
        share: of_queues(rt, SHARE),
        ceiling: of_queues(rt, CEILING),
        size: of_queues(rt, SIZE),
        every: argument(rt, EVERY),
        files: argument(rt, FILES),
        frames: argument(rt, FRAMES),
        lose: argument(rt, LOSE),
    }
}
