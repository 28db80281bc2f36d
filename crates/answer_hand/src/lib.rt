// Calls 33 and 34 of docs/CASES.md: the settings of a shared stream, and what a frame hands out. Nothing here decides an answer.
#![tactic(auto)]

use cases::case;
use hand::{Settings, Three};
use saying::Said;

// Bytes that settings take in a body.
pub const SETTINGS: usize = 64;

fn number_at(body: &[u8], at: usize) -> usize {
    fields::read64(body, at) as usize
}

// A number for each queue, at a position of the body.
fn three_at(body: &[u8], at: usize) -> Three {
    Three {
        a: number_at(body, at),
        b: number_at(body, case::past(at, 8)),
        c: number_at(body, case::past(at, 16)),
    }
}

// The settings at a position of the body.
pub fn settings_at(body: &[u8], at: usize) -> Settings {
    let share = three_at(body, case::past(at, 16));
    let ceiling = three_at(body, case::past(at, 40));
    Settings {
        p: number_at(body, at),
        n: number_at(body, case::past(at, 8)),
        share,
        ceiling,
    }
}

pub fn settings_check(body: &[u8]) -> Said {
    let (number, ()) = saying::numbered(settings_at(body, 0).check());
    saying::begin(number, 0)
}

// The three numbers of the queues.
pub fn tell_three(said: Said, t: Three) -> Said {
    saying::three(said, t.a as u64, t.b as u64, t.c as u64)
}

pub fn hand_out(body: &[u8]) -> Said {
    let waiting = three_at(body, SETTINGS);
    let turn = number_at(body, SETTINGS + 24);
    let (number, done) = saying::numbered(settings_at(body, 0).hand_out(waiting, turn));
    let said = tell_three(saying::begin(number, 0), done.packets);
    saying::three(
        said,
        done.spares as u64,
        done.filler as u64,
        done.turn as u64,
    )
}
