// The steps of a script of calls 35 to 37 (docs/CASES.md), one behind the other, each handed what the last one left.
#![tactic(auto)]

use stream_values::Run;

// Kept: a match on the number of a case (docs/CASES.md): each arm has arguments of its own, so no closure could stand for all.
fn step(r: Run, call: u8, body: &[u8], one: &mut [u8], two: &mut [u8]) -> Option<Run> {
    match call {
        35 => stream_sending::send(r, body, one, two),
        36 => stream_hearing::hear(r, body, one),
        _ => stream_hearing::pass(r, body, one, two),
    }
}

// None where a step is none.
pub fn play(
    first: Run,
    call: u8,
    steps: u8,
    body: &[u8],
    one: &mut [u8],
    two: &mut [u8],
) -> Option<Run> {
    let mut r = first;
    for _ in 0..steps {
        r = step(r, call, body, one, two)?;
    }
    Some(r)
}
