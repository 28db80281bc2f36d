// Answers cases on standard input through the library, in the framing of docs/CASES.md. The second program, in reference/, answers the
// same cases from the documents alone, and the two are compared. Nothing here decides an answer: each group of calls is a library answer_*.
#![tactic(auto)]

use cases::input::{self, Case};
use cases::{answer, case};
use std::io::Read;

// The answer to one case, at the front of out. What is no call of docs/CASES.md is none of the simple ones either, and answered so.
// Kept: a match on the number of a case (docs/CASES.md); in a table of functions the same numbers and names would stand, and a search.
fn answer_to(call: u8, body: &[u8], out: &mut [u8]) -> usize {
    match call {
        16 => answer_frame::answer(call, body, out),
        17 => answer_cut::answer(call, body, out),
        35..=37 => answer_stream::answer(call, body, out),
        40 | 41 => answer_mdi::answer(call, body, out),
        42 | 45 => answer_mdi_write::answer(call, body, out),
        _ => answer_simple::answer(call, body, out),
    }
}

// Reads a case and writes its answer. False where no further case can be read.
fn answer_next(rt: &impl Print, source: &mut impl Read, body: &mut [u8], out: &mut [u8]) -> bool {
    match input::next(source, body) {
        Ok(Some(Case { call, size })) => {
            let n = answer_to(call, case::front(body, size), out);
            rt.write_all(case::front(out, n)).is_ok()
        }
        Ok(None) => false,
        Err(_) => {
            let n = answer::none(out);
            let _ = rt.write_all(case::front(out, n));
            false
        }
    }
}

// A proved loop has to end, and nothing says that the input does. So the loop has a number of turns that no run uses up.
// It takes arrays, and not slices: a proof need not count their bytes.
fn answer_all(
    rt: &impl Print,
    source: &mut impl Read,
    body: &mut [u8; 524288],
    out: &mut [u8; 4096],
) {
    for _ in 0..u64::MAX {
        if !answer_next(rt, source, body, out) {
            break;
        }
    }
}

fn main(rt: HostRuntime) {
    let mut body = [0u8; case::BODY];
    let mut out = [0u8; case::ANSWER];
    answer_all(&rt, &mut rt.stdin(), &mut body, &mut out);
}
