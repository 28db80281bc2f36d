// What a call says, by value: number, place and values; and how it is written down (docs/CASES.md, "An answer"). The bytes are
// compared with the second program.
#![tactic(auto)]

ghost use Rattle.std.specs.Prelude.{◌≡◌, ◌≤◌, IfOk, None};
ghost use Rattle.laws.specs.Pick.{pick};
ghost use Rattle.refusal.specs.Refusal.{number_in, placed_number_in, place_in};
ghost use Rattle.saying.specs.Values.{begun, with};

use cases::answer;
use refusal::{Refusal, Refused};

// The most values that an answer has.
const MOST: usize = 256;

// The values are the first `count`.
// Kept: a number, since it is that of an answer (docs/CASES.md), and an array with a length beside it, since the program has no heap; `begun` and
// `with` are definitions over both.
#[derive(Clone, Copy)]
pub struct Said {
    pub number: u32,
    pub place: u64,
    pub count: usize,
    pub value: [u64; MOST],
}

// What a call says that gives no values back, yet.
pub fn begin(number: u32, place: u64) -> Said
    ensures { result ≡ begun number place }
{
    Said {
        number,
        place,
        count: 0,
        value: [0; MOST],
    }
}

// Number and value of a call's answer; of a refusal the values that an answer has then (docs/CASES.md): all zeros.
pub fn numbered<T: Default + Drop>(answer: Result<T, Refusal>) -> (u32, T)
    ensures number { result.0 ≡ number_in answer }
    ensures value { IfOk answer (λ v. result.1 ≡ v) }
{
    match answer {
        Ok(value) => (0, value),
        Err(why) => (why.number(), T::default()),
    }
}

// Number, place and value, of a call whose refusals have a place.
pub fn placed<T: Default + Drop>(answer: Result<T, Refused>) -> (u32, u64, T)
    ensures number { result.0 ≡ placed_number_in answer }
    ensures place { result.1 ≡ place_in answer }
    ensures value { IfOk answer (λ v. result.2 ≡ v) }
{
    match answer {
        Ok(value) => (0, 0, value),
        Err(refused) => (refused.why.number(), refused.place, T::default()),
    }
}

// One value more.
pub fn value(s: Said, x: u64) -> Said
    ensures { result ≡ with s x }
{
    let mut next = s;
    let at = s.count % MOST;
    next.value[at] = x;
    next.count = at + 1;
    next
}

// Three values more.
pub fn three(s: Said, x: u64, y: u64, z: u64) -> Said
    ensures { result ≡ with (with (with s x) y) z }
{
    value(value(value(s, x), y), z)
}

// What a call says that gives one value back.
pub fn one(number: u32, x: u64) -> Said
    ensures { result ≡ with (begun number 0) x }
{
    value(begin(number, 0), x)
}

// The case is one only if this holds too.
pub fn only_if(s: Option<Said>, yes: bool) -> Option<Said>
    ensures { result ≡ pick yes s None }
{
    match s {
        Some(said) if yes => Some(said),
        _ => None,
    }
}

// Number, place and values, and how many buffers follow. Answers where the first of them goes.
fn tell(out: &mut [u8], s: Said, buffers: u8) -> usize
    ensures { result ≤ 2063 }
{
    let n = s.count % 257;
    answer::begin(out, s.number, s.place, (n % 256) as u8);
    for (i, &x) in s.value[..n].iter().enumerate() {
        fields::write64(out, 14 + 8 * i, x);
    }
    answer::buffers(out, 14 + 8 * n, buffers)
}

// The answer of a call that lends no buffer; of size 0 where the case was none.
pub fn alone(out: &mut [u8], s: Option<Said>) -> usize
    ensures { result ≤ 2063 }
{
    let Some(said) = s else {
        return answer::none(out);
    };
    let at = tell(out, said, 0);
    answer::end(out, at)
}

// .. of one that lends one.
pub fn lent(out: &mut [u8], s: Option<Said>, b: &[u8]) -> usize
    ensures { result ≤ 1048576 }
{
    some(out, s, 1, b, b)
}

// .. of one that lends four.
pub fn lent_four(out: &mut [u8], s: Option<Said>, a: &[u8], b: &[u8], c: &[u8], d: &[u8]) -> usize
    ensures { result ≤ 1048576 }
{
    let Some(said) = s else {
        return answer::none(out);
    };
    let at = tell(out, said, 4);
    let at = answer::buffer(out, at, a);
    let at = answer::buffer(out, at, b);
    let at = answer::buffer(out, at, c);
    let at = answer::buffer(out, at, d);
    answer::end(out, at)
}

// .. of one that lends so many of two.
pub fn some(out: &mut [u8], s: Option<Said>, buffers: u8, b: &[u8], c: &[u8]) -> usize
    ensures { result ≤ 1048576 }
{
    let Some(said) = s else {
        return answer::none(out);
    };
    let mut at = tell(out, said, buffers);
    if 0 < buffers {
        at = answer::buffer(out, at, b);
    }
    if 1 < buffers {
        at = answer::buffer(out, at, c);
    }
    answer::end(out, at)
}
