// How an answer is written down: number, place, values, and each lent buffer as it is after the call.
ghost use Rattle.std.specs.Prelude.{◌≡◌, ◌+◌, ◌<◌, ◌≤◌, min, MatchOption};

use crate::case;

// The longest buffer that is given in full.
const FULL: usize = 64;

fn put(out: &mut [u8], at: usize, x: u8) {
    if at < out.len() {
        out[at] = x;
    }
}

fn put_length(out: &mut [u8], at: usize, n: usize) {
    fields::write32(out, at, (n % 4294967296) as u32);
}

// Begins the answer of a call that gives back `values` values. Answers where the first of them goes.
pub fn begin(out: &mut [u8], number: u32, place: u64, values: u8) -> usize
    ensures { result ≡ 14 }
{
    put(out, 4, (number % 256) as u8);
    fields::write64(out, 5, place);
    put(out, 13, values);
    14
}

// How many buffers follow.
pub fn buffers(out: &mut [u8], at: usize, n: u8) -> usize
    ensures { result ≡ min (at + 1) 1048576 }
{
    put(out, at, n);
    case::past(at, 1)
}

// The sum of the bytes, modulo 2^32.
pub fn sum(s: &[u8]) -> u32
    ensures { result < 4294967296 }
{
    s.iter()
        .fold(0u32, |total, &x| total.wrapping_add(u32::from(x)))
}

// One buffer: its length, and its bytes, or where it is long its CRC-16 and the sum of its bytes.
pub fn buffer(out: &mut [u8], at: usize, s: &[u8]) -> usize
    ensures { result ≤ 1048576 }
{
    put_length(out, at, s.len());
    let start = case::past(at, 4);
    if s.len() <= FULL {
        moves::copy(s, out, start);
        return case::past(start, s.len());
    }
    fields::write16(out, start, crc::crc16(s));
    fields::write32(out, case::past(start, 2), sum(s));
    case::past(start, 6)
}

// The answer to what is no case: of size 0.
pub fn none(out: &mut [u8]) -> usize
    ensures { result ≡ 4 }
{
    fields::write32(out, 0, 0);
    4
}

// The answer of so many bytes, or that to what is no case.
pub fn or_none(out: &mut [u8], size: Option<usize>) -> usize
    ensures { MatchOption size (result ≡ 4) (λ n. result ≡ n) }
{
    match size {
        Some(n) => n,
        None => none(out),
    }
}

// Ends the answer: its size goes to its front. Answers the bytes of all.
pub fn end(out: &mut [u8], at: usize) -> usize
    ensures { result ≤ at }
{
    if at < 4 {
        return 0;
    }
    put_length(out, 0, at - 4);
    at
}
