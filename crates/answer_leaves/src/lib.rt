// Calls 1 to 5 of docs/CASES.md: check words, dispersal, big-endian numbers. Nothing here decides an answer: each function is handed what
// stands in the case, calls the library once, and says what came back.
#![tactic(auto)]

use cases::case;
use saying::Said;

// Kept: two calls, since docs/PROMISES.md promises both.
pub fn crc8(s: &[u8]) -> Said {
    saying::one(0, u64::from(crc::crc8(s)))
}

pub fn crc16(s: &[u8]) -> Said {
    saying::one(0, u64::from(crc::crc16(s)))
}

pub fn disperse(input: &[u8], output: &mut [u8]) -> Said {
    let (number, ()) = saying::numbered(dispersal::disperse(input, output));
    saying::begin(number, 0)
}

// The number at an offset; none of another width than 2, 4 and 8.
// Kept: a match on the width that stands in the case; each arm has a type of its own.
fn number(s: &[u8], width: u8, at: usize) -> Option<u64> {
    match width {
        2 => Some(u64::from(fields::read16(s, at))),
        4 => Some(u64::from(fields::read32(s, at))),
        8 => Some(fields::read64(s, at)),
        _ => None,
    }
}

pub fn number_read(body: &[u8], s: &[u8]) -> Option<Said> {
    let width = case::byte(body, 0);
    let at = fields::read64(body, 1) as usize;
    Some(saying::one(0, number(s, width, at)?))
}

// Kept: a match on the width that stands in the case; each arm has a type of its own.
fn store(dst: &mut [u8], width: u8, at: usize, v: u64) -> Option<bool> {
    match width {
        2 => Some(fields::write16(dst, at, (v % 65536) as u16)),
        4 => Some(fields::write32(dst, at, (v % 4294967296) as u32)),
        8 => Some(fields::write64(dst, at, v)),
        _ => None,
    }
}

pub fn number_write(body: &[u8], dst: &mut [u8]) -> Option<Said> {
    let width = case::byte(body, 0);
    let at = fields::read64(body, 1) as usize;
    let done = store(dst, width, at, fields::read64(body, 9))?;
    Some(saying::one(0, u64::from(done)))
}
