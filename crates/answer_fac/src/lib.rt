// Calls 43 and 44 of docs/CASES.md: the FAC, read and written. Nothing here decides an answer. Where the FAC stands in a body, and how
// it is said, the calls of MDI packets share.
#![tactic(auto)]

use cases::case;
use fac::Fac;
use saying::Said;

// Bytes that a FAC takes in a body.
pub const SIZE: usize = 21;

fn byte(body: &[u8], at: usize, k: usize) -> u8 {
    case::byte(body, case::past(at, k))
}

// The FAC at a position of the body.
pub fn fac_at(body: &[u8], at: usize) -> Fac {
    Fac {
        base: byte(body, at, 0),
        identity: byte(body, at, 1),
        rm: byte(body, at, 2),
        occupancy: byte(body, at, 3),
        interleaver: byte(body, at, 4),
        msc: byte(body, at, 5),
        sdc: byte(body, at, 6),
        services: byte(body, at, 7),
        reconfiguration: byte(body, at, 8),
        channel: byte(body, at, 9),
        service: fields::read32(body, case::past(at, 10)),
        short: byte(body, at, 14),
        audio_ca: byte(body, at, 15),
        language: byte(body, at, 16),
        audio_data: byte(body, at, 17),
        descriptor: byte(body, at, 18),
        data_ca: byte(body, at, 19),
        reserved: byte(body, at, 20),
    }
}

fn with_byte(said: Said, x: u8) -> Said {
    saying::value(said, x as u64)
}

fn with_bytes(said: Said, x: u8, y: u8, z: u8) -> Said {
    saying::three(said, x as u64, y as u64, z as u64)
}

// The ten channel fields, and the eight service fields (000, 6.3.3 and 6.3.4).
fn with_channel(said: Said, f: Fac) -> Said {
    let said = with_bytes(said, f.base, f.identity, f.rm);
    let said = with_bytes(said, f.occupancy, f.interleaver, f.msc);
    let said = with_bytes(said, f.sdc, f.services, f.reconfiguration);
    with_byte(said, f.channel)
}

fn with_service(said: Said, f: Fac) -> Said {
    let said = saying::value(said, f.service as u64);
    let said = with_bytes(said, f.short, f.audio_ca, f.language);
    let said = with_bytes(said, f.audio_data, f.descriptor, f.data_ca);
    with_byte(said, f.reserved)
}

// What was said, and the 18 values of a FAC.
pub fn with_fac(said: Said, f: Fac) -> Said {
    with_service(with_channel(said, f), f)
}

pub fn fac_read(s: &[u8]) -> Said {
    let (number, f) = saying::numbered(fac::read(s));
    with_fac(saying::begin(number, 0), f)
}

pub fn fac_write(body: &[u8], dst: &mut [u8]) -> Said {
    let (number, length) = saying::numbered(fac::write(fac_at(body, 0), dst));
    saying::one(number, length as u64)
}
