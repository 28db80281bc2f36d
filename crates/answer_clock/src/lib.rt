// Calls 20 to 28 of docs/CASES.md: timestamps, recordings, dates. Nothing here decides an answer.
#![tactic(auto)]

ghost use Rattle.std.specs.Prelude.{◌≡◌};
ghost use Rattle.answer_clock.specs.Values.{stamp_in};

use cases::case;
use clock::Stamp;
use saying::Said;

// Bytes that a timestamp takes in a body.
pub const STAMP: usize = 12;

// The timestamp at a position of the body.
pub fn stamp_at(body: &[u8], at: usize) -> Stamp
    ensures { result ≡ stamp_in body.now at }
{
    Stamp {
        utco: fields::read16(body, at),
        seconds: fields::read64(body, case::past(at, 2)),
        milliseconds: fields::read16(body, case::past(at, 10)),
    }
}

// What was said, and the three values of a timestamp.
pub fn with_stamp(said: Said, t: Stamp) -> Said {
    saying::three(said, t.utco as u64, t.seconds, t.milliseconds as u64)
}

pub fn stamp_write(body: &[u8], dst: &mut [u8]) -> Said {
    let (number, length) = saying::numbered(clock::encode(stamp_at(body, 0), dst));
    saying::one(number, length as u64)
}

pub fn stamp_read(s: &[u8]) -> Said {
    let (number, t) = saying::numbered(clock::decode(s));
    with_stamp(saying::begin(number, 0), t)
}

pub fn stamp_next(body: &[u8]) -> Said {
    let (number, t) = saying::numbered(clock::next(stamp_at(body, 0)));
    with_stamp(saying::begin(number, 0), t)
}

pub fn stamp_follows(body: &[u8]) -> Said {
    let (number, yes) = saying::numbered(clock::follows(stamp_at(body, 0), stamp_at(body, STAMP)));
    saying::one(number, u64::from(yes))
}

pub fn recording_open(s: &[u8]) -> Said {
    let (number, _) = saying::numbered(recording::open(s));
    saying::begin(number, 0)
}

// Whether there is an entry, where its packet starts, its length, and where the next entry begins.
pub fn recording_next(body: &[u8], s: &[u8]) -> Said {
    let (number, place, entry) = saying::placed(recording::next(s, fields::read64(body, 0)));
    let said = saying::value(saying::begin(number, place), u64::from(entry.is_some()));
    let e = entry.unwrap_or_default();
    saying::three(said, e.start, u64::from(e.length), e.next)
}

pub fn recording_start(dst: &mut [u8]) -> Said {
    let (number, length) = saying::numbered(recording::start(dst));
    saying::one(number, length)
}

// The offset stands at a position of the body, behind the packet.
pub fn recording_append(body: &[u8], at: usize, packet: &[u8], dst: &mut [u8]) -> Said {
    let (number, length) = saying::numbered(recording::append(
        packet,
        dst,
        fields::read64(body, at),
    ));
    saying::one(number, length)
}

pub fn date(body: &[u8]) -> Said {
    let d = calendar::utc(fields::read64(body, 0));
    let said = saying::three(saying::begin(0, 0), d.year, d.month as u64, d.day as u64);
    saying::three(said, d.hour as u64, d.minute as u64, d.second as u64)
}
