// Timestamps of MDI packets (01, "Clock and recordings" and the item `tist`; 002, 5.2.2): as 8 bytes and back, the next one, and which follows
// which (02, E3).
#![tactic(auto)]

ghost use Rattle.std.specs.Prelude.{◌≡◌, ◌<◌, ◌^◌};
ghost use Rattle.laws.specs.Refuse.{refused_with};
ghost use Rattle.refusal.specs.Refusal.{number_in};
ghost use Rattle.moves.specs.Wrote.{wrote_in};
ghost use Rattle.clock.specs.Answers.{stamped_in, judged_in};
ghost use Rattle.clock.specs.Follows.{one_more, utco_follows, follows_for};
ghost use Rattle.clock.specs.Next.{elapsed, later, next_for};
ghost use Rattle.clock.specs.Stamps.{Within, bits_of, stamp_from, field_tests, encoded_for, output_for, decoded_for};

use refusal::Refusal;

// Seconds since 2000-01-01T00:00:00 UTC, leap seconds counted; UTCO is what they are ahead of UTC by (002, annex B: DRM = UTC + UTCO).
#[derive(Clone, Copy, Default, PartialEq, Eq)]
pub struct Stamp {
    pub utco: u16,
    pub seconds: u64,
    pub milliseconds: u16,
}

// Refused where a field is too large for its bits or the milliseconds are over 999.
pub fn check(t: Stamp) -> Result<(), Refusal>
    ensures { number_in result ≡ refused_with (field_tests t) }
{
    if 16384 <= t.utco || 1099511627776 <= t.seconds || 999 < t.milliseconds {
        return Err(Refusal::BadValue);
    }
    Ok(())
}

// Writes the timestamp to the front of the output, and answers how many bytes that are.
pub fn encode(t: Stamp, out: &mut [u8]) -> Result<usize, Refusal>
    ensures answer { wrote_in result ≡ encoded_for t out.old }
    ensures memory { out.new ≡ output_for t out.old }
{
    check(t)?;
    if out.len() < 8 {
        return Err(Refusal::Size);
    }
    fields::write64(out, 0, bits_of(t));
    Ok(8)
}

// The three fields as 64 bits, the first the most significant, and the fields of 64 bits.
#[tactic(auto, unfolding(crate::specs::Stamps::bits_of))]
fn bits_of(t: Stamp) -> u64
    requires { Within t }
    ensures { result ≡ bits_of t }
{
    t.utco as u64 * 1125899906842624 + t.seconds * 1024 + t.milliseconds as u64
}

#[tactic(auto, unfolding(crate::specs::Stamps::stamp_from))]
fn stamp_of(bits: u64) -> Stamp
    ensures { result ≡ stamp_from bits }
{
    Stamp {
        utco: (bits / 1125899906842624 % 16384) as u16,
        seconds: bits / 1024 % 1099511627776,
        milliseconds: (bits % 1024) as u16,
    }
}

// Reads the value of a `tist` item.
pub fn decode(value: &[u8]) -> Result<Stamp, Refusal>
    ensures { stamped_in result ≡ decoded_for value.now }
{
    if 65528 < value.len() {
        return Err(Refusal::Size);
    }
    if value.len() != 8 {
        return Err(Refusal::ItemLength);
    }
    let stamp = stamp_of(fields::read64(value, 0));
    if 999 < stamp.milliseconds {
        return Err(Refusal::BadValue);
    }
    Ok(stamp)
}

// 400 ms later; a second more from 600 ms on.
fn step(t: Stamp) -> Stamp
    requires { Within t }
    ensures { result ≡ later t }
{
    if t.milliseconds < 600 {
        return Stamp {
            milliseconds: t.milliseconds + 400,
            ..t
        };
    }
    Stamp {
        seconds: t.seconds + 1,
        milliseconds: t.milliseconds - 600,
        ..t
    }
}

// The timestamp 400 ms later, where its seconds fit 40 bits.
pub fn next(t: Stamp) -> Result<Stamp, Refusal>
    ensures { stamped_in result ≡ next_for t }
{
    check(t)?;
    let stamp = step(t);
    if 1099511627776 <= stamp.seconds {
        return Err(Refusal::NoSuccessor);
    }
    Ok(stamp)
}

// Whether b follows a. The UTCO is compared by itself, as the time is.
pub fn follows(a: Stamp, b: Stamp) -> Result<bool, Refusal>
    ensures { judged_in result ≡ follows_for a b }
{
    check(a)?;
    check(b)?;
    Ok(total(b) == total(a) + 400 && utco_follows(a, b))
}

// The UTCO is the same, one more or one less: it changes with each leap second (002, 5.2.2).
fn utco_follows(a: Stamp, b: Stamp) -> bool
    requires { Within a × Within b }
    ensures { result ≡ utco_follows a b }
{
    let u = a.utco;
    let v = b.utco;
    v == u || v == one_more(u) || u == one_more(v)
}

// One more, modulo 16,384.
#[tactic(auto, unfolding(crate::specs::Follows::one_more))]
fn one_more(utco: u16) -> u16
    requires { utco < 2 ^ 14 }
    ensures { result ≡ one_more utco }
{
    (utco + 1) % 16384
}

// Milliseconds since the seconds began to count.
#[tactic(auto, unfolding(crate::specs::Next::elapsed))]
fn total(t: Stamp) -> u64
    requires { Within t }
    ensures { (result ≡ elapsed t) × (result < 2 ^ 50) }
{
    t.seconds * 1000 + t.milliseconds as u64
}
