// What an MDI packet says (01, "MDI packet"), but for its streams: content only, so that a record read and written again reads as the
// same record. What the packet does not have is a case of its own. And which record follows which (01, "Clock and recordings").
#![tactic(auto)]

ghost use Rattle.std.specs.Prelude.{◌≡◌};
ghost use Rattle.laws.specs.Refuse.{refused_with};
ghost use Rattle.refusal.specs.Refusal.{number_in};
ghost use Rattle.clock.specs.Answers.{judged_in};
ghost use Rattle.record.specs.Records.{no_record};
ghost use Rattle.record.specs.Succession.{time_tests, stamp_before, times_follow, follows_for};

use clock::Stamp;
use refusal::Refusal;

#[derive(Clone, Copy)]
pub struct Record {
    pub count: u32,
    pub fac: fac::Fac,
    pub sdc: sdc::Sdc,
    pub description: description::Description,
    pub robustness: u8,
    pub time: Option<Stamp>,
}

// What a refused read gives: all zeros, no block, no stream, no timestamp.
pub fn none() -> Record
    ensures { result ≡ no_record }
{
    let empty: [u8; 0] = [];
    let f = fac::of_value(&empty);
    let s = sdc::absent();
    let d = description::of_value(&empty);
    Record {
        count: 0,
        fac: f,
        sdc: s,
        description: d,
        robustness: 0,
        time: None,
    }
}

// Refused where there is a timestamp and a field of it is too large.
fn check_time(t: Option<Stamp>) -> Result<(), Refusal>
    ensures { number_in result ≡ refused_with (time_tests t) }
{
    match t {
        None => Ok(()),
        Some(stamp) => clock::check(stamp),
    }
}

fn is_before(a: Stamp, t: Option<Stamp>) -> bool
    ensures { result ≡ stamp_before a t }
{
    t.is_none_or(|b| clock::follows(a, b).unwrap_or(false))
}

fn times_follow(s: Option<Stamp>, t: Option<Stamp>) -> bool
    ensures { result ≡ times_follow s t }
{
    s.is_none_or(|a| is_before(a, t))
}

// Whether the second packet follows the first: by its count and, where both have a timestamp, by these. Refused with 6: a field of either
// timestamp.
pub fn follows(a: Record, b: Record) -> Result<bool, Refusal>
    ensures { judged_in result ≡ follows_for a b }
{
    check_time(a.time)?;
    check_time(b.time)?;
    Ok(b.count == a.count.wrapping_add(1) && times_follow(a.time, b.time))
}
