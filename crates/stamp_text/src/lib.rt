// A timestamp as the program `inspect` prints it, with its date in UTC (01, "Clock and recordings").
#![tactic(auto)]

ghost use Rattle.std.specs.Prelude.{◌≡◌, ◌+◌, ◌-◌, ◌%◌, ◌≤◌, length};
ghost use Rattle.moves.specs.Moves.{Puts};
ghost use Rattle.line_text.specs.Line.{Placed};
ghost use Rattle.stamp_text.specs.Date.{two_text, millis_text, clock_text, date_text};
ghost use Rattle.stamp_text.specs.Stamp.{since, utc_text, stamp_text, time_text};

use calendar::Date;
use clock::Stamp;

fn less(seconds: u64, utco: u64) -> u64
    ensures { result ≡ seconds - utco }
{
    if seconds < utco {
        return 0;
    }
    seconds - utco
}

// The seconds in UTC; 0 where there is no timestamp, or its seconds are fewer than its UTCO.
pub fn since(t: Option<Stamp>) -> u64
    ensures { result ≡ since t }
{
    match t {
        None => 0,
        Some(stamp) => less(stamp.seconds, stamp.utco as u64),
    }
}

// A mark, and a number below 100 in two digits.
fn put_two(mark: u8, n: u8, out: &mut [u8], at: usize) -> usize
    requires { at + 3 ≤ length out.old }
    ensures { (result ≤ at + 3) × Puts out.old at (two_text mark n) out.new result }
{
    let text = [mark, 48 + n / 10 % 10, 48 + n % 10];
    line_text::word(&text, out, at)
}

fn digit(n: u16) -> u8
    ensures { result ≡ 48 + n % 10 }
{
    (48 + n % 10) as u8
}

// A point, and the milliseconds in three digits.
pub fn millis(n: u16, out: &mut [u8], at: usize) -> usize
    ensures { (result ≤ at + 4) × Placed 4 out.old at (millis_text n) out.new result }
{
    let text = [b'.', digit(n / 100), digit(n / 10), digit(n)];
    line_text::word(&text, out, at)
}

fn put_clock(minute: u8, second: u8, thousandths: u16, out: &mut [u8], at: usize) -> usize
    requires { at + 10 ≤ length out.old }
    ensures { (result ≤ at + 10) × Puts out.old at (clock_text minute second thousandths) out.new result }
{
    let a = put_two(b':', minute, out, at);
    let b = put_two(b':', second, out, a);
    millis(thousandths, out, b)
}

// A space, the date and the time of day: 2026-11-15 10:06:33.400.
fn put_date(d: Date, thousandths: u16, out: &mut [u8], at: usize) -> usize
    requires { at + 40 ≤ length out.old }
    ensures { (result ≤ at + 40) × Puts out.old at (date_text d thousandths) out.new result }
{
    let a = line_text::named(b" ", d.year, out, at);
    let b = put_two(b'-', d.month, out, a);
    let c = put_two(b'-', d.day, out, b);
    let e = put_two(b' ', d.hour, out, c);
    put_clock(d.minute, d.second, thousandths, out, e)
}

// The date in UTC, d; a timestamp whose seconds are fewer than its UTCO has none.
fn put_utc(s: Stamp, d: Date, out: &mut [u8], at: usize) -> usize
    requires { at + 40 ≤ length out.old }
    ensures { (result ≤ at + 40) × Puts out.old at (utc_text s d) out.new result }
{
    if s.seconds < s.utco as u64 {
        return line_text::word(b" before 2000", out, at);
    }
    put_date(d, s.milliseconds, out, at)
}

fn put_stamp(s: Stamp, d: Date, out: &mut [u8], at: usize) -> usize
    requires { at + 69 ≤ length out.old }
    ensures { (result ≤ at + 69) × Puts out.old at (stamp_text s d) out.new result }
{
    let a = put_utc(s, d, out, at);
    line_text::named(b" seconds ", s.seconds, out, a)
}

fn put_time(t: Option<Stamp>, d: Date, out: &mut [u8], at: usize) -> usize
    requires { at + 69 ≤ length out.old }
    ensures { (result ≤ at + 69) × Puts out.old at (time_text t d) out.new result }
{
    match t {
        None => line_text::word(b" no timestamp", out, at),
        Some(stamp) => put_stamp(stamp, d, out, at),
    }
}

// A timestamp whose date in UTC is d.
pub fn time(t: Option<Stamp>, d: Date, out: &mut [u8], at: usize) -> usize
    ensures { (result ≤ at + 69) × Placed 69 out.old at (time_text t d) out.new result }
{
    if out.len() < at {
        return at;
    }
    if out.len() - at < 69 {
        return at;
    }
    put_time(t, d, out, at)
}
