// Date and time of a count of seconds since 2000-01-01T00:00:00 in days of 86,400 seconds, for the people who read timestamps. For UTC
// the count is a timestamp's seconds less its UTCO (002, annex B).
#![tactic(auto)]

ghost use Rattle.std.specs.Prelude.{◌≡◌, ◌+◌, ◌*◌, ◌≤◌, ◌<◌};
ghost use Rattle.calendar.specs.Calendar.{leap, year_days, month_days, days_of_years, days_of_months, DateOf};

#[derive(Clone, Copy)]
pub struct Date {
    pub year: u64,
    pub month: u8,
    pub day: u8,
    pub hour: u8,
    pub minute: u8,
    pub second: u8,
}

// Whole years or months that went by, and the days left of the one that did not.
#[derive(Clone, Copy)]
struct Passed {
    count: u64,
    rest: u64,
}

fn is_leap(year: u64) -> bool
    ensures { result ≡ leap year }
{
    year % 4 == 0 && (year % 100 != 0 || year % 400 == 0)
}

fn year_days(year: u64) -> u64
    ensures { (result ≡ year_days year) × (365 ≤ result) × (result ≤ 366) }
{
    if is_leap(year) { 366 } else { 365 }
}

// The days of each month, from 1 on, in a year of 365 days.
const DAYS: [u64; 13] = [0, 31, 28, 31, 30, 31, 30, 31, 31, 30, 31, 30, 31];

fn month_days(long: bool, month: u64) -> u64
    requires { month ≤ 12 }
    ensures { (result ≡ month_days long month) × (result < 256) }
{
    if long && month == 2 {
        29
    } else {
        DAYS[month as usize]
    }
}

// The years from 2000 on: 400 of them have 146,097 days, wherever they begin.
// Kept: beside `months`; one function over the sizes would need what each size is and why the loop ends in its contract, more lines than it saves.
fn years(days: u64) -> Passed
    ensures { (days_of_years result.count + result.rest ≡ days) × (result.rest < year_days (2000 + result.count)) × (result.count * 365 ≤ days) }
{
    let mut count = days / 146097 * 400;
    let mut rest = days % 146097;
    let mut size = year_days(2000 + count);
    // Kept: here and in `months` the loop ends by the days that are left; the count is what it finds, and no index of anything.
    while size <= rest {
        rest -= size;
        count += 1;
        size = year_days(2000 + count);
    }
    Passed { count, rest }
}

fn months(long: bool, days: u64) -> Passed
    requires { days < days_of_months long 12 }
    ensures { (days_of_months long result.count + result.rest ≡ days) × (result.count < 12) × (result.rest < month_days long (result.count + 1)) × (result.rest < 255) }
{
    let mut count: u64 = 0;
    let mut rest = days;
    let mut size = month_days(long, 1);
    while size <= rest {
        rest -= size;
        count += 1;
        size = month_days(long, count + 1);
    }
    Passed { count, rest }
}

// The date and time, for every count.
pub fn utc(seconds: u64) -> Date
    ensures { DateOf seconds result }
{
    let time = seconds % 86400;
    let y = years(seconds / 86400);
    let year = 2000 + y.count;
    let m = months(is_leap(year), y.rest);
    Date {
        year,
        month: (m.count + 1) as u8,
        day: (m.rest + 1) as u8,
        hour: (time / 3600) as u8,
        minute: (time / 60 % 60) as u8,
        second: (time % 60) as u8,
    }
}
