// The moment that a date and a time of day name, in seconds: what tells whether two contacts are near each other.
#![tactic(auto)]

ghost use Rattle.std.specs.Prelude.{◌≡◌, ◌+◌, ◌*◌, ◌≤◌, ◌<◌, true};
ghost use Rattle.times.specs.Calendar.{leap, month_days, days_before_year, days_before_month, is_day, day_number};
ghost use Rattle.times.specs.Moments.{date_of, clock_of, is_clock, moment_at, moment_by, moment_of, seconds_of, hundredfold};
ghost use Rattle.times.specs.Bounds.{Below};

pub mod window;

// A leap year of the Gregorian calendar.
#[tactic(auto, unfolding(crate::specs::Calendar::leap))]
fn is_leap(year: u32) -> bool
    ensures { result ≡ leap year }
{
    year % 4 == 0 && (year % 100 != 0 || year % 400 == 0)
}

// The days before a year from 0 on: 365 a year, and one more for each leap year.
fn days_before_year(year: u32) -> u32
    requires { year ≤ 9999 }
    ensures value { result ≡ days_before_year year }
    ensures upper_bound { result ≤ 3659634 }
{
    year * 365 + (year + 3) / 4 + (year + 399) / 400 - (year + 99) / 100
}

// The months have 31 and 30 days in turn, from August on anew; February has 28 or 29.
fn days_of_month(leap: bool, month: u32) -> u32
    requires { (1 ≤ month) × (month ≤ 12) }
    ensures { result ≡ month_days leap month }
{
    if month != 2 {
        return 30 + (month + month / 8) % 2;
    }
    if leap { 29 } else { 28 }
}

// From March on, the days before the month if February had 30, less those that it lacks.
fn days_before_month(leap: bool, month: u32) -> u32
    requires { month ≤ 12 }
    ensures value { result ≡ days_before_month leap month }
    ensures upper_bound { result ≤ 335 }
{
    if month <= 2 {
        return month / 2 * 31;
    }
    let with_thirty = (month * 367 - 362) / 12;
    if leap {
        with_thirty - 1
    } else {
        with_thirty - 2
    }
}

#[tactic(auto, unfolding(crate::specs::Calendar::is_day))]
fn is_day(year: u32, month: u32, day: u32) -> bool
    ensures { result ≡ is_day year month day }
{
    1 <= month && month <= 12 && 1 <= day && day <= days_of_month(is_leap(year), month)
}

#[tactic(auto, unfolding(crate::specs::Calendar::day_number))]
fn day_number(year: u32, month: u32, day: u32) -> u32
    requires { (year ≤ 9999) × ((month ≤ 12) × (day ≤ 99)) }
    ensures value { result ≡ day_number year month day }
    ensures upper_bound { result ≤ 3661000 }
{
    let before = days_before_year(year) + days_before_month(is_leap(year), month);
    before + day.saturating_sub(1)
}

#[tactic(auto, unfolding(crate::specs::Moments::is_clock))]
fn is_clock(hour: u32, minute: u32, second: u32) -> bool
    ensures { result ≡ is_clock hour minute second }
{
    hour <= 23 && minute <= 59 && second <= 59
}

// YYYYMMDD as a number.
fn date_of(d: &[u8]) -> Option<u64>
    ensures value { result ≡ date_of d.now }
    ensures below { Below 100000000 result }
{
    if d.len() == 8 {
        decimal::parse_digits(d)
    } else {
        None
    }
}

// HHMM as HHMMSS.
fn as_seconds(n: Option<u64>) -> Option<u64>
    requires { Below 1000000 n }
    ensures value { result ≡ hundredfold n }
    ensures below { Below 100000000 result }
{
    Some(n? * 100)
}

// HHMMSS as a number.
fn clock_of(t: &[u8]) -> Option<u64>
    ensures value { result ≡ clock_of t.now }
    ensures below { Below 100000000 result }
{
    if t.len() == 4 {
        return as_seconds(decimal::parse_digits(t));
    }
    if t.len() == 6 {
        return decimal::parse_digits(t);
    }
    None
}

#[tactic(auto, unfolding(crate::specs::Moments::seconds_of))]
fn seconds(day: u32, hour: u32, minute: u32, second: u32) -> u64
    requires { (day ≤ 3661000) × ((hour ≤ 23) × ((minute ≤ 59) × (second ≤ 59))) }
    ensures { result ≡ seconds_of day hour minute second }
{
    day as u64 * 86400 + hour as u64 * 3600 + minute as u64 * 60 + second as u64
}

// The moment of the date and the time of day that two numbers say.
#[tactic(auto, unfolding(crate::specs::Moments::moment_at))]
fn moment_at(date: u32, clock: u32) -> Option<u64>
    requires { date < 100000000 }
    ensures { result ≡ moment_at date clock }
{
    let year = date / 10000;
    let month = date / 100 % 100;
    let day = date % 100;
    if !is_day(year, month, day) {
        return None;
    }
    let hour = clock / 10000;
    let minute = clock / 100 % 100;
    let second = clock % 100;
    if !is_clock(hour, minute, second) {
        return None;
    }
    Some(seconds(day_number(year, month, day), hour, minute, second))
}

fn moment_by(date: Option<u64>, clock: Option<u64>) -> Option<u64>
    requires { Below 100000000 date × Below 100000000 clock }
    ensures { result ≡ moment_by date clock }
{
    moment_at(date? as u32, clock? as u32)
}

// The moment that a date and a time of day name.
#[tactic(auto, unfolding(crate::specs::Moments::moment_of))]
pub fn moment_of(date: &[u8], time: &[u8]) -> Option<u64>
    ensures { result ≡ moment_of date.now time.now }
{
    moment_by(
        date_of(text::space::trim(date)),
        clock_of(text::space::trim(time)),
    )
}
