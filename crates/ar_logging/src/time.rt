// Times of UTC, as text: `2026-11-30T00:10:07Z`. A year or a month is found by going over those before it, since a log
// has few lines.
ghost use Rattle.std.specs.Prelude.{◌≡◌, ◌+◌, ◌-◌, ◌*◌, ◌/◌, ◌<◌, ◌≤◌, IfNone, IfSome, Some};
ghost use Rattle.ar_logging.specs.Calendar.{IsDate, IsTimeOfDay, days_in_month, days_in_year, days_of_months};
ghost use Rattle.ar_logging.specs.Calendar.{days_of_years, is_leap_year};
ghost use Rattle.std.specs.Int.{IsInRange};

use std::time::{Clock, SystemTime, UNIX_EPOCH};
use std::{fmt, str};

/// Years from 1970 on that a time may lie in.
const YEARS: u16 = 8030;

/// A second of the years 1970 to 9999.
#[derive(Clone, Copy)]
pub struct UtcTime {
    year: u16,
    month: u8,
    day: u8,
    hour: u8,
    minute: u8,
    second: u8,
    ghost date: { IsDate year month day },
    ghost time: { IsTimeOfDay hour minute second },
}

impl UtcTime {
    ghost use Rattle.ar_logging.specs.Text.{time_text, unix_seconds};

    /// The time now; `None` where the clock can't be read.
    pub fn now<R: Clock>(rt: &R) -> Option<UtcTime> {
        let now = SystemTime::now(rt).ok()?;
        let since = now.duration_since(UNIX_EPOCH).ok()?;
        UtcTime::from_unix_seconds(since.as_secs())
    }

    /// The time this many seconds after 1970 began, leap seconds not counted. `None`: after the year 9999.
    pub fn from_unix_seconds(seconds: u64) -> Option<UtcTime>
        ensures time { IfSome result (λ t. unix_seconds t ≡ seconds) }
        ensures late { IfNone result (days_of_years 8030 ≤ seconds / 86400) }
    {
        let (year, day_of_year) = year_of(seconds / 86400)?;
        let (month, day) = month_of(year, day_of_year);
        let second_of_day = seconds % 86400;
        Some(UtcTime {
            year,
            month,
            day,
            hour: (second_of_day / 3600) as u8,
            minute: (second_of_day % 3600 / 60) as u8,
            second: (second_of_day % 60) as u8,
        })
    }

    /// Its text.
    pub fn text(&self) -> [u8; 20]
        ensures { result ≡ time_text self.now }
    {
        let (century, year) = ((self.year / 100) as u8, (self.year % 100) as u8);
        [
            b'0' + century / 10,
            b'0' + century % 10,
            b'0' + year / 10,
            b'0' + year % 10,
            b'-',
            b'0' + self.month / 10,
            b'0' + self.month % 10,
            b'-',
            b'0' + self.day / 10,
            b'0' + self.day % 10,
            b'T',
            b'0' + self.hour / 10,
            b'0' + self.hour % 10,
            b':',
            b'0' + self.minute / 10,
            b'0' + self.minute % 10,
            b':',
            b'0' + self.second / 10,
            b'0' + self.second % 10,
            b'Z',
        ]
    }
}

impl fmt::Display for UtcTime {
    ghost use Rattle.ar_logging.specs.Text.{time_text};

    ghost output = { λ t. Some (time_text t) };

    fn fmt<W: fmt::Write>(&self, f: &mut fmt::Formatter<W>) -> fmt::Result {
        let text = self.text();
        f.write_str(str::from_utf8(&text[..]).map_err(|_| fmt::Error)?)
    }
}

fn is_leap(year: u16) -> bool
    ensures { result ≡ is_leap_year year }
{
    year % 4 == 0 && (year % 100 != 0 || year % 400 == 0)
}

fn year_length(year: u16) -> u16
    ensures { result ≡ days_in_year year }
{
    if is_leap(year) { 366 } else { 365 }
}

fn month_length(year: u16, month: u8) -> u8
    ensures { result ≡ days_in_month year month }
{
    match month {
        2 => { if is_leap(year) { 29 } else { 28 } }
        4 | 6 | 9 | 11 => 30,
        _ => 31,
    }
}

// The year of a day, and the days of the year before it. `None`: after the year 9999.
fn year_of(days: u64) -> Option<(u16, u16)>
    ensures year { IfSome result (λ r. IsInRange 1970 9999 r.0) }
    ensures within { IfSome result (λ r. r.1 < days_in_year r.0) }
    ensures days { IfSome result (λ r. days_of_years (r.0 - 1970) + r.1 ≡ days) }
    ensures late { IfNone result (days_of_years 8030 ≤ days) }
{
    let mut left = days;
    for past in 0..YEARS {
        let length = year_length(1970 + past);
        if left < u64::from(length) {
            return Some((1970 + past, left as u16));
        }
        left -= u64::from(length);
    }
    None
}

// The month of a day of a year, and the day in it.
fn month_of(year: u16, day_of_year: u16) -> (u8, u8)
    requires { day_of_year < days_in_year year }
    ensures month { IsInRange 1 12 result.0 }
    ensures day { IsInRange 1 (days_in_month year result.0) result.1 }
    ensures days { days_of_months year (result.0 - 1) + (result.1 - 1) ≡ day_of_year }
{
    let mut left = day_of_year;
    for month in 1..12 {
        let length = u16::from(month_length(year, month));
        if left < length {
            return (month, left as u8 + 1);
        }
        left -= length;
    }
    (12, left as u8 + 1)
}
