// The calendar, lowest layer of the recorder: leap years, month lengths, days that exist, and the moment of a second of the clock.
#![tactic(auto)]

ghost use Rattle.std.specs.Prelude.{◌≡◌, ◌<◌};
ghost use Rattle.calendar.specs.Dates.{leap_year, month_length, day_exists, exists_in_some_year};
ghost use Rattle.calendar.specs.Moments.{dated_said, year_day, moment_at, moment_of};

// A date with its weekday, 0 being Monday, and a time of day.
#[derive(Clone, Copy)]
pub struct Moment {
    pub year: u16,
    pub month: u8,
    pub day: u8,
    pub weekday: u8,
    pub hour: u8,
    pub minute: u8,
    pub second: u8,
}

// The whole years from 1970 to a day, and the days of its own year before it.
#[derive(Clone, Copy)]
struct YearDay {
    years: u32,
    left: u32,
}

pub fn is_leap(year: u16) -> bool
    ensures { result ≡ leap_year year }
{
    (year % 4 == 0) & ((year % 100 != 0) | (year % 400 == 0))
}

// The days of a month, January being 1; 0 for a number that is no month's. Up to July the odd months have 31 days; from August on, where month / 8 is 1, the even ones.
#[tactic(auto, using(crate::proofs::Months::no_month), unfolding(crate::specs::Dates::month_length))]
pub fn month_length(year: u16, month: u8) -> u8
    ensures { result ≡ month_length year month }
{
    match month {
        0 | 13.. => 0,
        2 if is_leap(year) => 29,
        2 => 28,
        _ => 30 + (month + month / 8) % 2,
    }
}

pub fn day_exists(day: u8, month: u8, year: u16) -> bool
    ensures { result ≡ day_exists day month year }
{
    (1 <= day) & (day <= month_length(year, month))
}

// 29.02 exists in some year. A leap year has every day that some year has.
pub fn exists_in_some_year(day: u8, month: u8) -> bool
    ensures { result ≡ exists_in_some_year day month }
{
    day_exists(day, month, 2000)
}

// Four years have 1461 days; 2100 is no leap year, so from 1.1.2101 on, day 47847 and year 131, a day is put in and taken out again.
fn year_day(day: u32) -> YearDay
    requires { day < 50038 }
    ensures { result ≡ year_day day }
{
    let years = ((day + day / 47847) * 4 + 2) / 1461;
    YearDay {
        years,
        left: day + years / 131 - (years * 1461 + 1) / 4,
    }
}

// The moment of a date, at the weekday and the time of day of the second.
fn moment_at(seconds: u32, year: u16, month: u8, day: u8) -> Moment
    ensures { result ≡ moment_at seconds year month day }
{
    Moment {
        year,
        month,
        day,
        weekday: ((seconds / 86400 + 3) % 7) as u8,
        hour: (seconds / 3600 % 24) as u8,
        minute: (seconds / 60 % 60) as u8,
        second: (seconds % 60) as u8,
    }
}

// The moment of a second counted from 1.1.1970 00:00: the year by arithmetic, the month by a loop over the month lengths.
pub fn moment_of(seconds: u32) -> Option<Moment>
    ensures { dated_said result ≡ moment_of seconds }
{
    let at = year_day(seconds / 86400);
    let year = (1970 + at.years) as u16;
    let mut left = at.left;
    for month in 1u8..=12 {
        let length = month_length(year, month) as u32;
        if left < length {
            return Some(moment_at(seconds, year, month, (left + 1) as u8));
        }
        left -= length;
    }
    None
}
