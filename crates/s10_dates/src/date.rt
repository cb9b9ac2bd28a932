ghost use Rattle.std.specs.Prelude.{◌≡◌, ◌≤◌, ◌<◌};
ghost use Rattle.s10_dates.specs.Dates.{date_of, is_leap, month_length, two_digits};
ghost use Rattle.s10_dates.specs.Years.{date_after, month_start, year_length};

/// A date of the calendar.
#[derive(Clone, Copy, Debug, PartialEq, Eq)]
pub struct Date {
    /// The year.
    pub year: u32,
    /// The month, 1 to 12.
    pub month: u8,
    /// The day of the month, from 1.
    pub day: u8,
}

/// The days of any 400 years.
const DAYS_OF_400_YEARS: u32 = 146_097;

/// Returns the date of a day, counted from 1970-01-01.
pub fn date_of(day: u32) -> Date
    ensures date { result ≡ date_of day }
    ensures two_digits { (result.month < 100) × (result.day < 100) }
{
    let mut year = 1970 + 400 * (day / DAYS_OF_400_YEARS);
    let mut left = day % DAYS_OF_400_YEARS;
    for _done in 0..400u32 {
        let length = year_length(year);
        if left < length {
            break;
        }
        left -= length;
        year += 1;
    }
    date_in_year(year, left)
}

// Returns the date that is this number of days after the first day of the year.
fn date_in_year(year: u32, days: u32) -> Date
    requires { days < year_length year }
    ensures date { result ≡ date_after days (month_start year 1) }
    ensures two_digits { (result.month < 100) × (result.day < 100) }
{
    let mut month = 1u8;
    let mut left = days;
    for _done in 0..12u8 {
        let length = month_length(year, month);
        if left < length as u32 {
            break;
        }
        left -= length as u32;
        month += 1;
    }
    Date {
        year,
        month,
        day: left as u8 + 1,
    }
}

fn year_length(year: u32) -> u32
    ensures { result ≡ year_length year }
{
    if is_leap(year) { 366 } else { 365 }
}

fn month_length(year: u32, month: u8) -> u8
    ensures { result ≡ month_length year month }
{
    match month {
        2 => { if is_leap(year) { 29 } else { 28 } }
        4 | 6 | 9 | 11 => 30,
        _ => 31,
    }
}

#[tactic(auto, unfolding(crate::specs::Dates::is_leap))]
fn is_leap(year: u32) -> bool
    ensures { result ≡ is_leap year }
{
    year % 4 == 0 && (year % 100 != 0 || year % 400 == 0)
}

/// Returns a number below 100 in two digits of ASCII.
pub fn two_digits(number: u8) -> [u8; 2]
    requires { number < 100 }
    ensures { result ≡ two_digits number }
{
    [b'0' + number / 10, b'0' + number % 10]
}
