// Dates of the Gregorian calendar, years 1600 to 9999: which exist, their day numbers and their weekdays.
//
// The definitions are in specs/Dates, and what is proved of them in specs/Calendar. Each call takes any three numbers. No From exists
// from u32 to usize, so the casts.
#![tactic(auto)]

ghost use Rattle.std.specs.Prelude.{◌≡◌, true, ◌≤◌};
ghost use Rattle.dates.specs.Dates.{last_year, is_leap, month_length, date_exists, count_before, march_year, march_month, days_before, day_number, day_number_of, weekday_of, if_date};

// The first and the last year whose dates are taken.
const FIRST_YEAR: u32 = 1600;

const LAST_YEAR: u32 = 9999;

// The days before each month, from March on.
const DAY_COUNTS: [u32; 12] = [0, 31, 61, 92, 122, 153, 184, 214, 245, 275, 306, 337];

// The days of each month of a common year, from January on.
const MONTH_LENGTHS: [u32; 12] = [31, 28, 31, 30, 31, 30, 31, 31, 30, 31, 30, 31];

// Whether 29 February exists in a year.
fn is_leap(year: u32) -> bool
    ensures { result ≡ is_leap year }
{
    (year % 4 == 0) & ((year % 100 != 0) | (year % 400 == 0))
}

// The days of a month; 1 is January.
fn month_length(year: u32, month: u32) -> u32
    requires { (1 ≤ month) × (month ≤ 12) }
    ensures { result ≡ month_length year month }
{
    if (month == 2) & is_leap(year) {
        return 29;
    }
    let k = (month - 1) as usize;
    MONTH_LENGTHS[k]
}

// The days before 1 March of a year, from 1 March of the year 0 on.
fn days_before(year: u32) -> u32
    requires { year ≤ last_year }
    ensures { result ≡ days_before year }
{
    365 * year + (year / 4 + year / 400 - year / 100)
}

// The days from 1 March to the first of a month, by the table.
fn before_month(month: u32) -> u32
    requires { month ≤ 12 }
    ensures { result ≡ count_before (march_month month) }
{
    let k = ((month + 9) % 12) as usize;
    DAY_COUNTS[k]
}

// A date: any three numbers.
#[derive(Clone, Copy, PartialEq, Eq)]
pub struct Date {
    pub year: u32,
    pub month: u32,
    pub day: u32,
}

impl Date {
    // Whether there is such a date, in a year from 1600 to 9999.
    pub fn exists(self) -> bool
        ensures { result ≡ date_exists self.year self.month self.day }
    {
        if self.month < 1 {
            return false;
        }
        if 12 < self.month {
            return false;
        }
        (FIRST_YEAR <= self.year)
            & ((self.year <= LAST_YEAR)
                & ((1 <= self.day) & (self.day <= month_length(self.year, self.month))))
    }

    // The year that the date counts to when years begin with March: January and February count to the year before.
    fn march_year(self) -> u32
        requires { 1 ≤ self.year }
        ensures { result ≡ march_year self.year self.month }
    {
        if self.month < 3 {
            self.year - 1
        } else {
            self.year
        }
    }

    // The day number of a date that exists.
    fn count_days(self) -> u32
        requires { date_exists self.year self.month self.day ≡ true }
        ensures { result ≡ day_number self.year self.month self.day }
    {
        days_before(self.march_year()) + (before_month(self.month) + self.day)
    }

    // The day number of a date that exists.
    pub fn day_number(self) -> Option<u32>
        ensures { result ≡ if_date self.year self.month self.day (day_number_of self.year self.month self.day) }
    {
        if self.exists() {
            Some(self.count_days())
        } else {
            None
        }
    }

    // The weekday of a date that exists, 0 for Monday to 6 for Sunday.
    pub fn weekday(self) -> Option<u32>
        ensures { result ≡ if_date self.year self.month self.day (weekday_of self.year self.month self.day) }
    {
        let days = self.day_number()?;
        Some((days + 1) % 7)
    }
}

// The day number of a date; 0 where there is no such date. Unlike `Date::day_number`, it always answers a number; so does `weekday`.
pub fn day_number(year: u32, month: u32, day: u32) -> u32
    ensures { result ≡ day_number_of year month day }
{
    Date { year, month, day }.day_number().unwrap_or(0)
}

// The weekday of a date, 0 for Monday to 6 for Sunday; 7 where there is no such date.
pub fn weekday(year: u32, month: u32, day: u32) -> u32
    ensures { result ≡ weekday_of year month day }
{
    Date { year, month, day }.weekday().unwrap_or(7)
}
