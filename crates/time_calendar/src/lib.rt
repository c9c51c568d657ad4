// The Gregorian calendar: the date of a day since 1970-01-01 and back, by the cycles of 400, 100 and 4 years.
#![tactic(auto)]

ghost use Rattle.std.specs.Prelude.{◌≡◌, true, ◌+◌, ◌-◌, ◌≤◌, ◌<◌};
ghost use Rattle.time_calendar.specs.Calendar.{is_leap, years_days, months_days, names_date, day_number, date_of, month_days};
ghost use Rattle.time_calendar.specs.Places.{InYear, InMonth, even_day};

// A month counts from 1, and so does a day.
#[derive(Clone, Copy)]
pub struct Date {
    pub year: u32,
    pub month: u32,
    pub day: u32,
}

// The days from 1601-01-01, with which a cycle of 400 years begins, to 1970-01-01.
const BEFORE_1970: u32 = 134_774;

// The days of the months before each month, in a year that isn't leap.
const MONTH_STARTS: [u32; 13] = [0, 0, 31, 59, 90, 120, 151, 181, 212, 243, 273, 304, 334];

// The days of each month, in a year that isn't leap; there is no month 0.
const MONTH_DAYS: [u32; 13] = [0, 31, 28, 31, 30, 31, 30, 31, 31, 30, 31, 30, 31];

fn is_leap(year: u32) -> bool
    ensures { result ≡ is_leap year }
{
    if year % 100 == 0 {
        return year % 400 == 0;
    }
    year % 4 == 0
}

// The days from 1970-01-01 to the first of a year.
fn year_start(year: u32) -> u32
    requires { (1970 ≤ year) × (year < 10000) }
    ensures { result ≡ years_days (year - 1970) }
{
    let past = year - 1601;
    365 * past + past / 4 - past / 100 + past / 400 - BEFORE_1970
}

// The year in which a day lies. Each of its four numbers counts cycles: of 400 years, of 100, of 4, and years. The last of four
// cycles of 100 years, and the last of four years, may be a day longer.
fn year_of(day: u32) -> u32
    requires { day < 1000000 }
    ensures { InYear day result }
{
    let since = day + BEFORE_1970;
    let long = since / 146_097;
    let in_long = since % 146_097;
    let hundred = (in_long / 36_524).min(3);
    let in_hundred = in_long - hundred * 36_524;
    let four = in_hundred / 1_461;
    let in_four = in_hundred % 1_461;
    let one = (in_four / 365).min(3);
    1601 + long * 400 + hundred * 100 + four * 4 + one
}

// The days of a year before one of its months.
fn month_start(leap: bool, month: u32) -> u32
    requires { (1 ≤ month) × (month ≤ 12) }
    ensures { result ≡ months_days leap (month - 1) }
{
    let start = MONTH_STARTS[month as usize];
    if leap {
        if 2 < month {
            return start + 1;
        }
        return start;
    }
    start
}

// The days of a month, 0 where there is no such month.
fn month_days(leap: bool, month: u32) -> u32
    ensures { result ≡ month_days leap month }
{
    if 12 < month {
        return 0;
    }
    if leap {
        if month == 2 {
            return 29;
        }
        return MONTH_DAYS[month as usize];
    }
    MONTH_DAYS[month as usize]
}

// The day of a year, from 0, as if February had 30 days.
fn even_day(leap: bool, day: u32) -> u32
    requires { day < 366 }
    ensures { result ≡ even_day leap day }
{
    if leap {
        if day < 60 {
            return day;
        }
        return day + 1;
    }
    if day < 59 {
        return day;
    }
    day + 2
}

// The month in which the day of a year lies, from 0: with a February of 30 days twelve months take 367 days evenly.
fn month_of(leap: bool, day: u32) -> u32
    requires { day < months_days leap 12 }
    ensures { InMonth leap day result }
{
    (12 * even_day(leap, day) + 373) / 367
}

// Whether the numbers name a date that is not before 1970.
pub fn names_date(date: Date) -> bool
    ensures { result ≡ names_date date }
{
    if date.year < 1970 {
        return false;
    }
    if date.day < 1 {
        return false;
    }
    date.day <= month_days(is_leap(date.year), date.month)
}

// The days from 1970-01-01 to a date.
pub fn day_of(date: Date) -> u32
    requires date_value { names_date date ≡ true }
    requires year_bound { date.year < 10000 }
    ensures { result ≡ day_number date }
{
    year_start(date.year) + month_start(is_leap(date.year), date.month) + (date.day - 1)
}

// The date that is so many days after 1970-01-01.
pub fn date_of(day: u32) -> Date
    requires { day < 1000000 }
    ensures { result ≡ date_of day }
{
    let year = year_of(day);
    let leap = is_leap(year);
    let in_year = day - year_start(year);
    let month = month_of(leap, in_year);
    Date {
        year,
        month,
        day: in_year - month_start(leap, month) + 1,
    }
}
