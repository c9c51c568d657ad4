// A count of time as year, month, day, hour, minute, second and nanosecond, and back.
#![tactic(auto)]

ghost use Rattle.std.specs.Prelude.{◌≡◌, true, ◌<◌};
ghost use Rattle.time_parts.specs.Parts.{parts_numbers, count_numbers, day_length, parts_at, clock_parts, moment_parts, time_parts, parts_named, names_clock, clock_of, dateless, count_in, time_count, count_named};
ghost use Rattle.time_parts.specs.Nanoseconds.{clock_nanoseconds, moment_nanoseconds, sum_in, in_units};

use time_calendar::{Date, date_of, day_of, names_date};
use time_types::{TimeType, time_type};

// A time of day has 0 for year, month and day.
#[derive(Clone, Copy)]
pub struct Parts {
    pub year: u32,
    pub month: u32,
    pub day: u32,
    pub hour: u32,
    pub minute: u32,
    pub second: u32,
    pub nanosecond: u32,
}

// The nanoseconds of a second, a minute, an hour and a day.
const SECOND: u64 = 1_000_000_000;

const MINUTE: u64 = 60_000_000_000;

const HOUR: u64 = 3_600_000_000_000;

const DAY: u64 = 86_400_000_000_000;

// The largest numbers of 32 and of 64 bits.
const MAX32: u64 = u32::MAX as u64;

const MAX64: u64 = u64::MAX;

// The last year, and the last day since 1970-01-01, that 64 bits of nanoseconds reach.
const LAST_YEAR: u32 = 2554;

const LAST_DAY: u64 = 213_503;

// ---- from a count to its parts

// The parts of a date and of so many nanoseconds since midnight.
fn parts_at(date: Date, clock: u64) -> Parts
    requires { clock < day_length }
    ensures { result ≡ parts_at date clock }
{
    Parts {
        year: date.year,
        month: date.month,
        day: date.day,
        hour: (clock / HOUR) as u32,
        minute: (clock / MINUTE % 60) as u32,
        second: (clock / SECOND % 60) as u32,
        nanosecond: (clock % SECOND) as u32,
    }
}

fn clock_parts(clock: u64) -> Parts
    requires { clock < day_length }
    ensures { result ≡ clock_parts clock }
{
    let none = Date {
        year: 0,
        month: 0,
        day: 0,
    };
    parts_at(none, clock)
}

fn moment_parts(moment: u64) -> Parts
    ensures { result ≡ moment_parts moment }
{
    parts_at(date_of((moment / DAY) as u32), moment % DAY)
}

fn parts_by(time: TimeType, count: u64) -> Option<Parts>
    ensures { result ≡ time_parts time count }
{
    match time {
        TimeType::Time => None,
        TimeType::LTime => None,
        TimeType::TimeOfDay => {
            if count < 86_400_000 {
                return Some(clock_parts(count * 1_000_000));
            }
            return None;
        }
        TimeType::LTimeOfDay => {
            if count < DAY {
                return Some(clock_parts(count));
            }
            return None;
        }
        TimeType::DateTime => {
            if count <= MAX32 {
                return Some(moment_parts(count * SECOND));
            }
            return None;
        }
        TimeType::LDateTime => Some(moment_parts(count)),
        TimeType::NoTime => None,
    }
}

// The parts of a count of the type of that name.
pub fn parts_of(name: &[u8], count: u64) -> Option<Parts>
    ensures { parts_numbers result ≡ parts_numbers (parts_named name.now count) }
{
    parts_by(time_type(name), count)
}

// ---- from parts to the count

// Whether hour, minute, second and nanosecond name a time of day.
#[tactic(auto, unfolding(crate::specs::Parts::names_clock))]
fn names_clock(p: Parts) -> bool
    ensures { result ≡ names_clock p }
{
    p.hour < 24 && p.minute < 60 && p.second < 60 && p.nanosecond < 1_000_000_000
}

// The nanoseconds since midnight.
fn clock_of(p: Parts) -> u64
    requires { names_clock p ≡ true }
    ensures { result ≡ clock_of p }
{
    let minutes = (p.hour as u64) * 60 + (p.minute as u64);
    let seconds = minutes * 60 + (p.second as u64);
    seconds * SECOND + (p.nanosecond as u64)
}

#[tactic(auto, unfolding(crate::specs::Parts::dateless))]
fn is_dateless(p: Parts) -> bool
    ensures { result ≡ dateless p }
{
    p.year == 0 && p.month == 0 && p.day == 0
}

#[tactic(auto, unfolding(crate::specs::Nanoseconds::clock_nanoseconds))]
fn clock_nanoseconds(p: Parts) -> Option<u64>
    ensures { result ≡ clock_nanoseconds p }
{
    if is_dateless(p) && names_clock(p) {
        return Some(clock_of(p));
    }
    None
}

// The year is looked at before anything is counted: no product can wrap.
fn moment_nanoseconds(p: Parts) -> Option<u64>
    ensures { result ≡ moment_nanoseconds p }
{
    if LAST_YEAR < p.year {
        return None;
    }
    let date = Date {
        year: p.year,
        month: p.month,
        day: p.day,
    };
    if names_date(date) {
        if names_clock(p) {
            return from_day(day_of(date) as u64, clock_of(p));
        }
        return None;
    }
    None
}

// The nanoseconds of whole days and of a time of day.
fn from_day(day: u64, clock: u64) -> Option<u64>
    requires { clock < day_length }
    ensures { result ≡ sum_in day clock }
{
    if LAST_DAY < day {
        return None;
    }
    let start = day * DAY;
    if MAX64 - start < clock {
        return None;
    }
    Some(start + clock)
}

// Nanoseconds as a count of units, which is at most the largest.
fn in_units(unit: u64, largest: u64, nanoseconds: Option<u64>) -> Option<u64>
    requires { 0 < unit }
    ensures { result ≡ in_units unit largest nanoseconds }
{
    match nanoseconds {
        None => None,
        Some(n) => {
            if n % unit != 0 {
                return None;
            }
            if largest < n / unit {
                return None;
            }
            return Some(n / unit);
        }
    }
}

fn count_by(time: TimeType, p: Parts) -> Option<u64>
    ensures { result ≡ time_count time p }
{
    match time {
        TimeType::Time => None,
        TimeType::LTime => None,
        TimeType::TimeOfDay => in_units(1_000_000, MAX64, clock_nanoseconds(p)),
        TimeType::LTimeOfDay => in_units(1, MAX64, clock_nanoseconds(p)),
        TimeType::DateTime => in_units(SECOND, MAX32, moment_nanoseconds(p)),
        TimeType::LDateTime => in_units(1, MAX64, moment_nanoseconds(p)),
        TimeType::NoTime => None,
    }
}

// The count of the type of that name that has these parts.
pub fn count_of(name: &[u8], p: Parts) -> Option<u64>
    ensures { count_numbers result ≡ count_numbers (count_named name.now p) }
{
    count_by(time_type(name), p)
}
