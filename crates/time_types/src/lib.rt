// The types of IEC 61131-3 that count time, by their names.
#![tactic(auto)]

ghost use Rattle.std.specs.Prelude.{◌≡◌, get_or};
ghost use Rattle.time_types.specs.Types.{time_type_of, time_width};
ghost use Rattle.time_types.specs.Counts.{name_counts, count_width};

use type_book::block::same_name;
use type_category::type_category::AdsTypeCategory;

#[derive(Clone, Copy)]
pub enum TimeType {
    // Milliseconds, and nanoseconds.
    Time,
    LTime,
    // Milliseconds, and nanoseconds, since midnight.
    TimeOfDay,
    LTimeOfDay,
    // Seconds, and nanoseconds, since 1970-01-01 00:00:00.
    DateTime,
    LDateTime,
    // No count of time.
    NoTime,
}

// Of the names that begin with a T.
fn time_name(name: &[u8]) -> TimeType
    requires { get_or name.now 0 0 ≡ 84 }
    ensures { result ≡ time_type_of name.now }
{
    if same_name(name, b"TIME") {
        return TimeType::Time;
    }
    if same_name(name, b"TOD") {
        return TimeType::TimeOfDay;
    }
    if same_name(name, b"TIME_OF_DAY") {
        return TimeType::TimeOfDay;
    }
    TimeType::NoTime
}

// Of the names that begin with a D.
fn date_name(name: &[u8]) -> TimeType
    requires { get_or name.now 0 0 ≡ 68 }
    ensures { result ≡ time_type_of name.now }
{
    if same_name(name, b"DT") {
        return TimeType::DateTime;
    }
    if same_name(name, b"DATE") {
        return TimeType::DateTime;
    }
    if same_name(name, b"DATE_AND_TIME") {
        return TimeType::DateTime;
    }
    TimeType::NoTime
}

// Of the names that begin with an L, those of the standard's third edition.
fn long_name(name: &[u8]) -> TimeType
    requires { get_or name.now 0 0 ≡ 76 }
    ensures { result ≡ time_type_of name.now }
{
    if same_name(name, b"LTIME") {
        return TimeType::LTime;
    }
    if same_name(name, b"LDATE") {
        return TimeType::LDateTime;
    }
    if same_name(name, b"LDT") {
        return TimeType::LDateTime;
    }
    if same_name(name, b"LTOD") {
        return TimeType::LTimeOfDay;
    }
    TimeType::NoTime
}

// What a type of that name counts. The first byte is looked at first: most types of a recipe count no time.
pub fn time_type(name: &[u8]) -> TimeType
    ensures { result ≡ time_type_of name.now }
{
    if name.len() == 0 {
        return TimeType::NoTime;
    }
    let first = name[0];
    if first == b'T' {
        return time_name(name);
    }
    if first == b'D' {
        return date_name(name);
    }
    if first == b'L' {
        return long_name(name);
    }
    TimeType::NoTime
}

// The bytes of a count of time, 0 for no such count.
pub fn time_width(time: TimeType) -> u8
    ensures { result ≡ time_width time }
{
    match time {
        TimeType::Time | TimeType::TimeOfDay | TimeType::DateTime => 4,
        TimeType::LTime | TimeType::LTimeOfDay | TimeType::LDateTime => 8,
        TimeType::NoTime => 0,
    }
}

// Whether a type of this category is a count of time where its name says so.
fn name_counts(category: AdsTypeCategory) -> bool
    ensures { result ≡ name_counts category }
{
    matches!(
        category,
        AdsTypeCategory::None
            | AdsTypeCategory::Primitive
            | AdsTypeCategory::Program
            | AdsTypeCategory::Function
            | AdsTypeCategory::String
            | AdsTypeCategory::Bitset
            | AdsTypeCategory::Interface
    )
}

// The bytes of resolved type t's count of time, 0 where it is none.
pub fn count_width(book: &[u8], t: u32, category: AdsTypeCategory) -> u8
    ensures { result ≡ count_width book.now t category }
{
    if name_counts(category) {
        return time_width(time_type(type_book::block::name(book, t)));
    }
    0
}
