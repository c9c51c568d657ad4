// The parts of a count of time, and a count, as a number and values.
#![tactic(auto)]

ghost use Rattle.std.specs.Prelude.{◌≡◌, get_or};
ghost use Rattle.time_parts.specs.Parts.{parts_numbers, count_numbers};
ghost use Rattle.gateway_lent_values.specs.Values.{Gives};
ghost use Rattle.gateway_time_answers.specs.Lent.{lent_parts};

use gateway_lent_values::{done_1, done_7};
use time_parts::Parts;

// The number at a place of the array, 0 past its end.
fn number(numbers: &[u32], i: usize) -> u32
    ensures { result ≡ get_or numbers.now i 0 }
{
    if i < numbers.len() {
        return numbers[i];
    }
    0
}

// Year, month, day, hour, minute, second and nanosecond, from a lent array.
pub fn lent_parts(numbers: &[u32]) -> Parts
    ensures { result ≡ lent_parts numbers.now }
{
    Parts {
        year: number(numbers, 0),
        month: number(numbers, 1),
        day: number(numbers, 2),
        hour: number(numbers, 3),
        minute: number(numbers, 4),
        second: number(numbers, 5),
        nanosecond: number(numbers, 6),
    }
}

// The seven parts, or 24.
pub fn give_parts(answer: Option<Parts>, values: &mut [u64]) -> u8
    ensures { Gives (parts_numbers answer) values.old result values.new }
{
    match answer {
        Some(p) => done_7(
            values,
            p.year as u64,
            p.month as u64,
            p.day as u64,
            p.hour as u64,
            p.minute as u64,
            p.second as u64,
            p.nanosecond as u64,
        ),
        None => 24,
    }
}

// The count, or 24.
pub fn give_count(answer: Option<u64>, values: &mut [u64]) -> u8
    ensures { Gives (count_numbers answer) values.old result values.new }
{
    let Some(n) = answer else {
        return 24;
    };
    done_1(values, n)
}
