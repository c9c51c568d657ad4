// Counts of time as year, month, day, hour, minute, second and nanosecond, and back.
ghost use Rattle.std.specs.Prelude.{◌≡◌};
ghost use Rattle.time_parts.specs.Parts.{parts_numbers, parts_named, count_numbers, count_named};
ghost use Rattle.gateway_lent_values.specs.Values.{Gives};
ghost use Rattle.gateway_time_answers.specs.Lent.{lent_parts};

use gateway_time_answers::{give_count, give_parts, lent_parts};

// The seven parts of a count of the type of that name.
#[unsafe(no_mangle)]
pub extern "C" fn gateway_time_parts(name: &[u8], count: u64, values: &mut [u64]) -> u8
    ensures { Gives (parts_numbers (parts_named name.now count)) values.old result values.new }
{
    give_parts(time_parts::parts_of(name, count), values)
}

// The count of the type of that name that has these seven parts.
#[unsafe(no_mangle)]
pub extern "C" fn gateway_time_count(name: &[u8], parts: &[u32], values: &mut [u64]) -> u8
    ensures { Gives (count_numbers (count_named name.now (lent_parts parts.now))) values.old result values.new }
{
    give_count(time_parts::count_of(name, lent_parts(parts)), values)
}
