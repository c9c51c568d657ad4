// What the resolvers answer, as a number and values.
#![tactic(auto)]

ghost use Rattle.resolvers.specs.Resolve.{resolved_numbers};
ghost use Rattle.resolvers.specs.Calls.{resolution_numbers};
ghost use Rattle.resolve_field_types.specs.Calls.{fields_numbers};
ghost use Rattle.gateway_lent_values.specs.Values.{Gives};

use gateway_lent_values::{done_1, lacks};
use resolve_field_types::FieldsAnswer;
use resolvers::{Resolution, Resolved};

// The block that a chain in a checked book ends at, 7 with its block, or 8.
#[tactic(auto, unfolding(resolvers::specs::Resolve::resolved_numbers, gateway_lent_values::specs::Values::laid))]
pub fn give_resolved(answer: Resolved, values: &mut [u64]) -> u8
    ensures { Gives (resolved_numbers answer) values.old result values.new }
{
    match answer {
        Resolved::Base(b) => done_1(values, b as u64),
        Resolved::NotFound(b) => lacks(values, b),
        Resolved::TooLong => 8,
    }
}

// The block that the root comes to, 7 with its block, or another refusal.
#[tactic(auto, unfolding(resolvers::specs::Calls::resolution_numbers, gateway_lent_values::specs::Values::laid))]
pub fn give_resolution(answer: Resolution, values: &mut [u64]) -> u8
    ensures { Gives (resolution_numbers answer) values.old result values.new }
{
    match answer {
        Resolution::Block(b) => done_1(values, b as u64),
        Resolution::NotFound(b) => lacks(values, b),
        Resolution::Refused(n) => n,
    }
}

// The number of fields, 7 with its block, or another refusal.
#[tactic(auto, unfolding(resolve_field_types::specs::Calls::fields_numbers, gateway_lent_values::specs::Values::laid))]
pub fn give_fields(answer: FieldsAnswer, values: &mut [u64]) -> u8
    ensures { Gives (fields_numbers answer) values.old result values.new }
{
    match answer {
        FieldsAnswer::Done(n) => done_1(values, n as u64),
        FieldsAnswer::NotFound(b) => lacks(values, b),
        FieldsAnswer::Refused(n) => n,
    }
}
