// What the walks answer, as a number and values.
#![tactic(auto)]

ghost use Rattle.resolve_read_modify_write.specs.Calls.{rmw_numbers};
ghost use Rattle.resolve_missing_types.specs.Calls.{missing_numbers};
ghost use Rattle.gateway_lent_values.specs.Values.{Gives};

use gateway_codes::truth;
use gateway_lent_values::{done_1, done_3, lacks};
use resolve_missing_types::Missing;
use resolve_read_modify_write::Rmw;

// 1 for yes and 0 for no, 7 with its block, or another refusal.
#[tactic(auto, unfolding(resolve_read_modify_write::specs::Calls::rmw_numbers, gateway_lent_values::specs::Values::laid))]
pub fn give_rmw(answer: Rmw, values: &mut [u64]) -> u8
    ensures { Gives (rmw_numbers answer) values.old result values.new }
{
    match answer {
        Rmw::Yes => done_1(values, 1),
        Rmw::No => done_1(values, 0),
        Rmw::NotFound(b) => lacks(values, b),
        Rmw::Refused(n) => n,
    }
}

// How many blocks are listed, 1 where the walk is whole, else 0, and how many names were met; or the refusal.
#[tactic(auto, unfolding(resolve_missing_types::specs::Calls::missing_numbers, gateway_lent_values::specs::Values::laid))]
pub fn give_missing(answer: Missing, values: &mut [u64]) -> u8
    ensures { Gives (missing_numbers answer) values.old result values.new }
{
    match answer {
        Missing::Listed(n, whole, count) => {
            let mark = truth(whole) as u64;
            done_3(values, n as u64, mark, count as u64)
        }
        Missing::Refused(n) => n,
    }
}
