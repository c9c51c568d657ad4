// What the plan of a save answers, as a number and values.
#![tactic(auto)]

ghost use Rattle.plan_save.specs.Call.{plan_numbers};
ghost use Rattle.gateway_lent_values.specs.Values.{Gives};

use gateway_lent_values::{done_1, done_2};
use plan_save::Plan;

// 1 for yes or 0 for no, or 7 with its block, and then the length of our book; any other refusal with that length alone.
pub fn give_plan(answer: Plan, values: &mut [u64]) -> u8
    ensures { Gives (plan_numbers answer) values.old result values.new }
{
    match answer {
        Plan::Yes(len) => done_2(values, 1, len as u64),
        Plan::No(len) => done_2(values, 0, len as u64),
        Plan::NotFound(b, len) => {
            done_2(values, b as u64, len as u64);
            7
        }
        Plan::Refused(n, len) => {
            done_1(values, len as u64);
            n
        }
    }
}
