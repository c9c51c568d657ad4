// What a read answers, as a number and values.
#![tactic(auto)]

ghost use Rattle.de_output.specs.Answer.{read_numbers};
ghost use Rattle.gateway_lent_values.specs.Values.{Gives};

use de_output::ReadAnswer;
use gateway_lent_values::{done_2, lacks};

// The numbers of records and of text bytes, 7 with its block, or another refusal.
#[tactic(auto, unfolding(de_output::specs::Answer::read_numbers, gateway_lent_values::specs::Values::laid))]
pub fn give_read(answer: ReadAnswer, values: &mut [u64]) -> u8
    ensures { Gives (read_numbers answer) values.old result values.new }
{
    match answer {
        ReadAnswer::Done(n, m) => done_2(values, n as u64, m as u64),
        ReadAnswer::NotFound(b) => lacks(values, b),
        ReadAnswer::Refused(n) => n,
    }
}
