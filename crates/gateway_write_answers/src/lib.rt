// What a write answers, as a number and values.
#![tactic(auto)]

ghost use Rattle.ser.specs.Call.{write_numbers};
ghost use Rattle.gateway_lent_values.specs.Values.{Gives};

use gateway_lent_values::lacks;
use ser::WriteAnswer;

// 0 with nothing, 7 with its block, or another refusal.
#[tactic(auto, unfolding(ser::specs::Call::write_numbers, gateway_lent_values::specs::Values::laid))]
pub fn give_write(answer: WriteAnswer, values: &mut [u64]) -> u8
    ensures { Gives (write_numbers answer) values.old result values.new }
{
    match answer {
        WriteAnswer::Done => 0,
        WriteAnswer::NotFound(b) => lacks(values, b),
        WriteAnswer::Refused(n) => n,
    }
}
