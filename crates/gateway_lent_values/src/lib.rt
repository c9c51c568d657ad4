// An answer as a number and values, for callers that know no enum: what is returned is document 01's number, and the values go over
// the first numbers of a lent array, as many as fit.
#![tactic(auto)]

ghost use Rattle.std.specs.Prelude.{◌≡◌, [], ◌∷◌};
ghost use Rattle.gateway_lent_values.specs.Values.{laid, Gives};

// Lays numbers over the first ones of the array.
fn lay(values: &mut [u64], new: &[u64])
    ensures { values.new ≡ laid new.now values.old }
{
    // Each number has its own test: `copy_from_slice` calls memcpy, which the archive for C would then need from outside, and a loop up to
    // the smaller length is compiled to that call too.
    for i in 0..new.len() {
        if i < values.len() {
            values[i] = new[i];
        }
    }
}

// Nothing is refused, and there is one value.
pub fn done_1(values: &mut [u64], only: u64) -> u8
    ensures { Gives (0 ∷ only ∷ []) values.old result values.new }
{
    lay(values, &[only]);
    0
}

// The same with two values.
pub fn done_2(values: &mut [u64], first: u64, second: u64) -> u8
    ensures { Gives (0 ∷ first ∷ second ∷ []) values.old result values.new }
{
    lay(values, &[first, second]);
    0
}

// The same with three values.
pub fn done_3(values: &mut [u64], a: u64, b: u64, c: u64) -> u8
    ensures { Gives (0 ∷ a ∷ b ∷ c ∷ []) values.old result values.new }
{
    lay(values, &[a, b, c]);
    0
}

// The same with seven values, the parts of a time.
pub fn done_7(values: &mut [u64], a: u64, b: u64, c: u64, d: u64, e: u64, f: u64, g: u64) -> u8
    ensures { Gives (0 ∷ a ∷ b ∷ c ∷ d ∷ e ∷ f ∷ g ∷ []) values.old result values.new }
{
    lay(values, &[a, b, c, d, e, f, g]);
    0
}

// 7, with the block whose type name is not in the book.
pub fn lacks(values: &mut [u64], block: u32) -> u8
    ensures { Gives (7 ∷ block ∷ []) values.old result values.new }
{
    lay(values, &[block as u64]);
    7
}
