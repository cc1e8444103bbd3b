ghost use Rattle.std.specs.Prelude.{◌≡◌, ◌⊎◌, ◌≤◌, ◌<◌, length};
ghost use Rattle.ilk_solver.specs.Word.{variable_of, packed_weight_and_variable};
ghost use Rattle.ilk_solver.specs.declared.word.TheConstants.{MOST_VARIABLES};

// The greatest number of variables; their numbers fit the lower half of a word.
pub(crate) const MOST_VARIABLES: u64 = 1 << 31;

// The bound of all weights, so that each fits the upper half of a word.
pub(crate) const WEIGHT_LIMIT: u64 = 1 << 32;

// Returns the word of variable `v`, whose weight is entry `v - 1`. The weight is the upper half; in
// the lower half a lesser variable has the greater number.
pub(crate) fn word(weights: &[u32], v: u64) -> u64
    requires from_1 { 0 < v }
    requires within { v ≤ length weights.now }
    requires few { length weights.now ≤ MOST_VARIABLES }
    ensures { result ≡ packed_weight_and_variable weights.now v }
{
    weights[v as usize - 1] as u64 * WEIGHT_LIMIT + (WEIGHT_LIMIT - 1 - v)
}

pub(crate) fn variable(word: u64) -> u64
    ensures { result ≡ variable_of word }
{
    if word == 0 {
        return 0;
    }
    WEIGHT_LIMIT - 1 - word % WEIGHT_LIMIT
}

pub(crate) fn greater(a: u64, b: u64) -> u64
    ensures first { a ≤ result }
    ensures second { b ≤ result }
    ensures one { (result ≡ a) ⊎ (result ≡ b) }
{
    if a < b { b } else { a }
}
