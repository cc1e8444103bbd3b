ghost use Rattle.std.specs.Prelude.{◌≡◌, ◌==◌, ℕ, ◌+◌, ◌-◌, ◌<◌, ◌≤◌, ◌^◌, ◌∷◌, ◌++◌, [], List, Bool, length, nat_le, nat_lt, OnOk, IfOk, IsTrue};
ghost use Rattle.ilk_cnf.specs.Extends.{PartExtensionsAreExactly, EqualsGivenValues};
ghost use Rattle.ilk_cnf.specs.Formula.{is_clause_over, with_var_count};
ghost use Rattle.ilk_cnf.specs.Part.{with_part};
ghost use Rattle.ilk_cnf.specs.Truth.{is_true};
ghost use Rattle.ilk_ints.specs.AtMost.{at_most_lit_part, at_most_lit, at_most_bits, highest_bit_decides};
ghost use Rattle.ilk_ints.specs.Bits.{bit_count, lowest_bits_of, assigned_bits_from_var};

use crate::bounded::{Bounded, bit_count};
use ilk_cnf::{Cnf, Lit, define_and_gate};
use std::alloc::{AllocError, Global};

/// Returns whether the highest bit alone decides: an integer from 0 to `range` - 1 is at most `k`
/// exactly if this bit is false.
pub(crate) fn highest_bit_decides(range: u8, k: u8) -> bool
    requires { 1 < range }
    ensures says { result ≡ highest_bit_decides range k }
    ensures enough { range ≤ 2 ^ bit_count range }
    ensures some { 0 < bit_count range }
{
    let count = bit_count(range);
    u64::from(k) + 1 == 1u64 << (count - 1)
}

/// Returns a literal that is true exactly if the integer `n` is at most `k`. The literals `below`
/// and `equal` say that it is less than `k`, or is `k`. If the highest bit decides, the result is
/// its negation. Otherwise clauses for the next variable after the first `used` ones, which exists,
/// are added to `cnf`, and `used` grows by 1. On error, `cnf` may have grown.
pub fn add_bound_lit(
    alloc: Global,
    cnf: &mut Cnf,
    used: &mut u64,
    n: Bounded,
    k: u8,
    below: Lit,
    equal: Lit,
) -> Result<Lit, AllocError>
    requires range { 1 < n.range }
    requires value { k < n.range }
    requires from_1 { 0 < n.first }
    requires within { n.first + bit_count n.range ≤ used.old + 1 }
    requires lits { IsTrue (is_clause_over used.old (below ∷ equal ∷ [])) }
    requires there { (at_most_lit_part n.range k below equal used.old).vars ≤ cnf.old.vars }
    ensures lit { IfOk result (λ l. l ≡ at_most_lit n.first n.range k used.old) }
    ensures vars { OnOk result (cnf.new.vars ≡ cnf.old.vars) }
    ensures made { OnOk result
        (with_var_count cnf.new used.new
        ≡ with_part (with_var_count cnf.old used.old)
        (at_most_lit_part n.range k below equal used.old)) }

    // If the integer is v, and `below` and `equal` have their meaning.
    ensures law { OnOk result
        ((a : List Bool) (v : ℕ) → length a ≡ used.old → v < n.range →
        assigned_bits_from_var a n.first (bit_count n.range)
        ≡ lowest_bits_of (bit_count n.range) v →
        is_true a below ≡ nat_lt v k → is_true a equal ≡ (v == k) →
        PartExtensionsAreExactly a (at_most_lit_part n.range k below equal used.old)
        (EqualsGivenValues (at_most_bits n.range k v))) }
    ensures exact { OnOk result
        ((a : List Bool) (v : ℕ) → length a ≡ used.old → v < n.range →
        assigned_bits_from_var a n.first (bit_count n.range)
        ≡ lowest_bits_of (bit_count n.range) v →
        is_true (a ++ at_most_bits n.range k v) (at_most_lit n.first n.range k used.old)
        ≡ nat_le v k) }
{
    let _ = cnf.vars();
    if highest_bit_decides(n.range, k) {
        return Ok(Lit::new(n.first + (bit_count(n.range) - 1), false));
    }
    *used += 1;
    let lit = Lit::new(*used, true);
    define_and_gate(
        alloc,
        cnf,
        lit.negated(),
        &[below.negated(), equal.negated()],
    )?;
    Ok(lit)
}
