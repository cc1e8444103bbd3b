ghost use Rattle.std.specs.Prelude.{◌≡◌, ◌==◌, ℕ, ◌+◌, ◌-◌, ◌<◌, ◌≤◌, ◌^◌, ◌∷◌, ◌++◌, [], List, Bool, min, length, map, OnOk, IfOk, IsTrue};
ghost use Rattle.ilk_cnf.specs.Extends.{PartExtensionsAreExactly, EqualsGivenValues};
ghost use Rattle.ilk_cnf.specs.Formula.{is_clause_over, with_var_count};
ghost use Rattle.ilk_cnf.specs.Literal.{positive_lit};
ghost use Rattle.ilk_cnf.specs.Part.{with_part};
ghost use Rattle.ilk_cnf.specs.Truth.{is_true};
ghost use Rattle.ilk_ints.specs.Bits.{bit_count, assigned_bits_from_var, lowest_bits_of};
ghost use Rattle.ilk_ints.specs.Number.{value_lit_part};
ghost use Rattle.ilk_ints.specs.Named.{value_lits_part_from, value_lits_part, one_hot_bits, one_hot_var_bits, value_var_count, bound_var_count, value_bound_var_count, bound_count, bound_lits_part_from, bound_lits_part, bound_bits, at_most_vars_bits};

use crate::bounded::{
    Bounded, add_value_lit_clauses, add_vars_to_cnf, bit_count, one_bit_value_lit,
};
use crate::limit::{add_bound_lit, highest_bit_decides};
use ilk_cnf::{Cnf, Lit, Lits};
use std::alloc::{AllocError, Global};

fn next_is(
    alloc: Global,
    cnf: &mut Cnf,
    used: &mut u64,
    n: Bounded,
    value: u8,
) -> Result<Lit, AllocError>
    requires from_1 { 0 < n.first }
    requires within { n.first + bit_count n.range ≤ used.old + 1 }
    requires there { used.old < cnf.old.vars }
    ensures lit { IfOk result (λ l. l ≡ positive_lit (used.old + 1)) }
    ensures vars { OnOk result (cnf.new.vars ≡ cnf.old.vars) }
    ensures made { OnOk result
        (with_var_count cnf.new used.new
        ≡ with_part (with_var_count cnf.old used.old)
        (value_lit_part n.first n.range value used.old)) }
{
    let _ = cnf.vars();
    *used += 1;
    let lit = Lit::new(*used, true);
    add_value_lit_clauses(alloc, cnf, n, value, lit)?;
    Ok(lit)
}

fn add_values(alloc: Global, cnf: &mut Cnf, used: &mut u64, n: Bounded) -> Result<Lits, AllocError>
    requires from_1 { 0 < n.first }
    requires within { n.first + bit_count n.range ≤ used.old + 1 }
    requires there { used.old + n.range ≤ cnf.old.vars }
    ensures lits { IfOk result
        (λ lits. lits ≡ (value_lits_part_from n.first n.range 0 n.range used.old).lits) }
    ensures vars { OnOk result (cnf.new.vars ≡ cnf.old.vars) }
    ensures made { OnOk result
        (with_var_count cnf.new used.new
        ≡ with_part (with_var_count cnf.old used.old)
        (value_lits_part_from n.first n.range 0 n.range used.old).part) }
{
    let mut lits = Lits::new(alloc);
    for value in 0..n.range {
        lits.push(next_is(alloc, cnf, used, n, value)?)?;
    }
    Ok(lits)
}

/// Returns a literal for each value of the integer `n`, true exactly if `n` has it. The literals
/// belong to the next variables after the first `used` ones, which exist, and `used` grows by their
/// number. For range 2 they are the literals of the bit, and nothing is added. On error, `cnf` may
/// have grown.
pub fn add_value_lits(
    alloc: Global,
    cnf: &mut Cnf,
    used: &mut u64,
    n: Bounded,
) -> Result<Lits, AllocError>
    requires from_1 { 0 < n.first }
    requires within { n.first + bit_count n.range ≤ used.old + 1 }
    requires there { used.old + value_var_count n.range ≤ cnf.old.vars }
    ensures lits { IfOk result (λ lits. lits ≡ (value_lits_part n.first n.range used.old).lits) }
    ensures vars { OnOk result (cnf.new.vars ≡ cnf.old.vars) }
    ensures made { OnOk result
        (with_var_count cnf.new used.new
        ≡ with_part (with_var_count cnf.old used.old)
        (value_lits_part n.first n.range used.old).part) }

    // If the integer is w, the new variables have exactly one assignment, and the literals say w.
    ensures law { OnOk result
        ((a : List Bool) (w : ℕ) → length a ≡ used.old → w < n.range →
        assigned_bits_from_var a n.first (bit_count n.range)
        ≡ lowest_bits_of (bit_count n.range) w →
        PartExtensionsAreExactly a (value_lits_part n.first n.range used.old).part
        (EqualsGivenValues (one_hot_var_bits n.range w))) }
    ensures exact { OnOk result
        ((a c : List Bool) (w : ℕ) → length a ≡ used.old → w < n.range →
        assigned_bits_from_var a n.first (bit_count n.range)
        ≡ lowest_bits_of (bit_count n.range) w →
        map (is_true (a ++ (one_hot_var_bits n.range w ++ c)))
        (value_lits_part n.first n.range used.old).lits
        ≡ one_hot_bits w 0 n.range) }
{
    let _ = cnf.vars();
    let _ = bit_count(n.range);
    let lits = if n.range == 2 {
        two_values(alloc, n)?
    } else {
        add_values(alloc, cnf, used, n)?
    };
    Ok(lits)
}

fn two_values(alloc: Global, n: Bounded) -> Result<Lits, AllocError>
    requires range { n.range ≡ 2 }
    requires from_1 { 0 < n.first }
    requires numbered { n.first ≤ 2 ^ 62 }
    ensures { IfOk result
        (λ lits. lits
        ≡ (record { var = n.first; positive = (0 == 1) })
        ∷ (record { var = n.first; positive = (1 == 1) }) ∷ []) }
{
    let mut lits = Lits::new(alloc);
    lits.push(one_bit_value_lit(n, 0))?;
    lits.push(one_bit_value_lit(n, 1))?;
    Ok(lits)
}

fn bound_count(range: u8) -> u64
    ensures count { result ≡ bound_count range }
    ensures few { result ≤ range - 3 }
{
    let values = u64::from(range);
    values
        .saturating_sub(3)
        .min(values.saturating_sub(bit_count(range)))
}

fn bounds_vars(range: u8) -> u64
    ensures count { result ≡ bound_var_count range 1 (bound_count range) }
    ensures few { result ≤ 256 }
{
    let mut count = 0;
    let mut k = 1u8;
    for _ in 0..bound_count(range) {
        if !highest_bit_decides(range, k) {
            count += 1;
        }
        k += 1;
    }
    count
}

/// Adds the variables for the literals of an integer's values and bounds to `cnf`, and no clause.
/// The integer is from 0 to `range` - 1. On error, `cnf` may have grown.
pub fn reserve_value_and_bound_vars(cnf: &mut Cnf, range: u8) -> Result<(), AllocError>
    ensures { OnOk result
        (cnf.new ≡ with_var_count cnf.old (cnf.old.vars + value_bound_var_count range)) }
{
    let values = if range == 2 { 0 } else { u64::from(range) };
    add_vars_to_cnf(cnf, values + bounds_vars(range))?;
    Ok(())
}

fn add_bounds(
    alloc: Global,
    cnf: &mut Cnf,
    used: &mut u64,
    n: Bounded,
    below: Lit,
    equals: &[Lit],
) -> Result<Lits, AllocError>
    requires range { 1 < n.range }
    requires few { length equals.now < n.range }
    requires from_1 { 0 < n.first }
    requires within { n.first + bit_count n.range ≤ used.old + 1 }
    requires lits { IsTrue (is_clause_over used.old (below ∷ equals.now)) }
    requires there { (bound_lits_part_from n.first n.range below 1 equals.now used.old).part.vars
        ≤ cnf.old.vars }
    ensures lits { IfOk result
        (λ lits. lits ≡ (bound_lits_part_from n.first n.range below 1 equals.now used.old).lits) }
    ensures vars { OnOk result (cnf.new.vars ≡ cnf.old.vars) }
    ensures made { OnOk result
        (with_var_count cnf.new used.new
        ≡ with_part (with_var_count cnf.old used.old)
        (bound_lits_part_from n.first n.range below 1 equals.now used.old).part) }
{
    let _ = bit_count(n.range);
    let mut lits = Lits::new(alloc);
    let mut below = below;
    let mut k = 1u8;
    for equal in equals {
        below = add_bound_lit(alloc, cnf, used, n, k, below, *equal)?;
        lits.push(below)?;
        k += 1;
    }
    Ok(lits)
}

fn bounds_of(
    alloc: Global,
    cnf: &mut Cnf,
    used: &mut u64,
    n: Bounded,
    values: &[Lit],
) -> Result<Lits, AllocError>
    requires from_1 { 0 < n.first }
    requires within { n.first + bit_count n.range ≤ used.old + 1 }
    requires all { length values.now ≡ n.range }
    requires lits { IsTrue (is_clause_over used.old values.now) }
    requires there { (bound_lits_part n.first n.range values.now used.old).part.vars ≤
        cnf.old.vars }
    ensures lits { IfOk result
        (λ lits. lits ≡ (bound_lits_part n.first n.range values.now used.old).lits) }
    ensures vars { OnOk result (cnf.new.vars ≡ cnf.old.vars) }
    ensures made { OnOk result
        (with_var_count cnf.new used.new
        ≡ with_part (with_var_count cnf.old used.old)
        (bound_lits_part n.first n.range values.now used.old).part) }
{
    let count = bound_count(n.range);
    match values {
        [below, rest @ ..] if count > 0 => {
            add_bounds(alloc, cnf, used, n, *below, &rest[..count as usize])
        }
        _ => Ok(Lits::new(alloc)),
    }
}

/// Returns a literal for each bound k from 1 on, true exactly if the integer `n` is at most k. Only
/// the bounds with at least two values on each side have one, within two variables per value in
/// total. They belong to the next variables after the first `used` ones, which exist. `values` are
/// the literals of the values, from `add_value_lits`. On error, `cnf` may have grown.
pub fn add_bound_lits(
    alloc: Global,
    cnf: &mut Cnf,
    used: &mut u64,
    n: Bounded,
    values: &[Lit],
) -> Result<Lits, AllocError>
    requires from_1 { 0 < n.first }
    requires within { n.first + bit_count n.range ≤ used.old + 1 }
    requires all { length values.now ≡ n.range }
    requires lits { IsTrue (is_clause_over used.old values.now) }
    requires there { (bound_lits_part n.first n.range values.now used.old).part.vars ≤
        cnf.old.vars }
    ensures lits { IfOk result
        (λ lits. lits ≡ (bound_lits_part n.first n.range values.now used.old).lits) }
    ensures vars { OnOk result (cnf.new.vars ≡ cnf.old.vars) }
    ensures made { OnOk result
        (with_var_count cnf.new used.new
        ≡ with_part (with_var_count cnf.old used.old)
        (bound_lits_part n.first n.range values.now used.old).part) }

    // If the integer is w, and the literals of its values say so.
    ensures law { OnOk result
        ((a : List Bool) (w : ℕ) → length a ≡ used.old → w < n.range →
        assigned_bits_from_var a n.first (bit_count n.range)
        ≡ lowest_bits_of (bit_count n.range) w →
        map (is_true a) values.now ≡ one_hot_bits w 0 n.range →
        PartExtensionsAreExactly a (bound_lits_part n.first n.range values.now used.old).part
        (EqualsGivenValues (at_most_vars_bits n.range w 1 (bound_count n.range)))) }
    ensures exact { OnOk result
        ((a c : List Bool) (w : ℕ) → length a ≡ used.old → w < n.range →
        assigned_bits_from_var a n.first (bit_count n.range)
        ≡ lowest_bits_of (bit_count n.range) w →
        map (is_true a) values.now ≡ one_hot_bits w 0 n.range →
        map (is_true (a ++ (at_most_vars_bits n.range w 1 (bound_count n.range) ++ c)))
        (bound_lits_part n.first n.range values.now used.old).lits
        ≡ bound_bits w 1 (bound_count n.range)) }
{
    let _ = bit_count(n.range);
    let lits = bounds_of(alloc, cnf, used, n, values)?;
    Ok(lits)
}
