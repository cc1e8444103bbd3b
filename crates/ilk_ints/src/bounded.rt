ghost use Rattle.std.specs.Prelude.{◌≡◌, ◌==◌, ℕ, ◌+◌, ◌-◌, ◌*◌, ◌<◌, ◌≤◌, ◌^◌, ◌∷◌, [], List, Bool, length, map, OnOk, IfOk, IsTrue};
ghost use Rattle.ilk_cnf.specs.Extends.{PartExtensionsAreExactly, EqualsGivenValues};
ghost use Rattle.ilk_cnf.specs.Formula.{with_var_count_and_clauses, with_var_count, clause_unless_tautology, is_clause_over};
ghost use Rattle.ilk_cnf.specs.Literal.{negated_lit, positive_lit};
ghost use Rattle.ilk_cnf.specs.Part.{with_part, clauses_from_lists, and_gate_clauses};
ghost use Rattle.ilk_cnf.specs.Truth.{is_true, satisfies};
ghost use Rattle.ilk_ints.specs.Bits.{bit_count, lowest_bits_of, assigned_bits_from_var, bit_pattern_lits};
ghost use Rattle.ilk_ints.specs.Number.{AreBitsInRange, non_value_clauses, number_part, value_lit_part, value_bit_lits, bits_have_value};

use ilk_cnf::{Assignment, Cnf, Lit, Lits, define_and_gate, negated_lits};
use std::alloc::{AllocError, Global};

/// An integer from 0 to `range` - 1 in a formula. Its bits are the variables from `first` on,
/// lowest bit first.
#[derive(Clone, Copy)]
pub struct Bounded {
    pub first: u64,
    pub range: u8,
}

/// Returns the number of bits of an integer from 0 to `range` - 1.
pub fn bit_count(range: u8) -> u64
    ensures count { result ≡ bit_count range }
    ensures enough { range ≤ 2 ^ result }
    ensures few { result ≤ 8 }
{
    let mut count = 0;
    while count < 8 && (1u64 << count) < u64::from(range) {
        count += 1;
    }
    count
}

fn lits_of(alloc: Global, first: u64, count: u64, value: u64) -> Result<Lits, AllocError>
    requires from_1 { 0 < first }
    requires numbered { first + count ≤ 2 ^ 62 + 1 }
    ensures { IfOk result (λ lits. lits ≡ bit_pattern_lits first (lowest_bits_of count value)) }
{
    let mut lits = Lits::new(alloc);
    let mut rest = value;
    for i in 0..count {
        lits.push(Lit::new(first + i, rest % 2 == 1))?;
        rest /= 2;
    }
    Ok(lits)
}

/// Adds `count` variables to `cnf`, and no clause.
pub(crate) fn add_vars_to_cnf(cnf: &mut Cnf, count: u64) -> Result<(), AllocError>
    ensures { OnOk result (cnf.new ≡ with_var_count cnf.old (cnf.old.vars + count)) }
{
    for _ in 0..count {
        cnf.fresh()?;
    }
    Ok(())
}

fn rule_out_value(
    alloc: Global,
    cnf: &mut Cnf,
    first: u64,
    count: u64,
    value: u64,
) -> Result<(), AllocError>
    requires from_1 { 0 < first }
    requires within { first + count ≤ cnf.old.vars + 1 }
    ensures { OnOk result
        (cnf.new
        ≡ with_var_count_and_clauses cnf.old cnf.old.vars
        (clause_unless_tautology
        (map negated_lit (bit_pattern_lits first (lowest_bits_of count value))))) }
{
    let _ = cnf.vars();
    let lits = lits_of(alloc, first, count, value)?;
    let others = negated_lits(alloc, lits.as_slice())?;
    cnf.add_clause_unless_tautology(others.as_slice())?;
    Ok(())
}

fn rule_out(
    alloc: Global,
    cnf: &mut Cnf,
    first: u64,
    count: u64,
    range: u8,
) -> Result<(), AllocError>
    requires count { count ≡ bit_count range }
    requires few { count ≤ 8 }
    requires from_1 { 0 < first }
    requires within { first + count ≤ cnf.old.vars + 1 }
    ensures { OnOk result
        (cnf.new ≡ with_var_count_and_clauses cnf.old cnf.old.vars
        (clauses_from_lists (non_value_clauses first range))) }
{
    for value in u64::from(range)..1 << count {
        rule_out_value(alloc, cnf, first, count, value)?;
    }
    Ok(())
}

/// Adds the variables of an integer from 0 to `range` - 1 to `cnf`, and no clause, and returns the
/// integer. On error, `cnf` may have grown.
pub fn reserve_number(cnf: &mut Cnf, range: u8) -> Result<Bounded, AllocError>
    ensures number { IfOk result (λ n. n ≡ record { first = cnf.old.vars + 1; range = range }) }
    ensures taken { OnOk result
        (cnf.new ≡ with_var_count cnf.old (cnf.old.vars + bit_count range)) }
{
    let first = cnf.vars() + 1;
    add_vars_to_cnf(cnf, bit_count(range))?;
    Ok(Bounded { first, range })
}

/// Adds the clauses of the integer `n`, whose variables exist, to `cnf`. On error, `cnf` may have
/// grown.
pub fn add_number_clauses(alloc: Global, cnf: &mut Cnf, n: Bounded) -> Result<(), AllocError>
    requires from_1 { 0 < n.first }
    requires within { n.first + bit_count n.range ≤ cnf.old.vars + 1 }
    ensures { OnOk result
        (cnf.new ≡ with_var_count_and_clauses cnf.old cnf.old.vars
        (clauses_from_lists (non_value_clauses n.first n.range))) }
{
    rule_out(alloc, cnf, n.first, bit_count(n.range), n.range)?;
    Ok(())
}

/// Adds an integer from 0 to `range` - 1 to `cnf`, and returns it. An earlier assignment extends
/// over its variables in exactly one way per value. On error, `cnf` may have grown.
pub fn number(alloc: Global, cnf: &mut Cnf, range: u8) -> Result<Bounded, AllocError>
    requires { 0 < range }
    ensures number { IfOk result (λ n. n ≡ record { first = cnf.old.vars + 1; range = range }) }
    ensures made { OnOk result (cnf.new ≡ with_part cnf.old (number_part range cnf.old.vars)) }
    ensures law { OnOk result
        ((a : List Bool) → length a ≡ cnf.old.vars →
        PartExtensionsAreExactly a (number_part range cnf.old.vars) (AreBitsInRange range)) }
{
    let _ = bit_count(range);
    let n = reserve_number(cnf, range)?;
    add_number_clauses(alloc, cnf, n)?;
    Ok(n)
}

/// Adds a variable to `cnf`, and no clause, and returns its positive literal.
pub fn new_var_lit(cnf: &mut Cnf) -> Result<Lit, AllocError>
    ensures lit { IfOk result (λ l. l ≡ positive_lit (cnf.old.vars + 1)) }
    ensures taken { OnOk result (cnf.new ≡ with_var_count cnf.old (cnf.old.vars + 1)) }
{
    let lit = Lit::new(cnf.fresh()?, true);
    Ok(lit)
}

/// Adds clauses to `cnf` that make `lit`, whose variable exists, true exactly if the integer `n` is
/// `value`. On error, `cnf` may have grown.
pub fn add_value_lit_clauses(
    alloc: Global,
    cnf: &mut Cnf,
    n: Bounded,
    value: u8,
    lit: Lit,
) -> Result<(), AllocError>
    requires from_1 { 0 < n.first }
    requires within { n.first + bit_count n.range ≤ cnf.old.vars + 1 }
    requires lit { IsTrue (is_clause_over cnf.old.vars (lit ∷ [])) }
    ensures { OnOk result
        (cnf.new
        ≡ with_var_count_and_clauses cnf.old cnf.old.vars
        (clauses_from_lists (and_gate_clauses lit (value_bit_lits n.first n.range value)))) }
{
    let _ = cnf.vars();
    let lits = lits_of(alloc, n.first, bit_count(n.range), u64::from(value))?;
    define_and_gate(alloc, cnf, lit, lits.as_slice())?;
    Ok(())
}

/// Adds a variable to `cnf` that is true exactly if the integer `n` is `value`, and returns its
/// positive literal. On error, `cnf` may have grown.
pub fn is(alloc: Global, cnf: &mut Cnf, n: Bounded, value: u8) -> Result<Lit, AllocError>
    requires below { value < n.range }
    requires from_1 { 0 < n.first }
    requires within { n.first + bit_count n.range ≤ cnf.old.vars + 1 }
    ensures lit { IfOk result (λ l. l ≡ positive_lit (cnf.old.vars + 1)) }
    ensures made { OnOk result
        (cnf.new ≡ with_part cnf.old (value_lit_part n.first n.range value cnf.old.vars)) }
    ensures law { OnOk result
        ((a : List Bool) → length a ≡ cnf.old.vars →
        PartExtensionsAreExactly a (value_lit_part n.first n.range value cnf.old.vars)
        (EqualsGivenValues (bits_have_value a n.first n.range value ∷ []))) }

    ensures exact { OnOk result
        ((a : List Bool) (v : ℕ) → v < n.range →
        assigned_bits_from_var a n.first (bit_count n.range)
        ≡ lowest_bits_of (bit_count n.range) v →
        bits_have_value a n.first n.range value ≡ (v == value)) }
{
    let _ = bit_count(n.range);
    let lit = new_var_lit(cnf)?;
    add_value_lit_clauses(alloc, cnf, n, value, lit)?;
    Ok(lit)
}

/// Returns the literal that is true exactly if the integer `n`, which has range 2, is `value`. It
/// is a literal of the only bit, so nothing is added.
pub fn one_bit_value_lit(n: Bounded, value: u8) -> Lit
    requires range { n.range ≡ 2 }
    requires value { value < 2 }
    requires from_1 { 0 < n.first }
    requires numbered { n.first ≤ 2 ^ 62 }
    ensures lit { result ≡ record { var = n.first; positive = (value == 1) } }
    ensures exact { (a : List Bool) → is_true a result ≡ bits_have_value a n.first n.range value }
{
    Lit::new(n.first, value == 1)
}

/// Returns the value of the integer `n` in the assignment `a`.
pub fn value_of(n: Bounded, a: &Assignment) -> u8
    requires from_1 { 0 < n.first }
    requires reached { n.first + bit_count n.range ≤ length a.now + 1 }
    requires satisfied { IsTrue
        (satisfies a.now (clauses_from_lists (non_value_clauses n.first n.range))) }
    ensures bits { assigned_bits_from_var a.now n.first (bit_count n.range) ≡
        lowest_bits_of (bit_count n.range) result }
    ensures below { result < n.range }
{
    let count = bit_count(n.range);
    let _ = a.len();
    let mut value = 0u64;
    for k in 0..count {
        let bit = a.value(n.first + (count - 1 - k));
        value = 2 * value + u64::from(bit);
    }
    value as u8
}
