ghost use Rattle.std.specs.Prelude.{◌≡◌, ◌+◌, ◌*◌, ◌≤◌, ◌∷◌, ◌++◌, [], List, Bool, length, map, IfOk, OnOk, IsTrue};
ghost use Rattle.ilk_cnf.specs.Extends.{PartExtensionsAreExactly, PassesAndEqualsGivenValues};
ghost use Rattle.ilk_cnf.specs.Formula.{is_clause_over, with_var_count_and_clauses};
ghost use Rattle.ilk_cnf.specs.Literal.{negated_lit, positive_lit};
ghost use Rattle.ilk_cnf.specs.Part.{with_part, clauses_from_lists};
ghost use Rattle.ilk_cnf.specs.Truth.{is_true};
ghost use Rattle.ilk_ints.specs.OneOf.{not_with_any_clauses, at_most_one_clauses, disjoint_or_clauses, disjoint_or_part, exactly_one_of_few_part, exactly_one_part, exactly_one_true, exactly_one_bits};

use ilk_cnf::{Clause, Cnf, Lit, Lits};
use std::alloc::{AllocError, Global};

/// The greatest number of literals that `one_of` joins into a new one, and that it compares in
/// pairs.
pub(crate) const MAX_JOINED: usize = 4;

fn rule_out_with_each(cnf: &mut Cnf, before: &[Lit], lit: Lit) -> Result<(), AllocError>
    requires { IsTrue (is_clause_over cnf.old.vars (lit ∷ before.now)) }
    ensures { OnOk result
        (cnf.new ≡ with_var_count_and_clauses cnf.old cnf.old.vars
        (clauses_from_lists (not_with_any_clauses before.now lit))) }
{
    for other in before {
        cnf.add_clause_unless_tautology(&[other.negated(), lit.negated()])?;
    }
    Ok(())
}

fn rule_out_pairs(cnf: &mut Cnf, lits: &[Lit]) -> Result<(), AllocError>
    requires { IsTrue (is_clause_over cnf.old.vars lits.now) }
    ensures { OnOk result
        (cnf.new ≡ with_var_count_and_clauses cnf.old cnf.old.vars
        (clauses_from_lists (at_most_one_clauses [] lits.now))) }
{
    for i in 0..lits.len() {
        rule_out_with_each(cnf, &lits[..i], lits[i])?;
    }
    Ok(())
}

fn imply_joined(cnf: &mut Cnf, lits: &[Lit], joined: Lit) -> Result<(), AllocError>
    requires { IsTrue (is_clause_over cnf.old.vars (joined ∷ lits.now)) }
    ensures { OnOk result
        (cnf.new ≡ with_var_count_and_clauses cnf.old cnf.old.vars
        (clauses_from_lists (map (λ l. negated_lit l ∷ joined ∷ []) lits.now))) }
{
    for lit in lits {
        cnf.add_clause_unless_tautology(&[lit.negated(), joined])?;
    }
    Ok(())
}

fn demand_some_if(alloc: Global, cnf: &mut Cnf, lits: &[Lit], joined: Lit) -> Result<(), AllocError>
    requires { IsTrue (is_clause_over cnf.old.vars (joined ∷ lits.now)) }
    ensures { OnOk result
        (cnf.new ≡ with_var_count_and_clauses cnf.old cnf.old.vars
        (clauses_from_lists ((negated_lit joined ∷ lits.now) ∷ []))) }
{
    let mut wide = Lits::new(alloc);
    wide.push(joined.negated())?;
    for lit in lits {
        wide.push(*lit)?;
    }
    cnf.add_clause_unless_tautology(wide.as_slice())
}

// Adds the clauses that make `joined` true exactly if one of `lits` is, and that rule out any two.
fn add_either(alloc: Global, cnf: &mut Cnf, lits: &[Lit], joined: Lit) -> Result<(), AllocError>
    requires { IsTrue (is_clause_over cnf.old.vars (joined ∷ lits.now)) }
    ensures { OnOk result
        (cnf.new ≡ with_var_count_and_clauses cnf.old cnf.old.vars
        (clauses_from_lists (disjoint_or_clauses lits.now joined))) }
{
    imply_joined(cnf, lits, joined)?;
    demand_some_if(alloc, cnf, lits, joined)?;
    rule_out_pairs(cnf, lits)
}

fn join(alloc: Global, cnf: &mut Cnf, lits: &[Lit]) -> Result<Lit, AllocError>
    requires { IsTrue (is_clause_over cnf.old.vars lits.now) }
    ensures lit { IfOk result (λ l. l ≡ positive_lit (cnf.old.vars + 1)) }
    ensures made { OnOk result (cnf.new ≡ with_part cnf.old (disjoint_or_part lits.now
        cnf.old.vars)) }
{
    let joined = Lit::new(cnf.fresh()?, true);
    add_either(alloc, cnf, lits, joined)?;
    Ok(joined)
}

fn demand_one_of_few(cnf: &mut Cnf, lits: &[Lit]) -> Result<(), AllocError>
    requires { IsTrue (is_clause_over cnf.old.vars lits.now) }
    ensures { OnOk result
        (cnf.new ≡ with_part cnf.old (exactly_one_of_few_part lits.now cnf.old.vars)) }
{
    rule_out_pairs(cnf, lits)?;
    cnf.add_clause_unless_tautology(lits)
}

// Joins the first `MAX_JOINED` literals of the queue into a new one at its end until no more are
// left, and demands exactly one of those. Joined literals stay in the `Vec`, before `first`.
fn join_all(alloc: Global, cnf: &mut Cnf, queue: Vec<Lit>) -> Result<(), AllocError>
    requires { IsTrue (is_clause_over cnf.old.vars queue.items) }
    ensures { OnOk result
        (cnf.new ≡ with_part cnf.old (exactly_one_part queue.items cnf.old.vars)) }
{
    let mut queue = queue;
    let mut first = 0;
    while queue.len() - first > MAX_JOINED {
        let joined = join(alloc, cnf, &queue[first..first + MAX_JOINED])?;
        queue.push(joined)?;
        first += MAX_JOINED;
    }
    demand_one_of_few(cnf, &queue[first..])
}

/// Adds clauses to `cnf` that say that exactly one of `lits` is true. On error, `cnf` may have
/// grown.
pub fn one_of(alloc: Global, cnf: &mut Cnf, lits: &Clause) -> Result<(), AllocError>
    requires { IsTrue (is_clause_over cnf.old.vars lits.now) }
    ensures made { OnOk result
        (cnf.new ≡ with_part cnf.old (exactly_one_part lits.now cnf.old.vars)) }
    ensures law { OnOk result
        ((a : List Bool) → length a ≡ cnf.old.vars →
        PartExtensionsAreExactly a (exactly_one_part lits.now cnf.old.vars)
        (PassesAndEqualsGivenValues (exactly_one_true (map (is_true a) lits.now))
        (exactly_one_bits (map (is_true a) lits.now)))) }
    ensures few { OnOk result
        (length cnf.new.clauses ≤ length cnf.old.clauses + 4 * length lits.now + 1) }
{
    join_all(alloc, cnf, Vec::from_slice(alloc, lits.as_slice())?)?;
    Ok(())
}
