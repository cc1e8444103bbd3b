ghost use Rattle.std.specs.Prelude.{◌≡◌, ◌+◌, ◌≤◌, ◌<◌, ◌^◌, ◌++◌, ◌∷◌, [], length, map, OnOk, IfOk, IsTrue};
ghost use Rattle.ilk_cnf.specs.Formula.{with_var_count_and_clauses, clause_unless_tautology, is_clause_over};
ghost use Rattle.ilk_cnf.specs.Part.{with_part, clauses_from_lists};
ghost use Rattle.ilk_ir.specs.System.{plain_rule};
ghost use Rattle.ilk_forms.specs.Leaf.{has_lits_within_vars, ranges_of_copy_lits};
ghost use Rattle.ilk_step.specs.Frame.{sets_variable, setter_lits, equal_unless_any_true, value_lits_to_carry_over, frame_axiom, frame_axioms_part};

use ilk_cnf::{Cnf, Lit, Lits};
use ilk_forms::{CopyLits, VarValueAndBoundLits};
use ilk_ir::{Rule, Setting};
use std::alloc::{AllocError, Global};

fn sets_variable(v: u64, sets: &[Setting]) -> bool
    ensures { result ≡ sets_variable v sets.now }
{
    sets.iter().any(|s| u64::from(s.var) == v)
}

fn setters(alloc: Global, v: u64, first: u64, rules: &[Rule]) -> Result<Lits, AllocError>
    requires from_1 { 0 < first }
    requires numbered { first + length rules.now ≤ 2 ^ 62 + 1 }
    ensures { IfOk result (λ lits. lits ≡ setter_lits v first (map plain_rule rules.now)) }
{
    let mut lits = Lits::new(alloc);
    for (i, rule) in rules.iter().enumerate() {
        if sets_variable(v, rule.sets.as_slice()) {
            lits.push(Lit::new(first + i as u64, false))?;
        }
    }
    Ok(lits)
}

fn add_pair(alloc: Global, cnf: &mut Cnf, first: &Lits, l: Lit, m: Lit) -> Result<(), AllocError>
    requires first { IsTrue (is_clause_over cnf.old.vars first.now) }
    requires pair { IsTrue (is_clause_over cnf.old.vars (l ∷ m ∷ [])) }
    ensures { OnOk result
        (cnf.new ≡ with_var_count_and_clauses cnf.old cnf.old.vars
        (clause_unless_tautology (first.now ++ l ∷ m ∷ []))) }
{
    let mut lits = first.copy()?;
    lits.push(l)?;
    lits.push(m)?;
    cnf.add_clause_unless_tautology(lits.as_slice())?;
    Ok(())
}

fn add_same(alloc: Global, cnf: &mut Cnf, first: &Lits, l: Lit, m: Lit) -> Result<(), AllocError>
    requires first { IsTrue (is_clause_over cnf.old.vars first.now) }
    requires pair { IsTrue (is_clause_over cnf.old.vars (l ∷ m ∷ [])) }
    ensures { OnOk result
        (cnf.new
        ≡ with_var_count_and_clauses cnf.old cnf.old.vars
        (clauses_from_lists (equal_unless_any_true first.now (l ∷ []) (m ∷ [])))) }
{
    add_pair(alloc, cnf, first, l.negated(), m)?;
    add_pair(alloc, cnf, first, l, m.negated())?;
    Ok(())
}

fn equal_unless_any_true(
    alloc: Global,
    cnf: &mut Cnf,
    first: &Lits,
    now: &[Lit],
    next: &[Lit],
) -> Result<(), AllocError>
    requires first { IsTrue (is_clause_over cnf.old.vars first.now) }
    requires now { IsTrue (is_clause_over cnf.old.vars now.now) }
    requires next { IsTrue (is_clause_over cnf.old.vars next.now) }
    ensures { OnOk result
        (cnf.new
        ≡ with_var_count_and_clauses cnf.old cnf.old.vars
        (clauses_from_lists (equal_unless_any_true first.now now.now next.now))) }
{
    for i in 0..now.len().min(next.len()) {
        add_same(alloc, cnf, first, now[i], next[i])?;
    }
    Ok(())
}

fn carried(values: &[Lit]) -> &[Lit]
    ensures { result.now ≡ value_lits_to_carry_over values.now }
{
    if values.len() == 2 {
        &values[..1]
    } else {
        values
    }
}

fn add_frame(
    alloc: Global,
    cnf: &mut Cnf,
    first: &Lits,
    now: &VarValueAndBoundLits,
    next: &VarValueAndBoundLits,
) -> Result<(), AllocError>
    requires first { IsTrue (is_clause_over cnf.old.vars first.now) }
    requires columns { IsTrue (has_lits_within_vars cnf.old.vars (now.now ∷ next.now ∷ [])) }
    ensures { OnOk result
        (cnf.new ≡ with_var_count_and_clauses cnf.old cnf.old.vars
        (clauses_from_lists (frame_axiom first.now now.now next.now))) }
{
    equal_unless_any_true(
        alloc,
        cnf,
        first,
        carried(now.values.as_slice()),
        carried(next.values.as_slice()),
    )?;
    equal_unless_any_true(
        alloc,
        cnf,
        first,
        now.bounds.as_slice(),
        next.bounds.as_slice(),
    )?;
    Ok(())
}

/// Adds to `cnf` clauses that each variable of the system is set by the chosen rule or keeps its
/// value. `now` and `next` have the literals of its values before and after the step. The variables
/// that choose a rule begin at `first`.
pub(crate) fn add_frame_axioms(
    alloc: Global,
    cnf: &mut Cnf,
    now: &CopyLits,
    next: &CopyLits,
    rules: &[Rule],
    first: u64,
) -> Result<(), AllocError>
    requires now { IsTrue (has_lits_within_vars cnf.old.vars now.now) }
    requires next { IsTrue (has_lits_within_vars cnf.old.vars next.now) }
    requires same { ranges_of_copy_lits next.now ≡ ranges_of_copy_lits now.now }
    requires from_1 { 0 < first }
    requires numbered { first + length rules.now ≤ cnf.old.vars + 1 }
    ensures { OnOk result
        (cnf.new
        ≡ with_part cnf.old
        (frame_axioms_part (map plain_rule rules.now) first now.now next.now cnf.old.vars)) }
{
    for (v, column) in now.as_slice().iter().enumerate() {
        let _ = cnf.vars();
        let setters = setters(alloc, v as u64, first, rules)?;
        add_frame(alloc, cnf, &setters, column, next.at(v as u64))?;
    }
    Ok(())
}
