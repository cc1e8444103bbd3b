ghost use Rattle.std.specs.Prelude.{◌≡◌, ◌+◌, ◌≤◌, ◌<◌, ◌∷◌, [], length, map, OnOk, IsTrue};
ghost use Rattle.std.specs.List.{list_all};
ghost use Rattle.ilk_cnf.specs.Formula.{is_clause_over};
ghost use Rattle.ilk_cnf.specs.Part.{with_part};
ghost use Rattle.ilk_ir.specs.System.{plain_rule, rule_valid};
ghost use Rattle.ilk_ir.specs.Form.{tree_of};
ghost use Rattle.ilk_ir.specs.Tree.{is, value_valid};
ghost use Rattle.ilk_forms.specs.Leaf.{has_lits_within_vars, ranges_of_copy_lits};
ghost use Rattle.ilk_step.specs.Rules.{settings_unless_skipped_part, rule_unless_skipped_part, rules_part};

use ilk_cnf::{Cnf, Lit};
use ilk_forms::{CopyLits, demand_some_lit_or_form};
use ilk_ir::{Form, Rule, Setting};
use std::alloc::{AllocError, Global};

fn set_form(s: Setting) -> Form
    ensures { tree_of result ≡ is s.var s.value }
{
    Form::Is(s.var, s.value)
}

fn add_settings(
    alloc: Global,
    cnf: &mut Cnf,
    next: &CopyLits,
    skip: Lit,
    sets: &[Setting],
) -> Result<(), AllocError>
    requires next { IsTrue (has_lits_within_vars cnf.old.vars next.now) }
    requires skip { IsTrue (is_clause_over cnf.old.vars (skip ∷ [])) }
    requires valid { IsTrue
        (list_all (λ s. value_valid (ranges_of_copy_lits next.now) s.var s.value) sets.now) }
    ensures { OnOk result
        (cnf.new ≡ with_part cnf.old (settings_unless_skipped_part next.now skip sets.now
        cnf.old.vars)) }
{
    for s in sets {
        demand_some_lit_or_form(alloc, cnf, next, &[skip], &set_form(*s))?;
    }
    Ok(())
}

fn add_rule(
    alloc: Global,
    cnf: &mut Cnf,
    now: &CopyLits,
    next: &CopyLits,
    skip: Lit,
    rule: &Rule,
) -> Result<(), AllocError>
    requires now { IsTrue (has_lits_within_vars cnf.old.vars now.now) }
    requires next { IsTrue (has_lits_within_vars cnf.old.vars next.now) }
    requires same { ranges_of_copy_lits next.now ≡ ranges_of_copy_lits now.now }
    requires skip { IsTrue (is_clause_over cnf.old.vars (skip ∷ [])) }
    requires valid { IsTrue (rule_valid (ranges_of_copy_lits now.now) (plain_rule rule.now)) }
    ensures { OnOk result
        (cnf.new
        ≡ with_part cnf.old
        (rule_unless_skipped_part now.now next.now skip (plain_rule rule.now) cnf.old.vars)) }
{
    demand_some_lit_or_form(alloc, cnf, now, &[skip], &rule.guard)?;
    add_settings(alloc, cnf, next, skip, rule.sets.as_slice())?;
    Ok(())
}

/// Adds to `cnf` clauses for each rule: it is not chosen, or its guard holds before the step and
/// its settings hold after it. `now` and `next` have the literals of the system's values before and
/// after the step. The variables that choose a rule begin at `first`.
pub(crate) fn add_rules(
    alloc: Global,
    cnf: &mut Cnf,
    now: &CopyLits,
    next: &CopyLits,
    first: u64,
    rules: &[Rule],
) -> Result<(), AllocError>
    requires now { IsTrue (has_lits_within_vars cnf.old.vars now.now) }
    requires next { IsTrue (has_lits_within_vars cnf.old.vars next.now) }
    requires same { ranges_of_copy_lits next.now ≡ ranges_of_copy_lits now.now }
    requires from_1 { 0 < first }
    requires numbered { first + length rules.now ≤ cnf.old.vars + 1 }
    requires valid { IsTrue
        (list_all (rule_valid (ranges_of_copy_lits now.now)) (map plain_rule rules.now)) }
    ensures { OnOk result
        (cnf.new
        ≡ with_part cnf.old
        (rules_part now.now next.now first (map plain_rule rules.now) cnf.old.vars)) }
{
    let mut k = first;
    for rule in rules {
        let _ = cnf.vars();
        add_rule(alloc, cnf, now, next, Lit::new(k, true), rule)?;
        k += 1;
    }
    Ok(())
}
