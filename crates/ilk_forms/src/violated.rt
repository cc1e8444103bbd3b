ghost use Rattle.std.specs.Prelude.{◌≡◌, ℕ, ◌+◌, ◌≤◌, List, Bool, ◌&&◌, not, length, map, OnOk, IsTrue};
ghost use Rattle.ilk_cnf.specs.Extends.{PartExtensionsAreExactly, PassesAndEqualsGivenValues};
ghost use Rattle.ilk_cnf.specs.Formula.{is_clause_over};
ghost use Rattle.ilk_cnf.specs.Literal.{negated_lit};
ghost use Rattle.ilk_cnf.specs.Part.{with_part};
ghost use Rattle.ilk_ir.specs.Form.{tree_of, trees_of};
ghost use Rattle.ilk_ir.specs.Tree.{all_of, negation, more, tree_holds, each_holds, tree_valid, each_valid};
ghost use Rattle.ilk_ir.specs.System.{in_ranges};
ghost use Rattle.ilk_forms.specs.Copy.{LiteralsEncode};
ghost use Rattle.ilk_forms.specs.Leaf.{has_lits_within_vars, ranges_of_copy_lits};
ghost use Rattle.ilk_forms.specs.Demand.{one_clause_part};
ghost use Rattle.ilk_forms.specs.Size.{tree_size};
ghost use Rattle.ilk_forms.specs.Violated.{form_fails_part, form_fails_bits};

use crate::copy::CopyLits;
use crate::gates::{Gates, push_all};
use crate::literals::{forms_to_and_or_lits, negation_to_and_or_lits};
use ilk_cnf::{Cnf, Lit, negated_lits};
use ilk_ir::Form;
use std::alloc::{AllocError, Global};

// Adds one clause to `cnf`: some instance (condition) is violated. Each literal of `kept` says that
// its instance is satisfied.
fn demand_some_violated(alloc: Global, cnf: &mut Cnf, kept: &[Lit]) -> Result<(), AllocError>
    requires { IsTrue (is_clause_over cnf.old.vars kept.now) }
    ensures { OnOk result
        (cnf.new ≡ with_part cnf.old (one_clause_part (map negated_lit kept.now) cnf.old.vars)) }
{
    let violated = negated_lits(alloc, kept)?;
    cnf.add_clause_unless_tautology(violated.as_slice())
}

/// Adds clauses to `cnf` that say that some of `forms` fails for a copy's values. `table` has the
/// copy's literals, and the forms have to be valid over its variables. The parts of And at the top
/// of a form, or else the form itself, are instances, and one clause says that some instance is
/// violated. On error, `cnf` may have grown.
pub fn demand_some_form_fails(
    alloc: Global,
    cnf: &mut Cnf,
    table: &CopyLits,
    forms: &[Form],
) -> Result<(), AllocError>
    requires within { IsTrue (has_lits_within_vars cnf.old.vars table.now) }
    requires valid { IsTrue (each_valid (ranges_of_copy_lits table.now) (trees_of forms.now)) }
    ensures made { OnOk result
        (cnf.new
        ≡ with_part cnf.old
        (form_fails_part table.now (all_of (trees_of forms.now)) cnf.old.vars)) }

    // For values `ws` of the copy, an assignment extends over the part exactly if some form fails.
    // Each new variable then has one value.
    ensures law { OnOk result
        ((a : List Bool) (ranges ws : List ℕ) → length a ≡ cnf.old.vars →
        LiteralsEncode a table.now ranges ws → IsTrue (in_ranges ws ranges) →
        PartExtensionsAreExactly a
        (form_fails_part table.now (all_of (trees_of forms.now)) cnf.old.vars)
        (PassesAndEqualsGivenValues (not (each_holds ws (trees_of forms.now)))
        (form_fails_bits table.now (all_of (trees_of forms.now)) a))) }
    ensures more { OnOk result (cnf.old.vars ≤ cnf.new.vars) }
    ensures vars { OnOk result
        (cnf.new.vars ≤ cnf.old.vars + tree_size (all_of (trees_of forms.now))) }
{
    let mut gates = Gates::new(alloc);
    let kept = forms_to_and_or_lits(alloc, cnf, &mut gates, table, true, true, forms)?;
    demand_some_violated(alloc, cnf, kept.as_slice())?;
    Ok(())
}

/// Adds clauses to `cnf` that say that `form` holds for a copy's values, or some of `forms` fails,
/// as in `demand_some_form_fails`. `table` has the copy's literals. The parts of Or at the top of
/// `form` are instances too, satisfied if the part fails. An Or of v = 0, v = 1, .., v = k is one
/// instance if the copy has a literal for that bound. On error, `cnf` may have grown.
pub fn demand_form_or_some_fail(
    alloc: Global,
    cnf: &mut Cnf,
    table: &CopyLits,
    form: &Form,
    forms: &[Form],
) -> Result<(), AllocError>
    requires within { IsTrue (has_lits_within_vars cnf.old.vars table.now) }
    requires form { IsTrue (tree_valid (ranges_of_copy_lits table.now) (tree_of form.now)) }
    requires valid { IsTrue (each_valid (ranges_of_copy_lits table.now) (trees_of forms.now)) }
    ensures made { OnOk result
        (cnf.new
        ≡ with_part cnf.old
        (form_fails_part table.now
        (all_of (more (negation (tree_of form.now)) (trees_of forms.now)))
        cnf.old.vars)) }
    ensures law { OnOk result
        ((a : List Bool) (ranges ws : List ℕ) → length a ≡ cnf.old.vars →
        LiteralsEncode a table.now ranges ws → IsTrue (in_ranges ws ranges) →
        PartExtensionsAreExactly a
        (form_fails_part table.now
        (all_of (more (negation (tree_of form.now)) (trees_of forms.now)))
        cnf.old.vars)
        (PassesAndEqualsGivenValues
        (not
        (not (tree_holds ws (tree_of form.now))
        && each_holds ws (trees_of forms.now)))
        (form_fails_bits table.now
        (all_of (more (negation (tree_of form.now)) (trees_of forms.now))) a))) }
    ensures more { OnOk result (cnf.old.vars ≤ cnf.new.vars) }
    ensures vars { OnOk result
        (cnf.new.vars
        ≤ cnf.old.vars + tree_size
        (all_of (more (negation (tree_of form.now)) (trees_of forms.now)))) }
{
    let mut gates = Gates::new(alloc);
    let mut kept = negation_to_and_or_lits(alloc, cnf, &mut gates, table, true, true, form)?;
    let others = forms_to_and_or_lits(alloc, cnf, &mut gates, table, true, true, forms)?;
    push_all(&mut kept, others.as_slice())?;
    demand_some_violated(alloc, cnf, kept.as_slice())?;
    Ok(())
}
