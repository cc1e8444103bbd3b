ghost use Rattle.std.specs.Prelude.{◌≡◌, ℕ, ◌+◌, ◌*◌, ◌≤◌, ◌++◌, [], List, Bool, true, false, length, ◌&&◌, ◌||◌, OnOk, IsTrue};
ghost use Rattle.ilk_cnf.specs.Extends.{PartExtensionsAreExactly, PassesAndEqualsGivenValues};
ghost use Rattle.ilk_cnf.specs.Formula.{is_clause_over};
ghost use Rattle.ilk_cnf.specs.Part.{with_part};
ghost use Rattle.ilk_cnf.specs.Truth.{is_clause_true};
ghost use Rattle.ilk_ir.specs.Form.{tree_of, trees_of};
ghost use Rattle.ilk_ir.specs.Tree.{all_of, more, tree_holds, each_holds, tree_valid, each_valid};
ghost use Rattle.ilk_ir.specs.System.{in_ranges};
ghost use Rattle.ilk_forms.specs.Copy.{LiteralsEncode};
ghost use Rattle.ilk_forms.specs.Leaf.{has_lits_within_vars, ranges_of_copy_lits};
ghost use Rattle.ilk_forms.specs.Gates.{gates_within};
ghost use Rattle.ilk_forms.specs.Gathered.{forms_to_and_or_lits};
ghost use Rattle.ilk_forms.specs.Demand.{one_clause_part, some_lit_demand_with_gates, demand_of, demand_each, some_lit_or_form_part, some_lit_or_form_bits};
ghost use Rattle.ilk_forms.specs.Size.{tree_size};

use crate::bound::bound_lit_stated_by_or;
use crate::copy::CopyLits;
use crate::gates::{Gates, push_all, with_sign};
use crate::literals::{forms_to_and_or_lits, value_lit};
use ilk_cnf::{Cnf, Lit, Lits};
use ilk_ir::Form;
use std::alloc::{AllocError, Global};

/// Adds one clause to `cnf`: some literal of `first` or `others` is true.
fn add_clause_of_two_lists(
    alloc: Global,
    cnf: &mut Cnf,
    first: &[Lit],
    others: &[Lit],
) -> Result<(), AllocError>
    requires first { IsTrue (is_clause_over cnf.old.vars first.now) }
    requires others { IsTrue (is_clause_over cnf.old.vars others.now) }
    ensures { OnOk result
        (cnf.new ≡ with_part cnf.old (one_clause_part (first.now ++ others.now) cnf.old.vars)) }
{
    let mut lits = Lits::new(alloc);
    push_all(&mut lits, first)?;
    push_all(&mut lits, others)?;
    cnf.add_clause_unless_tautology(lits.as_slice())
}

// Demands that a literal of `first` is true, or some form holds (`positive`) or fails.
fn demand_some(
    alloc: Global,
    cnf: &mut Cnf,
    gates: &mut Gates,
    table: &CopyLits,
    first: &[Lit],
    positive: bool,
    forms: &[Form],
) -> Result<(), AllocError>
    requires within { IsTrue (has_lits_within_vars cnf.old.vars table.now) }
    requires gates { IsTrue (gates_within cnf.old.vars gates.old) }
    requires first { IsTrue (is_clause_over cnf.old.vars first.now) }
    requires valid { IsTrue (each_valid (ranges_of_copy_lits table.now) (trees_of forms.now)) }
    ensures made { OnOk result
        (cnf.new
        ≡ with_part cnf.old
        (some_lit_demand_with_gates first.now
        (forms_to_and_or_lits table.now false positive (trees_of forms.now) gates.old cnf.old.vars)
        cnf.old.vars).part) }
    ensures gates { OnOk result
        (gates.new
        ≡ gates.old
        ++ (forms_to_and_or_lits table.now false positive (trees_of forms.now) gates.old
        cnf.old.vars).gates) }
{
    let lits = forms_to_and_or_lits(alloc, cnf, gates, table, false, positive, forms)?;
    add_clause_of_two_lists(alloc, cnf, first, lits.as_slice())?;
    Ok(())
}

#[cycle(demand_some_lit_or_form)]
fn demand_of(
    alloc: Global,
    cnf: &mut Cnf,
    gates: &mut Gates,
    table: &CopyLits,
    first: &[Lit],
    positive: bool,
    form: &Form,
) -> Result<(), AllocError>
    requires within { IsTrue (has_lits_within_vars cnf.old.vars table.now) }
    requires gates { IsTrue (gates_within cnf.old.vars gates.old) }
    requires first { IsTrue (is_clause_over cnf.old.vars first.now) }
    requires valid { IsTrue (tree_valid (ranges_of_copy_lits table.now) (tree_of form.now)) }
    ensures made { OnOk result
        (cnf.new
        ≡ with_part cnf.old
        (demand_of table.now first.now positive (tree_of form.now) gates.old cnf.old.vars).part) }
    ensures gates { OnOk result
        (gates.new
        ≡ gates.old
        ++ (demand_of table.now first.now positive (tree_of form.now) gates.old
        cnf.old.vars).gates) }
{
    match form {
        Form::Yes if positive => Ok(()),
        Form::Yes => cnf.add_clause_unless_tautology(first),
        Form::No if positive => cnf.add_clause_unless_tautology(first),
        Form::No => Ok(()),
        Form::Is(v, c) => {
            let lit = with_sign(positive, value_lit(table, *v, *c));
            add_clause_of_two_lists(alloc, cnf, first, &[lit])
        }
        Form::And(forms) if positive => demand_each(alloc, cnf, gates, table, first, true, forms),
        Form::And(forms) => demand_some(alloc, cnf, gates, table, first, false, forms),
        Form::Or(forms) => match bound_lit_stated_by_or(table, forms) {
            Some(lit) => add_clause_of_two_lists(alloc, cnf, first, &[with_sign(positive, lit)]),
            None if positive => demand_some(alloc, cnf, gates, table, first, true, forms),
            None => demand_each(alloc, cnf, gates, table, first, false, forms),
        },
        Form::Not(f) => demand_of(alloc, cnf, gates, table, first, !positive, f),
    }
}

#[cycle(demand_some_lit_or_form)]
fn demand_each(
    alloc: Global,
    cnf: &mut Cnf,
    gates: &mut Gates,
    table: &CopyLits,
    first: &[Lit],
    positive: bool,
    forms: &[Form],
) -> Result<(), AllocError>
    requires within { IsTrue (has_lits_within_vars cnf.old.vars table.now) }
    requires gates { IsTrue (gates_within cnf.old.vars gates.old) }
    requires first { IsTrue (is_clause_over cnf.old.vars first.now) }
    requires valid { IsTrue (each_valid (ranges_of_copy_lits table.now) (trees_of forms.now)) }
    ensures made { OnOk result
        (cnf.new
        ≡ with_part cnf.old
        (demand_each table.now first.now positive (trees_of forms.now) gates.old
        cnf.old.vars).part) }
    ensures gates { OnOk result
        (gates.new
        ≡ gates.old
        ++ (demand_each table.now first.now positive (trees_of forms.now) gates.old
        cnf.old.vars).gates) }
{
    for form in forms {
        demand_of(alloc, cnf, gates, table, first, positive, form)?;
    }
    Ok(())
}

/// Adds clauses to `cnf` that say: some literal of `first` is true, or `form` holds for a copy's
/// values. `table` has the copy's literals, and `form` has to be valid over its variables. An And
/// at the top gives several clauses. An Or gives one clause that includes any Or within it. An Or
/// of v = 0, v = 1, .., v = k is the copy's literal for that bound, if there is one. Any other part
/// that is not a literal gets a new variable, true exactly if it holds; equal parts share one. On
/// error, `cnf` may have grown.
pub fn demand_some_lit_or_form(
    alloc: Global,
    cnf: &mut Cnf,
    table: &CopyLits,
    first: &[Lit],
    form: &Form,
) -> Result<(), AllocError>
    requires within { IsTrue (has_lits_within_vars cnf.old.vars table.now) }
    requires first { IsTrue (is_clause_over cnf.old.vars first.now) }
    requires valid { IsTrue (tree_valid (ranges_of_copy_lits table.now) (tree_of form.now)) }
    ensures made { OnOk result
        (cnf.new
        ≡ with_part cnf.old (some_lit_or_form_part table.now first.now
        (tree_of form.now) cnf.old.vars)) }

    // For values `ws` of the copy, an assignment extends over the part exactly if a literal of
    // `first` is true or the form holds. Each new variable then has one value.
    ensures law { OnOk result
        ((a : List Bool) (ranges ws : List ℕ) → length a ≡ cnf.old.vars →
        LiteralsEncode a table.now ranges ws → IsTrue (in_ranges ws ranges) →
        PartExtensionsAreExactly a
        (some_lit_or_form_part table.now first.now (tree_of form.now) cnf.old.vars)
        (PassesAndEqualsGivenValues (is_clause_true a first.now || tree_holds ws (tree_of form.now))
        (some_lit_or_form_bits table.now first.now (tree_of form.now) a))) }
    ensures more { OnOk result (cnf.old.vars ≤ cnf.new.vars) }
    ensures vars { OnOk result (cnf.new.vars ≤ cnf.old.vars + tree_size (tree_of form.now)) }
    ensures clauses { OnOk result
        (length cnf.new.clauses ≤ length cnf.old.clauses + 2 * tree_size (tree_of form.now)) }
{
    let mut gates = Gates::new(alloc);
    demand_of(alloc, cnf, &mut gates, table, first, true, form)?;
    Ok(())
}

/// Adds clauses to `cnf` that say that `form` and all of `forms` hold for a copy's values, as one
/// form: equal parts of any of them share one variable. `table` has the copy's literals, and the
/// forms have to be valid over its variables. On error, `cnf` may have grown.
pub fn demand_form_and_forms(
    alloc: Global,
    cnf: &mut Cnf,
    table: &CopyLits,
    form: &Form,
    forms: &[Form],
) -> Result<(), AllocError>
    requires within { IsTrue (has_lits_within_vars cnf.old.vars table.now) }
    requires form { IsTrue (tree_valid (ranges_of_copy_lits table.now) (tree_of form.now)) }
    requires valid { IsTrue (each_valid (ranges_of_copy_lits table.now) (trees_of forms.now)) }
    ensures made { OnOk result
        (cnf.new
        ≡ with_part cnf.old
        (some_lit_or_form_part table.now []
        (all_of (more (tree_of form.now) (trees_of forms.now))) cnf.old.vars)) }

    // For values `ws` of the copy, an assignment extends over the part exactly if all forms hold.
    // Each new variable then has one value.
    ensures law { OnOk result
        ((a : List Bool) (ranges ws : List ℕ) → length a ≡ cnf.old.vars →
        LiteralsEncode a table.now ranges ws → IsTrue (in_ranges ws ranges) →
        PartExtensionsAreExactly a
        (some_lit_or_form_part table.now []
        (all_of (more (tree_of form.now) (trees_of forms.now))) cnf.old.vars)
        (PassesAndEqualsGivenValues
        (tree_holds ws (tree_of form.now) && each_holds ws (trees_of forms.now))
        (some_lit_or_form_bits table.now []
        (all_of (more (tree_of form.now) (trees_of forms.now))) a))) }
    ensures more { OnOk result (cnf.old.vars ≤ cnf.new.vars) }
    ensures vars { OnOk result
        (cnf.new.vars
        ≤ cnf.old.vars + tree_size (all_of (more (tree_of form.now) (trees_of forms.now)))) }
{
    let mut gates = Gates::new(alloc);
    demand_of(alloc, cnf, &mut gates, table, &[], true, form)?;
    demand_each(alloc, cnf, &mut gates, table, &[], true, forms)?;
    Ok(())
}
