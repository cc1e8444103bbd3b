ghost use Rattle.std.specs.Prelude.{◌≡◌, ◌+◌, ◌<◌, ◌≤◌, ◌∷◌, [], length, OnOk, IsTrue};
ghost use Rattle.ilk_cnf.specs.Part.{with_part};
ghost use Rattle.ilk_ir.specs.Form.{tree_of, trees_of};
ghost use Rattle.ilk_ir.specs.Tree.{all_of, more, negation};
ghost use Rattle.ilk_unroll.specs.Goal.{demand_form_holds_in_copy, demand_form_fails_in_copy, form_demands_below_copy, demands_of, plain_goal, query_step_count};
ghost use Rattle.ilk_unroll.specs.Query.{demands_part};
ghost use Rattle.ilk_unroll.specs.Tables.{are_copies_within_vars, is_valid_in_each};

use crate::queries::{Goal, Wanted};
use crate::unroll::RunLits;
use ilk_cnf::Cnf;
use ilk_forms::{
    demand_form_and_forms, demand_form_or_some_fail, demand_some_form_fails,
    demand_some_lit_or_form,
};
use ilk_ir::{Form, Forms};
use std::alloc::{AllocError, Global};

fn demand_in(
    alloc: Global,
    cnf: &mut Cnf,
    tables: &RunLits,
    form: &Form,
    copy: u32,
) -> Result<(), AllocError>
    requires copy { copy < length tables.now }
    requires within { IsTrue (are_copies_within_vars cnf.old.vars tables.now) }
    requires valid { IsTrue (is_valid_in_each tables.now (tree_of form.now)) }
    ensures made { OnOk result
        (cnf.new
        ≡ with_part cnf.old
        (demands_part tables.now
        (demand_form_holds_in_copy copy (tree_of form.now) ∷ []) cnf.old.vars)) }
    ensures within { OnOk result (IsTrue (are_copies_within_vars cnf.new.vars tables.now)) }
{
    demand_some_lit_or_form(alloc, cnf, tables.at(u64::from(copy)), &[], form)?;
    Ok(())
}

fn demand_below(
    alloc: Global,
    cnf: &mut Cnf,
    tables: &RunLits,
    form: &Form,
    count: u32,
) -> Result<(), AllocError>
    requires count { count ≤ length tables.now }
    requires within { IsTrue (are_copies_within_vars cnf.old.vars tables.now) }
    requires valid { IsTrue (is_valid_in_each tables.now (tree_of form.now)) }
    ensures made { OnOk result
        (cnf.new
        ≡ with_part cnf.old
        (demands_part tables.now
        (form_demands_below_copy (tree_of form.now) count) cnf.old.vars)) }
    ensures within { OnOk result (IsTrue (are_copies_within_vars cnf.new.vars tables.now)) }
{
    for copy in 0..count {
        demand_in(alloc, cnf, tables, form, copy)?;
    }
    Ok(())
}

fn demand_all_in(
    alloc: Global,
    cnf: &mut Cnf,
    tables: &RunLits,
    form: &Form,
    forms: &Forms,
    copy: u32,
) -> Result<(), AllocError>
    requires copy { copy < length tables.now }
    requires within { IsTrue (are_copies_within_vars cnf.old.vars tables.now) }
    requires valid { IsTrue
        (is_valid_in_each tables.now (all_of (more (tree_of form.now) (trees_of forms.now)))) }
    ensures made { OnOk result
        (cnf.new
        ≡ with_part cnf.old
        (demands_part tables.now
        (demand_form_holds_in_copy copy
        (all_of (more (tree_of form.now) (trees_of forms.now))) ∷ [])
        cnf.old.vars)) }
    ensures within { OnOk result (IsTrue (are_copies_within_vars cnf.new.vars tables.now)) }
{
    let table = tables.at(u64::from(copy));
    demand_form_and_forms(alloc, cnf, table, form, forms.as_slice())?;
    Ok(())
}

// Demands that `form` and all of `forms` hold in each copy below `count`, as one form for each.
fn demand_all_below(
    alloc: Global,
    cnf: &mut Cnf,
    tables: &RunLits,
    form: &Form,
    forms: &Forms,
    count: u32,
) -> Result<(), AllocError>
    requires count { count ≤ length tables.now }
    requires within { IsTrue (are_copies_within_vars cnf.old.vars tables.now) }
    requires valid { IsTrue
        (is_valid_in_each tables.now (all_of (more (tree_of form.now) (trees_of forms.now)))) }
    ensures made { OnOk result
        (cnf.new
        ≡ with_part cnf.old
        (demands_part tables.now
        (form_demands_below_copy
        (all_of (more (tree_of form.now) (trees_of forms.now))) count)
        cnf.old.vars)) }
    ensures within { OnOk result (IsTrue (are_copies_within_vars cnf.new.vars tables.now)) }
{
    for copy in 0..count {
        demand_all_in(alloc, cnf, tables, form, forms, copy)?;
    }
    Ok(())
}

fn demand_violated(
    alloc: Global,
    cnf: &mut Cnf,
    tables: &RunLits,
    forms: &Forms,
    copy: u32,
) -> Result<(), AllocError>
    requires copy { copy < length tables.now }
    requires within { IsTrue (are_copies_within_vars cnf.old.vars tables.now) }
    requires valid { IsTrue (is_valid_in_each tables.now (all_of (trees_of forms.now))) }
    ensures { OnOk result
        (cnf.new
        ≡ with_part cnf.old
        (demands_part tables.now (demand_form_fails_in_copy copy (all_of (trees_of forms.now)) ∷ [])
        cnf.old.vars)) }
{
    demand_some_form_fails(alloc, cnf, tables.at(u64::from(copy)), forms.as_slice())?;
    Ok(())
}

fn demand_or_violated(
    alloc: Global,
    cnf: &mut Cnf,
    tables: &RunLits,
    form: &Form,
    forms: &Forms,
    copy: u32,
) -> Result<(), AllocError>
    requires copy { copy < length tables.now }
    requires within { IsTrue (are_copies_within_vars cnf.old.vars tables.now) }
    requires valid { IsTrue
        (is_valid_in_each tables.now (all_of
        (more (negation (tree_of form.now)) (trees_of forms.now)))) }
    ensures { OnOk result
        (cnf.new
        ≡ with_part cnf.old
        (demands_part tables.now
        (demand_form_fails_in_copy copy
        (all_of (more (negation (tree_of form.now)) (trees_of forms.now)))
        ∷ []) cnf.old.vars)) }
{
    let table = tables.at(u64::from(copy));
    demand_form_or_some_fail(alloc, cnf, table, form, forms.as_slice())?;
    Ok(())
}

fn add_hazard(
    alloc: Global,
    cnf: &mut Cnf,
    tables: &RunLits,
    goal: &Goal,
    steps: u32,
) -> Result<(), AllocError>
    requires steps { steps < length tables.now }
    requires within { IsTrue (are_copies_within_vars cnf.old.vars tables.now) }
    requires start { IsTrue (is_valid_in_each tables.now (tree_of goal.now.start)) }
    requires hazard { IsTrue (is_valid_in_each tables.now (tree_of goal.now.hazard)) }
    requires wellformed { IsTrue (is_valid_in_each tables.now (tree_of goal.now.wellformed)) }
    ensures { OnOk result
        (cnf.new
        ≡ with_part cnf.old
        (demands_part tables.now (demands_of (plain_goal goal.now) (Wanted.Hazard steps))
        cnf.old.vars)) }
{
    demand_in(alloc, cnf, tables, &goal.start, 0)?;
    demand_below(alloc, cnf, tables, &goal.wellformed, steps)?;
    demand_in(alloc, cnf, tables, &goal.hazard, steps)?;
    Ok(())
}

fn add_breach(
    alloc: Global,
    cnf: &mut Cnf,
    tables: &RunLits,
    goal: &Goal,
    steps: u32,
) -> Result<(), AllocError>
    requires steps { steps < length tables.now }
    requires few { steps ≤ 16 }
    requires within { IsTrue (are_copies_within_vars cnf.old.vars tables.now) }
    requires start { IsTrue (is_valid_in_each tables.now (tree_of goal.now.start)) }
    requires wellformed { IsTrue (is_valid_in_each tables.now (tree_of goal.now.wellformed)) }
    requires families { IsTrue (is_valid_in_each tables.now (all_of (trees_of goal.now.families))) }
    ensures { OnOk result
        (cnf.new
        ≡ with_part cnf.old
        (demands_part tables.now (demands_of (plain_goal goal.now) (Wanted.Breach steps))
        cnf.old.vars)) }
{
    demand_in(alloc, cnf, tables, &goal.start, 0)?;
    demand_below(alloc, cnf, tables, &goal.wellformed, steps + 1)?;
    demand_violated(alloc, cnf, tables, &goal.families, steps)?;
    Ok(())
}

fn add_step_query(
    alloc: Global,
    cnf: &mut Cnf,
    tables: &RunLits,
    goal: &Goal,
    steps: u32,
) -> Result<(), AllocError>
    requires steps { steps < length tables.now }
    requires within { IsTrue (are_copies_within_vars cnf.old.vars tables.now) }
    requires kept { IsTrue
        (is_valid_in_each tables.now
        (all_of (more (tree_of goal.now.wellformed) (trees_of goal.now.families)))) }
    requires last { IsTrue
        (is_valid_in_each tables.now
        (all_of (more (negation (tree_of goal.now.hazard)) (trees_of goal.now.families)))) }
    ensures { OnOk result
        (cnf.new
        ≡ with_part cnf.old
        (demands_part tables.now (demands_of (plain_goal goal.now) (Wanted.Step steps))
        cnf.old.vars)) }
{
    demand_all_below(alloc, cnf, tables, &goal.wellformed, &goal.families, steps)?;
    demand_or_violated(alloc, cnf, tables, &goal.hazard, &goal.families, steps)?;
    Ok(())
}

/// Adds to `cnf` the clauses for what query `q` demands of the copies: which forms of `goal` hold
/// or fail in which copy. `tables` has the copies' literals. On error, `cnf` may have grown.
pub(crate) fn add_query_demands(
    alloc: Global,
    cnf: &mut Cnf,
    tables: &RunLits,
    goal: &Goal,
    q: Wanted,
) -> Result<(), AllocError>
    requires steps { query_step_count q < length tables.now }
    requires few { query_step_count q ≤ 16 }
    requires within { IsTrue (are_copies_within_vars cnf.old.vars tables.now) }
    requires start { IsTrue (is_valid_in_each tables.now (tree_of goal.now.start)) }
    requires hazard { IsTrue (is_valid_in_each tables.now (tree_of goal.now.hazard)) }
    requires wellformed { IsTrue (is_valid_in_each tables.now (tree_of goal.now.wellformed)) }
    requires kept { IsTrue
        (is_valid_in_each tables.now
        (all_of (more (tree_of goal.now.wellformed) (trees_of goal.now.families)))) }
    requires families { IsTrue (is_valid_in_each tables.now (all_of (trees_of goal.now.families))) }
    requires last { IsTrue
        (is_valid_in_each tables.now
        (all_of (more (negation (tree_of goal.now.hazard)) (trees_of goal.now.families)))) }
    ensures { OnOk result
        (cnf.new
        ≡ with_part cnf.old
        (demands_part tables.now (demands_of (plain_goal goal.now) q) cnf.old.vars)) }
{
    match q {
        Wanted::Hazard(steps) => add_hazard(alloc, cnf, tables, goal, steps),
        Wanted::Breach(steps) => add_breach(alloc, cnf, tables, goal, steps),
        Wanted::Step(steps) => add_step_query(alloc, cnf, tables, goal, steps),
    }
}
