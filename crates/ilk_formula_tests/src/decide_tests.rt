ghost use Rattle.std.specs.Prelude.{◌<◌, ◌≤◌, [], ◌∷◌, IfOk, IsTrue};
ghost use Rattle.ilk_unroll.specs.Goal.{plain_goal, goal_valid};

use crate::query_tests::{one_way_switch_goal, switch};
use ilk_induct::{Verdict, decide};
use ilk_ir::{Form, Forms};
use ilk_unroll::{Goal, Wanted};
use std::alloc::{AllocError, Global};
use std::test::Fail;

// The switch starts at 0, there is no hazard, and the family always holds.
fn harmless_goal(alloc: Global) -> Result<Goal, AllocError>
    ensures { IfOk result (λ g. IsTrue (goal_valid (2 ∷ []) (plain_goal g))) }
{
    let mut families = Forms::new(alloc);
    families.push(Form::Yes)?;
    Ok(Goal {
        start: Form::Is(0, 0),
        hazard: Form::No,
        wellformed: Form::Yes,
        families,
    })
}

// The switch starts at 0, there is no hazard, and the family holds only at 0.
fn broken_goal(alloc: Global) -> Result<Goal, AllocError>
    ensures { IfOk result (λ g. IsTrue (goal_valid (2 ∷ []) (plain_goal g))) }
{
    let mut families = Forms::new(alloc);
    families.push(Form::Is(0, 0))?;
    Ok(Goal {
        start: Form::Is(0, 0),
        hazard: Form::No,
        wellformed: Form::Yes,
        families,
    })
}

// The switch has no initial state.
fn unreached_goal(alloc: Global) -> Result<Goal, AllocError>
    ensures { IfOk result (λ g. IsTrue (goal_valid (2 ∷ []) (plain_goal g))) }
{
    let mut families = Forms::new(alloc);
    families.push(Form::Is(0, 0))?;
    Ok(Goal {
        start: Form::No,
        hazard: Form::No,
        wellformed: Form::Yes,
        families,
    })
}

fn query_name(q: Wanted) -> &'static str {
    match q {
        Wanted::Hazard(0) => ", hazard 0",
        Wanted::Hazard(1) => ", hazard 1",
        Wanted::Hazard(2) => ", hazard 2",
        Wanted::Breach(0) => ", breach 0",
        Wanted::Breach(1) => ", breach 1",
        Wanted::Breach(2) => ", breach 2",
        Wanted::Step(1) => ", step 1",
        Wanted::Step(2) => ", step 2",
        _ => ", another",
    }
}

fn verdict_name(verdict: &Verdict) -> &'static str {
    match verdict {
        Verdict::Safe { k: 1 } => "safe at 1",
        Verdict::Safe { k: 2 } => "safe at 2",
        Verdict::Safe { .. } => "safe later",
        Verdict::Unsafe(trace) => match trace.rules.len() {
            0 => "unsafe by 0",
            1 => "unsafe by 1",
            _ => "unsafe by more",
        },
        Verdict::Breach(trace) => match trace.rules.len() {
            0 => "breach by 0",
            1 => "breach by 1",
            _ => "breach by more",
        },
        Verdict::NotInductive(trace) => match trace.rules.len() {
            1 => "not inductive by 1",
            _ => "not inductive by another",
        },
        Verdict::Spent => "spent",
    }
}

fn answer(alloc: Global, goal: &Goal, depth: u32, conflicts: u64) -> Result<String, AllocError>
    requires goal { IsTrue (goal_valid (2 ∷ []) (plain_goal goal.now)) }
    requires some_depth { 0 < depth }
    requires depth { depth ≤ 16 }
{
    let system = switch(alloc)?;
    let found = decide(alloc, &system, goal, depth, conflicts)?;
    let mut text = String::new(alloc);
    text.push_str(verdict_name(&found.verdict))?;
    for asked in found.asked.as_slice() {
        text.push_str(query_name(asked.query))?;
    }
    Ok(text)
}

#[test]
fn the_hazard_is_reached(rt: HostRuntime) -> Result<(), Fail> {
    let goal = one_way_switch_goal(rt.alloc())?;
    let a = answer(rt.alloc(), &goal, 16, 100)?;
    assert_eq!(rt; a.as_str(), "unsafe by 1, hazard 0, breach 0, hazard 1");
    Ok(())
}

#[test]
fn nothing_can_happen(rt: HostRuntime) -> Result<(), Fail> {
    let goal = harmless_goal(rt.alloc())?;
    let a = answer(rt.alloc(), &goal, 16, 100)?;
    assert_eq!(rt;
        a.as_str(),
        "safe at 1, hazard 0, breach 0, hazard 1, breach 1, step 1"
    );
    Ok(())
}

// After the breach only hazard queries are asked.
#[test]
fn the_family_is_broken(rt: HostRuntime) -> Result<(), Fail> {
    let goal = broken_goal(rt.alloc())?;
    let a = answer(rt.alloc(), &goal, 2, 100)?;
    assert_eq!(rt;
        a.as_str(),
        "breach by 1, hazard 0, breach 0, hazard 1, breach 1, hazard 2"
    );
    Ok(())
}

// One step leads out of the family from an unreachable state; two steps don't.
#[test]
fn the_family_is_left_from_elsewhere(rt: HostRuntime) -> Result<(), Fail> {
    let goal = unreached_goal(rt.alloc())?;
    let a = answer(rt.alloc(), &goal, 1, 100)?;
    assert_eq!(rt;
        a.as_str(),
        "not inductive by 1, hazard 0, breach 0, hazard 1, breach 1, step 1"
    );
    let a = answer(rt.alloc(), &goal, 2, 100)?;
    assert_eq!(rt;
        a.as_str(),
        "safe at 2, hazard 0, breach 0, hazard 1, breach 1, step 1, hazard 2, breach 2, step 2"
    );
    Ok(())
}
