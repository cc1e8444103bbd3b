ghost use Rattle.std.specs.Prelude.{◌≡◌, [], ◌∷◌, IfOk, IsTrue};
ghost use Rattle.ilk_ir.specs.System.{plain_system, system_valid};
ghost use Rattle.ilk_unroll.specs.Goal.{plain_goal, goal_valid, step_count_is_allowed};

use crate::assignments::assignment_of;
use ilk_ir::{Form, Forms, Ranges, Rule, Rules, Sets, Setting, System};
use ilk_unroll::{Goal, Trace, Wanted, query, read_back};
use std::alloc::{AllocError, Global};
use std::test::Fail;

/// Creates a system with one variable of two values and one rule, which sets it from 0 to 1.
pub(crate) fn switch(alloc: Global) -> Result<System, AllocError>
    ensures ranges { IfOk result (λ s. s.ranges ≡ 2 ∷ []) }
    ensures valid { IfOk result (λ s. IsTrue (system_valid (plain_system s))) }
{
    let mut ranges = Ranges::new(alloc);
    ranges.push(2)?;
    let mut sets = Sets::new(alloc);
    sets.push(Setting { var: 0, value: 1 })?;
    let mut rules = Rules::new(alloc);
    rules.push(Rule {
        guard: Form::Is(0, 0),
        sets,
    })?;
    Ok(System { ranges, rules })
}

/// Creates the goal for `switch`: it starts at 0, 1 is a hazard, and its only family always holds.
pub(crate) fn one_way_switch_goal(alloc: Global) -> Result<Goal, AllocError>
    ensures { IfOk result (λ g. IsTrue (goal_valid (2 ∷ []) (plain_goal g))) }
{
    let mut families = Forms::new(alloc);
    families.push(Form::Yes)?;
    Ok(Goal {
        start: Form::Is(0, 0),
        hazard: Form::Is(0, 1),
        wellformed: Form::Is(0, 0),
        families,
    })
}

// The size of a query's formula, and the runs of its satisfying assignments.
#[derive(Drop)]
struct Found {
    vars: u64,
    clauses: u64,
    runs: Vec<Trace>,
}

fn ask(alloc: Global, q: Wanted, patterns: u64) -> Result<Found, AllocError>
    requires { IsTrue (step_count_is_allowed q) }
{
    let system = switch(alloc)?;
    let goal = one_way_switch_goal(alloc)?;
    let cnf = query(alloc, &system, &goal, q)?;
    let mut runs = Vec::new(alloc);
    for pattern in 0..patterns {
        let a = assignment_of(alloc, cnf.vars(), pattern)?;
        if cnf.satisfies(&a) {
            runs.push(read_back(alloc, &system, &goal, q, &a)?)?;
        }
    }
    Ok(Found {
        vars: cnf.vars(),
        clauses: cnf.clauses(),
        runs,
    })
}

#[test]
fn the_hazard_is_no_start(rt: HostRuntime) -> Result<(), Fail> {
    let hazard = ask(rt.alloc(), Wanted::Hazard(0), 2)?;
    assert_eq!(rt; hazard.vars, 1);
    assert_eq!(rt; hazard.clauses, 2);
    assert_eq!(rt; hazard.runs.len(), 0);
    let breach = ask(rt.alloc(), Wanted::Breach(0), 2)?;
    assert_eq!(rt; breach.vars, 1);
    assert_eq!(rt; breach.clauses, 3);
    assert_eq!(rt; breach.runs.len(), 0);
    Ok(())
}

#[test]
fn the_rule_fires_once(rt: HostRuntime) -> Result<(), Fail> {
    let hazard = ask(rt.alloc(), Wanted::Hazard(2), 32)?;
    assert_eq!(rt; hazard.vars, 5);
    assert_eq!(rt; hazard.clauses, 14);
    assert_eq!(rt; hazard.runs.len(), 0);
    let step = ask(rt.alloc(), Wanted::Step(2), 32)?;
    assert_eq!(rt; step.vars, 5);
    assert_eq!(rt; step.clauses, 13);
    assert_eq!(rt; step.runs.len(), 0);
    Ok(())
}

#[test]
fn one_step_leads_to_the_hazard(rt: HostRuntime) -> Result<(), Fail> {
    let hazard = ask(rt.alloc(), Wanted::Hazard(1), 8)?;
    assert_eq!(rt; hazard.vars, 3);
    assert_eq!(rt; hazard.clauses, 8);
    assert_eq!(rt; hazard.runs.len(), 1);
    assert_eq!(rt; hazard.runs[0].first.as_slice(), [0].as_slice());
    assert_eq!(rt; hazard.runs[0].rules.as_slice(), [0].as_slice());
    Ok(())
}

#[test]
fn one_step_breaks_the_invariant(rt: HostRuntime) -> Result<(), Fail> {
    let step = ask(rt.alloc(), Wanted::Step(1), 8)?;
    assert_eq!(rt; step.vars, 3);
    assert_eq!(rt; step.clauses, 7);
    assert_eq!(rt; step.runs.len(), 1);
    assert_eq!(rt; step.runs[0].first.as_slice(), [0].as_slice());
    assert_eq!(rt; step.runs[0].rules.as_slice(), [0].as_slice());
    Ok(())
}
