ghost use Rattle.std.specs.Prelude.{◌≡◌, ◌↔◌, IfOk, IsTrue, OnOk};
ghost use Rattle.ilk_behave.specs.Behaviour.{system_of_plant};
ghost use Rattle.ilk_behave.specs.Steps.{SystemMatchesEvents};
ghost use Rattle.ilk_ir.specs.System.{plain_system, system_valid};
ghost use Rattle.ilk_layout.specs.Variables.{ranges_of_plant};
ghost use Rattle.ilk_unroll.specs.Goal.{plain_goal, goal_valid, step_count_is_allowed};
ghost use Rattle.ilk_unroll.specs.Query.{query_formula};
ghost use Rattle.ilk_queries.specs.Asked.{HasQueriedRun};
ghost use Rattle.ilk_queries.specs.Goal.{goal_forms_of_plant};
ghost use Rattle.ilk_queries.specs.Lifting.{GoalFormsMatchPlant};
ghost use Rattle.ilk_unroll.specs.Satisfied.{IsSatisfiable};

use crate::goals::goal;
use ilk_behave::behaviour;
use ilk_cnf::Cnf;
use ilk_ir::System;
use ilk_plant::Plant;
use ilk_unroll::{Goal, Wanted, query};
use std::alloc::{AllocError, Global};

#[tactic(auto, using(crate::proofs::Satisfying::valid_system, crate::proofs::Satisfying::valid_goal))]
fn formula_of(
    alloc: Global,
    plant: &Plant,
    system: &System,
    goal: &Goal,
    q: Wanted,
) -> Result<Cnf, AllocError>
    requires system { plain_system system.now ≡ system_of_plant plant.now }
    requires goal { plain_goal goal.now ≡ goal_forms_of_plant plant.now }
    requires system_valid { IsTrue (system_valid (system_of_plant plant.now)) }
    requires steps { SystemMatchesEvents plant.now }
    requires goal_valid { IsTrue
        (goal_valid (ranges_of_plant plant.now) (goal_forms_of_plant plant.now)) }
    requires means { GoalFormsMatchPlant plant.now (goal_forms_of_plant plant.now) }
    requires wanted { IsTrue (step_count_is_allowed q) }
    ensures formula { IfOk result
        (λ cnf. cnf ≡ query_formula (system_of_plant plant.now) (goal_forms_of_plant plant.now) q) }
    ensures satisfiable { OnOk result
        (IsSatisfiable
        (query_formula (system_of_plant plant.now) (goal_forms_of_plant plant.now) q) ↔
        HasQueriedRun plant.now q) }
{
    plant.prove_is_plant();
    query(alloc, system, goal, q)
}

/// Returns the formula of query `q` over `plant`. It is satisfiable if and only if the plant has a
/// run that the query asks for. A query has at most 16 steps, and a step query at least one. Fails
/// only if memory runs out.
pub fn formula(alloc: Global, plant: &Plant, q: Wanted) -> Result<Cnf, AllocError>
    requires { IsTrue (step_count_is_allowed q) }
    ensures formula { IfOk result
        (λ cnf. cnf ≡ query_formula (system_of_plant plant.now) (goal_forms_of_plant plant.now) q) }
    ensures satisfiable { OnOk result
        (IsSatisfiable
        (query_formula (system_of_plant plant.now) (goal_forms_of_plant plant.now) q) ↔
        HasQueriedRun plant.now q) }
{
    let system = behaviour(alloc, plant)?;
    let goal = goal(alloc, plant)?;
    formula_of(alloc, plant, &system, &goal, q)
}
