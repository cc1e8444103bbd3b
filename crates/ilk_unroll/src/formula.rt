ghost use Rattle.std.specs.Prelude.{◌≡◌, ◌≤◌, ◌*◌, suc, sum, OnOk, IfOk, IsTrue};
ghost use Rattle.ilk_ir.specs.System.{plain_system, system_valid};
ghost use Rattle.ilk_unroll.specs.Goal.{plain_goal, goal_valid, step_count_is_allowed, query_step_count};
ghost use Rattle.ilk_unroll.specs.Query.{copies_part, query_formula};
ghost use Rattle.ilk_unroll.specs.Represented.{IsSatisfiedByEachRun, IsSatisfiedOnlyByRuns};

use crate::demands::add_query_demands;
use crate::queries::{Goal, Wanted};
use crate::unroll::unroll;
use ilk_cnf::Cnf;
use ilk_ir::System;
use std::alloc::{AllocError, Global};

/// Returns the formula of query `q`: a copy of the system's values at the start and after each
/// step, the steps, and the demands. Its satisfying assignments are exactly those of the runs for
/// which the query asks, one for each run. The system has to be valid, and the goal's forms valid
/// over its ranges. The query has at most 16 steps, and an induction step at least one. Fails only
/// if memory runs out.
pub fn query(alloc: Global, system: &System, goal: &Goal, q: Wanted) -> Result<Cnf, AllocError>
    requires system { IsTrue (system_valid (plain_system system.now)) }
    requires goal { IsTrue (goal_valid system.now.ranges (plain_goal goal.now)) }
    requires wanted { IsTrue (step_count_is_allowed q) }
    ensures formula { IfOk result
        (λ cnf. cnf ≡ query_formula (plain_system system.now) (plain_goal goal.now) q) }

    ensures copies { OnOk result
        ((copies_part system.now.ranges (suc (query_step_count q)) 0).part.vars
        ≤ 2 * (suc (query_step_count q) * sum system.now.ranges)) }

    ensures sound { OnOk result
        (IsSatisfiedOnlyByRuns (plain_system system.now) (plain_goal goal.now) q) }

    ensures complete { OnOk result
        (IsSatisfiedByEachRun (plain_system system.now) (plain_goal goal.now) q) }
{
    let mut cnf = Cnf::new(alloc);
    let unrolled = unroll(alloc, &mut cnf, system, q.steps())?;
    add_query_demands(alloc, &mut cnf, &unrolled.tables, goal, q)?;
    Ok(cnf)
}
