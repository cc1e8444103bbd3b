ghost use Rattle.std.specs.Prelude.{IfOk, IsTrue};
ghost use Rattle.ilk_ir.specs.System.{plain_system, system_valid};
ghost use Rattle.ilk_solver.specs.Answered.{IsEmpoweringLogWithinBudget};
ghost use Rattle.ilk_unroll.specs.Goal.{plain_goal, goal_valid, step_count_is_allowed};
ghost use Rattle.ilk_unroll.specs.Query.{query_formula};
ghost use Rattle.ilk_induct.specs.Due.{IsResponse};

use crate::pick::{is_restart_due, pick_negated_heaviest_unset_var};
use crate::searching::search;
use ilk_ir::System;
use ilk_log::{Log, refutations_refute};
use ilk_solver::{Answer, Outcome};
use ilk_unroll::{Goal, Trace, Wanted, query, read_back};
use std::alloc::{AllocError, Global};

/// The result of a search for the run that a query asks for.
#[derive(Drop)]
pub(crate) enum Response {
    /// A run that the query asks for.
    Run(Trace),
    /// There is no such run.
    Refuted,
    /// The search was given up: its conflict budget is used up.
    GivenUp,
}

/// The result of a query's search, and the log of the search.
#[derive(Drop)]
pub(crate) struct ResponseWithLog {
    pub response: Response,
    /// The steps of the search.
    pub log: Log,
}

/// Searches for the run that query `q` asks for, and learns at most `budget` clauses.
pub(crate) fn ask(
    alloc: Global,
    system: &System,
    goal: &Goal,
    q: Wanted,
    budget: u64,
) -> Result<ResponseWithLog, AllocError>
    requires system { IsTrue (system_valid (plain_system system.now)) }
    requires goal { IsTrue (goal_valid system.now.ranges (plain_goal goal.now)) }
    requires wanted { IsTrue (step_count_is_allowed q) }
    ensures log { IfOk result
        (λ r. IsEmpoweringLogWithinBudget (query_formula (plain_system system.now)
        (plain_goal goal.now) q) budget
        r.log) }
    ensures response { IfOk result
        (λ r. IsResponse (plain_system system.now)
        (plain_goal goal.now) q budget r.response r.log) }
{
    let cnf = query(alloc, system, goal, q)?;
    refutations_refute();
    let picks = Box::new(alloc, pick_negated_heaviest_unset_var)?;
    let asks = Box::new(alloc, is_restart_due)?;
    let Outcome { answer, log } = search(alloc, cnf, picks, asks, budget)?;
    match answer {
        Answer::Sat(a) => {
            let trace = read_back(alloc, system, goal, q, &a)?;
            Ok(ResponseWithLog {
                response: Response::Run(trace),
                log,
            })
        }
        Answer::Unsat => Ok(ResponseWithLog {
            response: Response::Refuted,
            log,
        }),
        Answer::Spent => Ok(ResponseWithLog {
            response: Response::GivenUp,
            log,
        }),
    }
}
