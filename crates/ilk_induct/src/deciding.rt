ghost use Rattle.std.specs.Prelude.{◌≡◌, ◌<◌, ◌≤◌, ◌⊎◌, IfOk, IsTrue};
ghost use Rattle.ilk_ir.specs.System.{plain_system, system_valid};
ghost use Rattle.ilk_unroll.specs.Goal.{plain_goal, goal_valid};
ghost use Rattle.ilk_certificate.specs.CertificateText.{total_conflicts};
ghost use Rattle.ilk_induct.specs.Asked.{AreQueriesOfVerdict};
ghost use Rattle.ilk_induct.specs.Certified.{QueriesProveVerdictIfSafe};
ghost use Rattle.ilk_induct.specs.Right.{IsExactSystemVerdict, SystemVerdictHoldsAtAnyLength};

use crate::ask::{ResponseWithLog, ask};
use crate::due::{DueQuery, Next, query_or_verdict_after_response};
use crate::verdict::{Found, Verdict};
use ilk_base::Row;
use ilk_certificate::Asked;
use ilk_ir::System;
use ilk_log::count_learned_clauses;
use ilk_unroll::{Goal, Wanted};
use std::alloc::{AllocError, Global};

/// Decides whether the system keeps to the goal, by runs of at most `depth` steps and searches that
/// learn at most `conflicts` clauses together. The system has to be valid, the goal's forms valid
/// over its ranges, and the depth from 1 to 16.
///
/// The queries are asked in this order: the hazard and breach queries for no step, then for each
/// number of steps from 1 to `depth` the hazard, breach and step queries. After a breach is found,
/// only the hazard queries continue. The first hazard query with a run ends the series, and so does
/// the first step query without one.
pub fn decide(
    alloc: Global,
    system: &System,
    goal: &Goal,
    depth: u32,
    conflicts: u64,
) -> Result<Found, AllocError>
    requires system { IsTrue (system_valid (plain_system system.now)) }
    requires goal { IsTrue (goal_valid system.now.ranges (plain_goal goal.now)) }
    requires some_depth { 0 < depth }
    requires depth { depth ≤ 16 }
    ensures right { IfOk result
        (λ found. IsExactSystemVerdict (plain_system system.now) (plain_goal goal.now) depth
        found.verdict
        ⊎ (found.verdict ≡ Verdict.Spent)) }

    ensures lasts { IfOk result
        (λ found. SystemVerdictHoldsAtAnyLength (plain_system system.now) (plain_goal goal.now)
        found.verdict) }
    ensures asked { IfOk result
        (λ found. AreQueriesOfVerdict (plain_system system.now)
        (plain_goal goal.now) depth conflicts
        found.verdict found.asked) }

    // If the verdict is safe, all queries but the step queries before the last are refuted.
    ensures certified { IfOk result
        (λ found. QueriesProveVerdictIfSafe (plain_system system.now)
        (plain_goal goal.now) found.verdict
        found.asked) }
    ensures few { IfOk result (λ found. total_conflicts found.asked ≤ conflicts) }
{
    let mut asked = Row::new(alloc);
    let mut left = conflicts;
    let mut due = DueQuery::Unbroken(Wanted::Hazard(0));
    loop {
        let query = due.query();
        let ResponseWithLog { response, log } = ask(alloc, system, goal, query, left)?;
        left -= count_learned_clauses(&log);
        asked.push(Asked { query, log })?;
        match query_or_verdict_after_response(depth, due, response) {
            Next::Ask(query) => due = query,
            Next::End(verdict) => return Ok(Found { verdict, asked }),
        }
    }
}
