ghost use Rattle.std.specs.Prelude.{◌≡◌, [], IfNone, IfOk, IfSome, IsTrue};
ghost use Rattle.ilk_watches.specs.Reasons.{is_conflict};
ghost use Rattle.ilk_log.specs.Propagation.{is_saturated};
ghost use Rattle.ilk_trail.specs.Laws.{lits_of};
ghost use Rattle.ilk_solver.specs.Answered.{IsAnswer, IsEmpoweringLogWithinBudget};
ghost use Rattle.ilk_watches.specs.Propagated.{ExtendsByPropagation};
ghost use Rattle.ilk_solver.specs.Search.{all_clauses, new_search, with_trail};

use crate::answer::{Answer, Outcome};
use crate::picker::Picker;
use crate::restart::Restart;
use crate::search::Search;
use ilk_cnf::Cnf;
use std::alloc::{AllocError, Global};

/// A search before its first step, with its picker and restart policy.
#[derive(Drop)]
pub struct Solver {
    search: Search,
    picker: Picker,
    restart: Restart,
    alloc: Global,
    ghost unstarted: { search.log ≡ [] },
}

impl Solver {
    /// Creates a search for an assignment that satisfies `cnf`, at its start.
    pub fn new(
        alloc: Global,
        cnf: &Cnf,
        picker: Picker,
        restart: Restart,
    ) -> Result<Solver, AllocError>
        ensures search { IfOk result (λ solver. solver.search ≡ new_search cnf.now) }
        ensures picker { IfOk result (λ solver. solver.picker ≡ picker) }
        ensures restart { IfOk result (λ solver. solver.restart ≡ restart) }
    {
        Ok(Solver {
            search: Search::new(alloc, cnf)?,
            picker,
            restart,
            alloc,
        })
    }

    /// Assigns the literals that clauses force, until none is left, and returns `None`. Returns the
    /// number of a clause, from 0, if it becomes false. Takes no memory.
    pub fn propagate(&mut self) -> Option<u64>
        ensures conflict { IfSome result
            (λ c. IsTrue
            (is_conflict (all_clauses self.old.search)
            (lits_of self.new.search.view.trail.entries) c)) }
        ensures closed { IfNone result
            (IsTrue
            (is_saturated (all_clauses self.old.search)
            (lits_of self.new.search.view.trail.entries))) }
        ensures search { self.new.search
            ≡ with_trail self.old.search self.new.search.view.trail.entries }
        ensures picker { self.new.picker ≡ self.old.picker }
        ensures restart { self.new.restart ≡ self.old.restart }
        ensures propagated { ExtendsByPropagation (all_clauses self.old.search)
            self.old.search.view.trail.entries self.new.search.view.trail.entries }
    {
        self.search.propagate()
    }

    /// Searches for an assignment that satisfies the formula, and learns at most `budget` clauses
    /// from conflicts. Returns an assignment, or that there is none, or that the budget is spent,
    /// each with the log of the steps. A budget of 3^n always suffices over n variables.
    ///
    /// After each learned clause the restart policy decides, from their number so far, whether the
    /// search goes back to its start.
    pub fn solve(self, budget: u64) -> Result<Outcome, AllocError>
        ensures log { IfOk result (λ o.
            IsEmpoweringLogWithinBudget self.search.formula budget o.log) }
        ensures answer { IfOk result (λ o. IsAnswer self.search.formula budget o.answer o.log) }
    {
        let Solver {
            mut search,
            picker,
            restart,
            alloc,
        } = self;
        let mut steps = 0;
        'rounds: loop {
            match search.propagate() {
                None => {
                    if search.is_complete() {
                        let assignment = search.assignment(alloc)?;
                        return Ok(Outcome {
                            answer: Answer::Sat(assignment),
                            log: search.into_log(),
                        });
                    }
                    search.decide(picker.pick(search.view()));
                }
                Some(conflict) => {
                    if search.level() == 0 {
                        let last = search.empty_clause_step(alloc, conflict)?;
                        let mut log = search.into_log();
                        log.push(last)?;
                        return Ok(Outcome {
                            answer: Answer::Unsat,
                            log,
                        });
                    }
                    let learned = search.learn(alloc, conflict)?;
                    if steps == budget {
                        return Ok(Outcome {
                            answer: Answer::Spent,
                            log: search.into_log(),
                        });
                    }
                    steps += 1;
                    let level = restart.level_after(steps, learned.level);
                    search = search.backjump_and_add(learned, level)?;
                }
            }
        }
    }
}
