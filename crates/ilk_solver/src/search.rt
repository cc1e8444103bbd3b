ghost use Rattle.std.specs.Prelude.{◌≡◌, ◌≤◌, ◌<◌, [], ◌∷◌, false, true, IfNone, IfOk, IfSome, IsTrue};
ghost use Rattle.ilk_watches.specs.Reasons.{is_conflict};
ghost use Rattle.ilk_watches.specs.Watched.{FirstTwoAreWatchable};
ghost use Rattle.ilk_cnf.specs.Formula.{is_clause_over, is_lit_over};
ghost use Rattle.ilk_cnf.specs.Literal.{has_distinct_vars};
ghost use Rattle.ilk_log.specs.Derived.{is_derived};
ghost use Rattle.ilk_log.specs.Propagation.{is_saturated};
ghost use Rattle.ilk_trail.specs.Trail.{with_decision, level_of, entries_up_to};
ghost use Rattle.ilk_trail.specs.Laws.{IsTrail, is_set, lits_of};
ghost use Rattle.ilk_watches.specs.Propagated.{ExtendsByPropagation};
ghost use Rattle.ilk_solver.specs.Search.{HasStepAdded, IsSearch, all_clauses, new_search, with_trail};
ghost use Rattle.ilk_solver.specs.View.{IsValidView};
ghost use Rattle.ilk_solver.specs.Levels.{LowerLevelsAreSaturated};
ghost use Rattle.ilk_solver.specs.Assigned.{AllSet, SomeUnset};
ghost use Rattle.ilk_solver.specs.Learned.{IsLearnedAssertingStep, HasOneStepMore};
ghost use Rattle.ilk_solver.specs.Answered.{IsSolution};

use crate::assigned::assignment;
use crate::view::View;
use crate::word::WEIGHT_LIMIT;
use ilk_cnf::{Assignment, Cnf, Lit};
use ilk_learn::{Learned, learn, refute};
use ilk_log::{Log, Step};
use ilk_watches::{NumberedClauses, PropagationProgress};
use std::alloc::{AllocError, Global};
use std::marker::Model;

/// The state of a search: the clauses of the formula and of the steps, the progress of propagation,
/// the steps, and the view. It doesn't choose the decisions.
#[derive(Drop)]
pub(crate) struct Search {
    clauses: NumberedClauses,
    queue: PropagationProgress,
    given: u64,
    log: Log,
    view: View,
}

impl Model for Search {
    ghost use Rattle.ilk_solver.specs.Search.{FormulaLogAndView};
    ghost use Rattle.ilk_watches.specs.Chained.{formula_of};
    ghost use Rattle.ilk_solver.specs.Held.{search_with_log_and_view, HoldsSearchPropagatedTo};

    ghost Value = { FormulaLogAndView };

    ghost view = { λ s. search_with_log_and_view (formula_of s.clauses) s.given s.log s.view };

    ghost invariant = { λ s. HoldsSearchPropagatedTo s.clauses s.queue.head s.queue.settled
        s.given s.log s.view };
}

impl Search {
    /// Creates the search for an assignment of `cnf`, with no steps and nothing assigned.
    pub fn new(alloc: Global, cnf: &Cnf) -> Result<Search, AllocError>
        ensures { IfOk result (λ s. s ≡ new_search cnf.now) }
    {
        let view = View::new(alloc, cnf.vars())?;
        let clauses = NumberedClauses::from_cnf(alloc, cnf)?;
        let given = clauses.count();
        let queue = PropagationProgress::new();
        let log = Log::new(alloc);
        Ok(Search {
            clauses,
            queue,
            given,
            log,
            view,
        })
    }

    /// Returns the trail and the weights, as a picker sees them.
    pub fn view(&self) -> &View
        ensures view { result.now ≡ self.now.view }
        ensures search { IsSearch self.now }
        ensures lists { IsValidView self.now.view }
    {
        let _ = self.view.vars();
        &self.view
    }

    /// Assigns the literals that clauses force, until none is left, and returns `None`. Returns the
    /// number of a clause if it becomes false. Takes no memory.
    pub fn propagate(&mut self) -> Option<u64>
        ensures conflict { IfSome result
            (λ c. IsTrue
            (is_conflict (all_clauses self.old) (lits_of self.new.view.trail.entries) c)) }
        ensures closed { IfNone result
            (IsTrue (is_saturated (all_clauses self.old) (lits_of self.new.view.trail.entries))) }
        ensures same { self.new ≡ with_trail self.old self.new.view.trail.entries }
        ensures propagated { ExtendsByPropagation (all_clauses self.old) self.old.view.trail.entries
            self.new.view.trail.entries }
    {
        let _ = self.view.vars();
        self.view.propagate(&mut self.queue, &mut self.clauses)
    }

    /// Opens the next level with the unset literal `l`. Propagation has to be complete.
    pub fn decide(&mut self, l: Lit)
        requires within { IsTrue (is_lit_over self.old.formula.vars l) }
        requires unset { is_set self.old.view.trail.entries l.var ≡ false }
        requires closed { IsTrue
            (is_saturated (all_clauses self.old) (lits_of self.old.view.trail.entries)) }
        ensures { self.new ≡ with_trail self.old (with_decision self.old.view.trail.entries l) }
    {
        let _ = self.view.vars();
        self.view.decide(&mut self.queue, &mut self.clauses, l);
    }

    /// Removes the entries of the levels above `level`.
    pub fn back_to(&mut self, level: u64)
        requires { level ≤ level_of self.old.view.trail.entries }
        ensures entries { self.new ≡ with_trail self.old
            (entries_up_to level self.old.view.trail.entries) }
        ensures level { level_of self.new.view.trail.entries ≡ level }
    {
        let _ = self.view.vars();
        let _ = self.clauses.count();
        self.view.back_to(level);
        self.queue.back_to(self.view.trail());
    }

    /// Adds a step at the current level. At each lower level its clause must be neither false nor a
    /// unit; at this one it may force only its first literal. Fails if memory runs out, or for 2^32
    /// clauses, which a weight cannot count.
    pub fn add(self, step: Step) -> Result<Search, AllocError>
        requires within { IsTrue (is_clause_over self.formula.vars step.clause) }
        requires differ { IsTrue (has_distinct_vars step.clause) }
        requires closed { LowerLevelsAreSaturated (step.clause ∷ []) self.view.trail.entries }
        requires addable { FirstTwoAreWatchable self.view.trail.entries step.clause }
        ensures { IfOk result (λ s. HasStepAdded self step s) }
    {
        let Search {
            mut clauses,
            queue,
            given,
            mut log,
            mut view,
        } = self;
        let _ = view.vars();
        let _ = clauses.arena();
        clauses.add(step.clause.as_slice())?;
        if clauses.count() >= WEIGHT_LIMIT {
            return Err(AllocError);
        }
        view.count(step.clause.as_slice());
        log.push(step)?;
        Ok(Search {
            clauses,
            queue,
            given,
            log,
            view,
        })
    }

    /// Returns whether every variable has a value on the trail.
    pub fn is_complete(&self) -> bool
        ensures yes { result ≡ true → AllSet self.now.view }
        ensures no { result ≡ false → SomeUnset self.now.view }
    {
        self.view.is_complete()
    }

    /// Returns the current level: the number of decisions on the trail.
    pub fn level(&self) -> u64
        ensures level { result ≡ level_of self.now.view.trail.entries }
        ensures few { result ≤ self.now.formula.vars }
        ensures trail { IsTrail self.now.view.trail }
    {
        let _ = self.view.vars();
        self.view.trail().level()
    }

    /// Returns the assignment on the trail, which satisfies the formula. Every variable must have a
    /// value, and propagation must be complete.
    pub fn assignment(&self, alloc: Global) -> Result<Assignment, AllocError>
        requires set { AllSet self.now.view }
        requires closed { IsTrue
            (is_saturated (all_clauses self.now) (lits_of self.now.view.trail.entries)) }
        ensures { IfOk result (λ a. IsSolution self.now.formula a) }
    {
        let _ = self.view.vars();
        let _ = self.clauses.count();
        assignment(alloc, &self.view)
    }

    /// Returns the step learned from clause `conflict`, and the level to go back to. All literals
    /// of the clause must be false, and the current level above 0.
    pub fn learn(&self, alloc: Global, conflict: u64) -> Result<Learned, AllocError>
        requires conflict { IsTrue
            (is_conflict (all_clauses self.now) (lits_of self.now.view.trail.entries) conflict) }
        requires level { 0 < level_of self.now.view.trail.entries }
        ensures { IfOk result (λ l. IsLearnedAssertingStep self.now l.step l.level) }
    {
        let _ = self.view.vars();
        learn(alloc, &self.clauses, self.view.trail(), conflict)
    }

    /// Returns the step that derives the empty clause. All literals of clause `conflict` must be
    /// false, and the current level 0.
    pub fn empty_clause_step(&self, alloc: Global, conflict: u64) -> Result<Step, AllocError>
        requires conflict { IsTrue
            (is_conflict (all_clauses self.now) (lits_of self.now.view.trail.entries) conflict) }
        requires level { level_of self.now.view.trail.entries ≡ 0 }
        ensures derived { IfOk result
            (λ s. IsTrue (is_derived self.now.formula.vars (all_clauses self.now) s)) }
        ensures empty { IfOk result (λ s. s.clause ≡ []) }
    {
        let _ = self.view.vars();
        refute(alloc, &self.clauses, self.view.trail(), conflict)
    }

    /// Goes back to `level`, which is at most `learned.level`, and adds the learned step.
    pub fn backjump_and_add(mut self, learned: Learned, level: u64) -> Result<Search, AllocError>
        requires learned { IsLearnedAssertingStep self learned.step learned.level }
        requires level { level ≤ learned.level }
        ensures { IfOk result (λ s. HasOneStepMore self learned.step s) }
    {
        let _ = self.level();
        self.back_to(level);
        self.add(learned.step)
    }

    /// Converts the search into the log of its steps.
    pub fn into_log(self) -> Log
        ensures { result ≡ self.log }
    {
        let Search { log, .. } = self;
        log
    }
}
