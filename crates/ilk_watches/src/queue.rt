ghost use Rattle.std.specs.Prelude.{◌≡◌, ◌<◌, ◌≤◌, ℕ, IfNone, IfSome, IsTrue, false, length, min};
ghost use Rattle.ilk_cnf.specs.Formula.{is_lit_over};
ghost use Rattle.ilk_log.specs.Propagation.{is_saturated};
ghost use Rattle.ilk_trail.specs.Trail.{with_decision};
ghost use Rattle.ilk_trail.specs.Laws.{is_set, lits_of};
ghost use Rattle.ilk_watches.specs.Reasons.{is_conflict};
ghost use Rattle.ilk_watches.specs.Chained.{SameClauses};
ghost use Rattle.ilk_watches.specs.Propagated.{ExtendsByPropagation};
ghost use Rattle.ilk_watches.specs.Watched.{IsPropagationInvariant};

use crate::clauses::NumberedClauses;
use crate::look::{ClauseState, clause_state};
use crate::walk::propagate_from;
use ilk_cnf::Lit;
use ilk_trail::Trail;

/// The progress of propagation. The entries of the trail before `head` are propagated, and the
/// clauses before `settled` are examined.
#[derive(Clone, Copy)]
pub struct PropagationProgress {
    pub head: u64,
    pub settled: u64,
}

impl PropagationProgress {
    /// Creates the progress at the start, with nothing propagated.
    pub fn new() -> PropagationProgress
        ensures { result ≡ record { head = 0; settled = 0 } }
    {
        PropagationProgress {
            head: 0,
            settled: 0,
        }
    }

    /// Assigns the literals that clauses force, until none is left, and returns `None`. Returns the
    /// number of a clause if it becomes false. Takes no memory.
    pub fn propagate(&mut self, clauses: &mut NumberedClauses, trail: &mut Trail) -> Option<u64>
        requires vars { trail.old.vars ≡ clauses.old.vars }
        requires queue { IsPropagationInvariant clauses.old trail.old.entries self.old.head
            self.old.settled }
        ensures conflict { IfSome result
            (λ c. IsTrue (is_conflict clauses.old.clauses (lits_of trail.new.entries) c)) }
        ensures closed { IfNone result
            (IsTrue (is_saturated clauses.old.clauses (lits_of trail.new.entries))) }
        ensures ended { IfNone result
            ((self.new.head ≡ length trail.new.entries) ×
            (self.new.settled ≡ length clauses.old.clauses)) }
        ensures queue { IsPropagationInvariant clauses.new trail.new.entries self.new.head
            self.new.settled }
        ensures clauses { SameClauses clauses.old clauses.new }
        ensures trail { trail.new ≡ record trail.old { entries = trail.new.entries } }
        ensures propagated { ExtendsByPropagation clauses.old.clauses trail.old.entries
            trail.new.entries }
    {
        match self.settle(clauses, trail) {
            Some(c) => Some(c),
            None => self.run(clauses, trail),
        }
    }

    fn settle(&mut self, clauses: &NumberedClauses, trail: &mut Trail) -> Option<u64>
        requires vars { trail.old.vars ≡ clauses.now.vars }
        requires queue { IsPropagationInvariant clauses.now trail.old.entries self.old.head
            self.old.settled }
        ensures conflict { IfSome result
            (λ c. IsTrue (is_conflict clauses.now.clauses (lits_of trail.new.entries) c)) }
        ensures settled { IfNone result (self.new.settled ≡ length clauses.now.clauses) }
        ensures queue { IsPropagationInvariant clauses.now trail.new.entries self.new.head
            self.new.settled }
        ensures trail { trail.new ≡ record trail.old { entries = trail.new.entries } }
        ensures propagated { ExtendsByPropagation clauses.now.clauses trail.old.entries
            trail.new.entries }
    {
        'looks: while self.settled < clauses.count() {
            match clause_state(clauses, trail, self.settled) {
                ClauseState::Conflict => return Some(self.settled),
                ClauseState::Unit(l) => trail.assign(l, self.settled),
                ClauseState::Open => {}
            }
            self.settled += 1;
        }
        None
    }

    fn run(&mut self, clauses: &mut NumberedClauses, trail: &mut Trail) -> Option<u64>
        requires vars { trail.old.vars ≡ clauses.old.vars }
        requires queue { IsPropagationInvariant clauses.old trail.old.entries self.old.head
            self.old.settled }
        requires settled { self.old.settled ≡ length clauses.old.clauses }
        ensures conflict { IfSome result
            (λ c. IsTrue (is_conflict clauses.old.clauses (lits_of trail.new.entries) c)) }
        ensures closed { IfNone result
            (IsTrue (is_saturated clauses.old.clauses (lits_of trail.new.entries))) }
        ensures ended { IfNone result (self.new.head ≡ length trail.new.entries) }
        ensures settled { self.new.settled ≡ self.old.settled }
        ensures queue { IsPropagationInvariant clauses.new trail.new.entries self.new.head
            self.new.settled }
        ensures clauses { SameClauses clauses.old clauses.new }
        ensures trail { trail.new ≡ record trail.old { entries = trail.new.entries } }
        ensures propagated { ExtendsByPropagation clauses.old.clauses trail.old.entries
            trail.new.entries }
    {
        let _ = clauses.count();
        if self.head == trail.count() {
            return None;
        }
        if let Some(c) = propagate_from(clauses, trail, self.head) {
            return Some(c);
        }
        let _ = clauses.count();
        self.head = trail.count();
        None
    }

    /// Opens the next level of `trail` with the unset literal `l`. Propagation has to be complete.
    pub fn decide(&mut self, clauses: &mut NumberedClauses, trail: &mut Trail, l: Lit)
        requires vars { trail.old.vars ≡ clauses.old.vars }
        requires queue { IsPropagationInvariant clauses.old trail.old.entries self.old.head
            self.old.settled }
        requires within { IsTrue (is_lit_over trail.old.vars l) }
        requires unset { is_set trail.old.entries l.var ≡ false }
        requires closed { IsTrue (is_saturated clauses.old.clauses (lits_of trail.old.entries)) }
        ensures trail { trail.new ≡ record trail.old {
          entries =
              with_decision trail.old.entries l;
        } }
        ensures clauses { SameClauses clauses.old clauses.new }
        ensures ended { (self.new.head ≡ length trail.old.entries) ×
            (self.new.settled ≡ length clauses.old.clauses) }
        ensures queue { IsPropagationInvariant clauses.new trail.new.entries self.new.head
            self.new.settled }
    {
        let _ = self.propagate(clauses, trail);
        let _ = clauses.count();
        let _ = trail.level();
        trail.decide(l);
    }

    /// Adjusts the progress after levels were removed from `trail`.
    pub fn back_to(&mut self, trail: &Trail)
        ensures { self.new
            ≡ record self.old { head = min self.old.head (length trail.now.entries) } }
    {
        self.head = self.head.min(trail.count());
    }
}
