//! The clauses so far, the literals that they set at level 0, and the steps that derive them.

ghost use Rattle.std.specs.Prelude.{◌≡◌, ◌<◌, ◌+◌, ◌∷◌, [], true, false, length, IfOk, IfNone, IfSome, OnOk, IsTrue};
ghost use Rattle.ilk_cnf.specs.Formula.{is_clause_over};
ghost use Rattle.ilk_cnf.specs.Literal.{Literal, has_lit, has_distinct_vars};
ghost use Rattle.ilk_watches.specs.Reasons.{is_conflict};
ghost use Rattle.ilk_trail.specs.Laws.{lits_of};
ghost use Rattle.ilk_rup.specs.Standing.{HasSameFormulaAndConsequences, IsStepForCurrentLiterals, KeepsConsequencesTrailAndConflicts, IsClauseAddedWithStep, IsTryAddResult, IsValidMaybeUnpropagated, NoHintsDeriveClause, IsPropagatedWithoutConflict, IsClosedOrRefuted};

use crate::assume::{assume_negations, is_true, unset_literals_first};
use crate::explain::{Conflict, Explainer, reason_index_of_entry};
use crate::set::LitSet;
use ilk_cnf::{Cnf, Lit, Lits};
use ilk_log::{Hints, Log, Step};
use ilk_trail::Trail;
use ilk_watches::{NumberedClauses, PropagationProgress};
use std::alloc::{AllocError, Global};

/// A formula, the clauses derived so far, the literals that they set at level 0, and the log of the
/// steps that derive them.
#[derive(Drop)]
pub(crate) struct DerivationState<'a> {
    pub formula: &'a Cnf,
    pub clauses: NumberedClauses,
    pub trail: Trail,
    pub queue: PropagationProgress,
    pub explainer: Explainer,
    // The literals of the clause to add next: the current clause.
    pub set: LitSet,
    pub log: Log,
    // True if the log ends with the empty clause.
    pub refuted: bool,
}

fn alone(alloc: Global, l: Lit) -> Result<Lits, AllocError>
    ensures { IfOk result (λ clause. clause ≡ l ∷ []) }
{
    let mut clause = Lits::new(alloc);
    clause.push(l)?;
    Ok(clause)
}

impl<'a> DerivationState<'a> {
    /// Creates the base of the formula `cnf`: no clause derived, nothing set.
    pub fn new(alloc: Global, cnf: &'a Cnf) -> Result<DerivationState<'a>, AllocError>
        ensures loose { IfOk result (λ k. IsValidMaybeUnpropagated k) }
        ensures formula { IfOk result (λ k. k.formula.now ≡ cnf.now) }
        ensures clauses { IfOk result (λ k. k.clauses.clauses ≡ cnf.now.clauses) }
        ensures going { IfOk result (λ k. k.refuted ≡ false) }
    {
        let vars = cnf.vars();
        let _ = cnf.clauses();
        let clauses = NumberedClauses::from_cnf(alloc, cnf)?;
        let trail = Trail::new(alloc, vars)?;
        let queue = PropagationProgress::new();
        let explainer = Explainer::new(alloc, vars)?;
        let set = LitSet::new(alloc, vars)?;
        let log = Log::new(alloc);
        Ok(DerivationState {
            formula: cnf,
            clauses,
            trail,
            queue,
            explainer,
            set,
            log,
            refuted: false,
        })
    }

    fn add(&mut self, clause: Lits, hints: Hints) -> Result<(), AllocError>
        requires within { IsTrue (is_clause_over self.old.clauses.vars clause) }
        requires differ { IsTrue (has_distinct_vars clause) }
        ensures { OnOk result
            (IsClauseAddedWithStep self.old (record { clause = clause; hints = hints }) self.new) }
    {
        let _ = self.clauses.vars();
        self.clauses.add(clause.as_slice())?;
        self.log.push(Step { clause, hints })
    }

    // Adds the unit clause for the first entry that has none.
    fn name(&mut self, alloc: Global) -> Result<(), AllocError>
        requires loose { IsValidMaybeUnpropagated self.old }
        requires below { self.old.explainer.named < length self.old.trail.entries }
        ensures loose { OnOk result (IsValidMaybeUnpropagated self.new) }
        ensures same { OnOk result (KeepsConsequencesTrailAndConflicts self.old self.new) }
        ensures named { OnOk result (self.new.explainer.named ≡ self.old.explainer.named + 1) }
    {
        let _ = self.clauses.count();
        let _ = self.trail.count();
        let named = self.explainer.named;
        let l = self.trail.at(named);
        let reason = reason_index_of_entry(&self.clauses, &self.trail, named);
        let at = Conflict {
            clause: reason,
            from: named,
            top: named,
        };
        self.set.clear();
        self.set.put(l);
        let hints = self
            .explainer
            .explain(alloc, &self.clauses, &self.trail, &self.set, at)?;
        self.add(alone(alloc, l)?, hints)?;
        self.explainer.units[l.var() as usize] = self.clauses.count();
        self.explainer.named += 1;
        Ok(())
    }

    fn name_all(&mut self, alloc: Global) -> Result<(), AllocError>
        requires { IsValidMaybeUnpropagated self.old }
        ensures loose { OnOk result (IsValidMaybeUnpropagated self.new) }
        ensures same { OnOk result (KeepsConsequencesTrailAndConflicts self.old self.new) }
        ensures named { OnOk result (self.new.explainer.named ≡ length self.new.trail.entries) }
    {
        'names: while self.explainer.named < self.trail.count() {
            self.name(alloc)?;
        }
        Ok(())
    }

    /// Assigns the literals that the clauses force at level 0, and adds a unit clause for each. If
    /// a clause becomes false, derives the empty clause and sets `refuted`.
    pub fn propagate_units(&mut self, alloc: Global) -> Result<(), AllocError>
        requires loose { IsValidMaybeUnpropagated self.old }
        requires going { self.old.refuted ≡ false }
        ensures stands { OnOk result (IsClosedOrRefuted self.new) }
        ensures same { OnOk result (HasSameFormulaAndConsequences self.old self.new) }
    {
        'rounds: loop {
            match self.queue.propagate(&mut self.clauses, &mut self.trail) {
                None => {
                    if self.explainer.named == self.trail.count() {
                        return Ok(());
                    }
                    self.name_all(alloc)?;
                }
                Some(conflict) => {
                    self.name_all(alloc)?;
                    self.refute(alloc, conflict)?;
                    return Ok(());
                }
            }
        }
    }

    // Derives the empty clause, if clause `conflict` is false at level 0, and each entry has a unit
    // clause.
    fn refute(&mut self, alloc: Global, conflict: u64) -> Result<(), AllocError>
        requires loose { IsValidMaybeUnpropagated self.old }
        requires named { self.old.explainer.named ≡ length self.old.trail.entries }
        requires conflict { IsTrue
            (is_conflict self.old.clauses.clauses (lits_of self.old.trail.entries) conflict) }
        ensures stands { OnOk result (IsClosedOrRefuted self.new) }
        ensures same { OnOk result (HasSameFormulaAndConsequences self.old self.new) }
    {
        let _ = self.clauses.count();
        let _ = self.trail.count();
        let at = Conflict {
            clause: conflict,
            from: self.explainer.named,
            top: self.explainer.named,
        };
        self.set.clear();
        let hints = self
            .explainer
            .explain(alloc, &self.clauses, &self.trail, &self.set, at)?;
        let clause = Lits::new(alloc);
        self.log.push(Step { clause, hints })?;
        self.refuted = true;
        Ok(())
    }

    // Returns whether some literal of the current clause is true at level 0.
    fn knows(&self) -> bool
        requires { self.now.set.vars ≡ self.now.trail.vars }
        ensures yes { result ≡ true →
            (l : Literal) × IsTrue (has_lit l self.now.set.lits) ×
            IsTrue (has_lit l (lits_of self.now.trail.entries)) }
        ensures no { result ≡ false → (l : Literal) → has_lit l self.now.set.lits ≡ true →
            has_lit l (lits_of self.now.trail.entries) ≡ false }
    {
        for i in 0..self.set.len() {
            if is_true(&self.trail, self.set.at(i)) {
                return true;
            }
        }
        false
    }

    // Returns the clause of the current literals, none of which is true at level 0, with hints that
    // derive it. Returns `None` if and only if no hints do; the trail is unusable afterwards.
    fn derive(&mut self, alloc: Global) -> Result<Option<Step>, AllocError>
        requires settled { IsPropagatedWithoutConflict self.old }
        requires untrue { (l : Literal) → has_lit l self.old.set.lits ≡ true →
            has_lit l (lits_of self.old.trail.entries) ≡ false }
        ensures none { IfOk result (λ step. IfNone step (NoHintsDeriveClause self.old)) }
        ensures derived { IfOk result (λ step. IfSome step (λ s.
            IsStepForCurrentLiterals self.new s)) }
        ensures clauses { self.new.clauses.clauses ≡ self.old.clauses.clauses }
        ensures rest { self.new
            ≡ record self.old {
              clauses = self.new.clauses;
              trail = self.new.trail;
              queue = self.new.queue;
              explainer = self.new.explainer;
            } }
    {
        let _ = self.set.len();
        let _ = self.clauses.count();
        let known = self.trail.count();
        assume_negations(&mut self.trail, &self.set);
        let from = self.trail.count();
        if from == known {
            return Ok(None);
        }
        let Some(conflict) = self.queue.propagate(&mut self.clauses, &mut self.trail) else {
            let _ = self.trail.count();
            return Ok(None);
        };
        let _ = self.clauses.count();
        let top = self.trail.count();
        let at = Conflict {
            clause: conflict,
            from,
            top,
        };
        let hints = self
            .explainer
            .explain(alloc, &self.clauses, &self.trail, &self.set, at)?;
        self.trail.back_to(0);
        self.queue.back_to(&self.trail);
        let clause = unset_literals_first(alloc, &self.trail, &self.set)?;
        Ok(Some(Step { clause, hints }))
    }

    /// Returns whether some list of hints derives the current clause, which has the literals in
    /// `set`. If so, the base has its consequences afterwards. After `false` the base must not be
    /// used.
    pub fn try_add_clause(&mut self, alloc: Global) -> Result<bool, AllocError>
        requires { IsClosedOrRefuted self.old }
        ensures { IfOk result (λ right. IsTryAddResult self.old right self.new) }
    {
        if self.refuted {
            return Ok(true);
        }
        if self.knows() {
            return Ok(true);
        }
        let step = match self.derive(alloc)? {
            None => return Ok(false),
            Some(step) => step,
        };
        let _set = self.set.len();
        let _trail = self.trail.count();
        let _before = self.clauses.count();
        self.add(step.clause, step.hints)?;
        let _after = self.clauses.count();
        self.propagate_units(alloc)?;
        Ok(true)
    }
}
