ghost use Rattle.std.specs.Prelude.{◌≡◌, ◌+◌, ◌-◌, ◌<◌, ◌^◌, true, false, [], ◌∷◌, ◌++◌, List, Some, length, slice_index_or, IfOk, OnOk, IsTrue};
ghost use Rattle.ilk_watches.specs.Chained.{formula_of};
ghost use Rattle.ilk_watches.specs.Reasons.{nth_clause_or_empty, HasReasons};
ghost use Rattle.ilk_cnf.specs.Literal.{Literal, has_var};
ghost use Rattle.ilk_cnf.specs.Formula.{is_lit_over};
ghost use Rattle.ilk_log.specs.declared.step.Step.{Step as StepValue};
ghost use Rattle.ilk_trail.specs.declared.entry.Entry.{Entry};
ghost use Rattle.ilk_trail.specs.Trail.{entry_of};
ghost use Rattle.ilk_trail.specs.Laws.{is_set};
ghost use Rattle.ilk_learn.specs.Resolvent.{with_lit_of_new_var, with_lits_of_new_vars, resolvent};
ghost use Rattle.ilk_learn.specs.Levels.{is_current};
ghost use Rattle.ilk_learn.specs.Learning.{has_var_and_one_current, resolved_with_reason_if_needed};
ghost use Rattle.ilk_learn.specs.Hand.{WorkingClauseHolds, IsConflictOfCurrentLevel, WorkingClauseHoldsStepFields, ConflictWalkEndedAt, are_in_range_and_set, step_from_conflict_clause};

use ilk_cnf::Lit;
use ilk_trail::Trail;
use ilk_watches::NumberedClauses;
use smallvec::SmallVec;
use std::alloc::{AllocError, Global};

// The number of lower literals, and of hints, that fit into `WorkingClause` itself.
const SHORT: usize = 16;

/// The clause of a conflict while it is resolved with reasons, and the hints that derive it. Up to
/// 16 lower literals and 16 hints need no allocation.
#[derive(Drop)]
pub(crate) struct WorkingClause {
    // By variable: whether the clause has a literal of it.
    pub marks: Vec<bool>,
    // The number of its literals that were set at the current level.
    pub current: u64,
    // Its other literals.
    pub lower: SmallVec<Lit, SHORT>,
    // In reverse order.
    pub hints: SmallVec<u64, SHORT>,
}

impl WorkingClause {
    /// Creates the empty clause over variables 1 to `vars`, without hints.
    pub fn new(alloc: Global, trail: &Trail, vars: u64) -> Result<WorkingClause, AllocError>
        requires few { vars < 2 ^ 63 }
        requires vars { vars ≡ trail.now.vars }
        ensures holds { IfOk result (λ h. WorkingClauseHolds trail.now h []) }
        ensures hints { IfOk result (λ h. h.hints.items ≡ []) }
    {
        Ok(WorkingClause {
            marks: vec![in alloc; false; vars as usize + 1]?,
            current: 0,
            lower: SmallVec::new(alloc),
            hints: SmallVec::new(alloc),
        })
    }

    // Adds `lit`, if the clause has no literal of its variable.
    fn meet(&mut self, trail: &Trail, lit: Lit) -> Result<(), AllocError>
        requires held { (c : List Literal) × WorkingClauseHolds trail.now self.old c }
        requires within { IsTrue (is_lit_over trail.now.vars lit) }
        requires set { IsTrue (is_set trail.now.entries lit.var) }
        ensures holds { OnOk result
            ((c : List Literal) → WorkingClauseHolds trail.now self.old c →
            WorkingClauseHolds trail.now self.new (with_lit_of_new_var c lit)) }
        ensures hints { self.new.hints ≡ self.old.hints }
    {
        let var = lit.var() as usize;
        if self.marks[var] {
            return Ok(());
        }
        if trail.level_of(lit) == trail.level() {
            self.current += 1;
        } else {
            self.lower.push(lit)?;
        }
        self.marks[var] = true;
        Ok(())
    }

    /// Adds the literals of clause number `c` over variables that the working clause does not have.
    pub fn add_lits_of_new_vars(
        &mut self,
        clauses: &NumberedClauses,
        trail: &Trail,
        c: u64,
    ) -> Result<(), AllocError>
        requires held { (k : List Literal) × WorkingClauseHolds trail.now self.old k }
        requires known { c < length clauses.now.clauses }
        requires set { IsTrue (are_in_range_and_set trail.now
            (nth_clause_or_empty clauses.now.clauses c)) }
        ensures holds { OnOk result
            ((k : List Literal) → WorkingClauseHolds trail.now self.old k →
            WorkingClauseHolds trail.now self.new
            (with_lits_of_new_vars k (nth_clause_or_empty clauses.now.clauses c))) }
        ensures hints { self.new.hints ≡ self.old.hints }
    {
        for i in 0..clauses.length(c) {
            self.meet(trail, clauses.literal(c, i))?;
        }
        Ok(())
    }

    fn resolve(
        &mut self,
        clauses: &NumberedClauses,
        trail: &Trail,
        lit: Lit,
        reason: u64,
    ) -> Result<(), AllocError>
        requires held { (k : List Literal) × WorkingClauseHolds trail.now self.old k ×
            IsTrue (has_var lit.var k) }
        requires within { IsTrue (is_lit_over trail.now.vars lit) }
        requires current { IsTrue (is_current trail.now.entries lit) }
        requires known { reason < length clauses.now.clauses }
        requires numbered { reason + 1 < 2 ^ 64 }
        requires set { IsTrue (are_in_range_and_set trail.now
            (nth_clause_or_empty clauses.now.clauses reason)) }
        ensures holds { OnOk result
            ((k : List Literal) → WorkingClauseHolds trail.now self.old k →
            IsTrue (has_var lit.var k) →
            WorkingClauseHolds trail.now self.new
            (resolvent lit.var k (nth_clause_or_empty clauses.now.clauses reason))) }
        ensures hints { OnOk result
            (self.new.hints.items ≡ self.old.hints.items ++ (reason + 1) ∷ []) }
    {
        self.add_lits_of_new_vars(clauses, trail, reason)?;
        self.marks[lit.var() as usize] = false;
        self.current -= 1;
        self.hints.push(reason + 1)?;
        Ok(())
    }

    // Passes the entry of `lit`. If the clause has its variable, resolves with its reason.
    fn pass(&mut self, clauses: &NumberedClauses, trail: &Trail, lit: Lit) -> Result<(), AllocError>
        requires held { (s : StepValue) × WorkingClauseHoldsStepFields trail.now self.old s }
        requires reasons { HasReasons clauses.now.clauses trail.now.entries }
        requires vars { clauses.now.vars ≡ trail.now.vars }
        requires within { IsTrue (is_lit_over trail.now.vars lit) }
        requires set { IsTrue (is_set trail.now.entries lit.var) }
        requires current { slice_index_or self.old.marks.items lit.var false ≡ true →
            IsTrue (is_current trail.now.entries lit) }
        ensures { OnOk result
            ((e : Entry) (s : StepValue) → entry_of trail.now.entries lit.var ≡ Some e →
            WorkingClauseHoldsStepFields trail.now self.old s →
            WorkingClauseHoldsStepFields trail.now self.new
            (resolved_with_reason_if_needed clauses.now.clauses e s)) }
    {
        let _count = clauses.count();
        if self.marks[lit.var() as usize] {
            if let Some(reason) = trail.reason(lit) {
                return self.resolve(clauses, trail, lit, reason);
            }
        }
        Ok(())
    }

    // Returns whether the clause has the variable of `lit` and exactly one literal of the current
    // level, which is above 0.
    fn is_point(&self, trail: &Trail, lit: Lit) -> bool
        requires held { (c : List Literal) × WorkingClauseHolds trail.now self.now c }
        requires within { IsTrue (is_lit_over trail.now.vars lit) }
        ensures { (c : List Literal) → WorkingClauseHolds trail.now self.now c →
            result ≡ has_var_and_one_current trail.now.entries lit c }
    {
        let marked = self.marks[lit.var() as usize];
        let level = trail.level();
        marked && (level > 0 && self.current == 1)
    }

    /// Resolves with the reasons of the entries, latest first, if the clause has their variables.
    /// Stops at the first unique implication point and returns its literal, or `None` if there is
    /// none.
    pub fn find_first_uip_by_resolution(
        &mut self,
        clauses: &NumberedClauses,
        trail: &Trail,
        conflict: u64,
    ) -> Result<Option<Lit>, AllocError>
        requires conflict { IsConflictOfCurrentLevel (formula_of clauses.now) trail.now conflict }
        requires held { WorkingClauseHoldsStepFields trail.now self.old
            (step_from_conflict_clause clauses.now.clauses conflict) }
        ensures { IfOk result
            (λ point. ConflictWalkEndedAt trail.now clauses.now.clauses conflict self.new point) }
    {
        let _clauses = clauses.count();
        let mut i = trail.count();
        while i > 0 {
            i -= 1;
            let lit = trail.at(i);
            if self.is_point(trail, lit) {
                return Ok(Some(lit));
            }
            self.pass(clauses, trail, lit)?;
        }
        Ok(None)
    }
}
