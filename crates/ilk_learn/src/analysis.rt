ghost use Rattle.std.specs.Prelude.{◌≡◌, ◌-◌, ◌<◌, false, [], ◌∷◌, ◌++◌, find, reverse, IfOk, IsTrue};
ghost use Rattle.std.specs.Bool.{◌==◌};
ghost use Rattle.ilk_watches.specs.Chained.{formula_of};
ghost use Rattle.ilk_watches.specs.Reasons.{is_conflict, HasReasons};
ghost use Rattle.ilk_cnf.specs.Literal.{negated_lit};
ghost use Rattle.ilk_cnf.specs.Formula.{is_clause_over};
ghost use Rattle.ilk_log.specs.Propagation.{is_saturated};
ghost use Rattle.ilk_log.specs.Derived.{is_derived};
ghost use Rattle.ilk_log.specs.Fresh.{IsEmpowering};
ghost use Rattle.ilk_trail.specs.Trail.{level_of, entries_up_to};
ghost use Rattle.ilk_trail.specs.Laws.{lits_of};
ghost use Rattle.ilk_learn.specs.Resolvent.{without_variable};
ghost use Rattle.ilk_learn.specs.Levels.{with_highest_first, highest_level, level_of_literal};
ghost use Rattle.ilk_learn.specs.Learning.{learned_step};
ghost use Rattle.ilk_learn.specs.Asserting.{back_level, is_false_in_asserting_order};
ghost use Rattle.ilk_learn.specs.Hand.{IsConflictOfCurrentLevel, WorkingClauseHoldsStepFields, are_in_range_and_set, step_from_conflict_clause};

use crate::hand::WorkingClause;
use ilk_cnf::{Lit, Lits};
use ilk_log::{Hints, Step};
use ilk_trail::Trail;
use ilk_watches::NumberedClauses;
use std::alloc::{AllocError, Global};

/// What a search learns from a conflict above level 0.
#[derive(Drop)]
pub struct Learned {
    /// The learned clause, its forced literal first, with the hints that derive it.
    pub step: Step,
    /// The level to go back to, at which the clause forces its first literal.
    pub level: u64,
}

/// Returns the clause learned from clause `conflict`, at the first unique implication point, with
/// its hints and the level to go back to. All literals of `conflict` must be false, but not at the
/// level below the current one, which is above 0. At the returned level, the learned clause forces
/// its first literal. It is fresh if propagation was complete there.
pub fn learn(
    alloc: Global,
    clauses: &NumberedClauses,
    trail: &Trail,
    conflict: u64,
) -> Result<Learned, AllocError>
    requires vars { clauses.now.vars ≡ trail.now.vars }
    requires reasons { HasReasons clauses.now.clauses trail.now.entries }
    requires conflict { IsTrue
        (is_conflict clauses.now.clauses (lits_of trail.now.entries) conflict) }
    requires level { 0 < level_of trail.now.entries }
    requires below { is_conflict clauses.now.clauses
        (lits_of (entries_up_to (level_of trail.now.entries - 1) trail.now.entries))
        conflict ≡ false }
    ensures step { IfOk result
        (λ l. l.step ≡ learned_step clauses.now.clauses trail.now.entries conflict) }
    ensures level { IfOk result (λ l. l.level ≡ back_level trail.now.entries l.step.clause) }
    ensures derived { IfOk result
        (λ l. IsTrue (is_derived clauses.now.vars clauses.now.clauses l.step)) }
    ensures asserting { IfOk result (λ l.
        IsTrue (is_false_in_asserting_order trail.now.entries l.step.clause)) }
    ensures fresh { IfOk result
        (λ l.
        IsTrue (is_saturated clauses.now.clauses
        (lits_of (entries_up_to l.level trail.now.entries))) →
        IsEmpowering clauses.now.clauses l.step.clause) }
{
    let _count = clauses.count();
    let _level = trail.level();
    let step = analysed(alloc, clauses, trail, conflict)?;
    let level = level_below(trail, &step.clause);
    Ok(Learned { step, level })
}

/// Returns the step that derives the empty clause from clause `conflict`, whose literals must all
/// be false at level 0.
pub fn refute(
    alloc: Global,
    clauses: &NumberedClauses,
    trail: &Trail,
    conflict: u64,
) -> Result<Step, AllocError>
    requires vars { clauses.now.vars ≡ trail.now.vars }
    requires reasons { HasReasons clauses.now.clauses trail.now.entries }
    requires conflict { IsTrue
        (is_conflict clauses.now.clauses (lits_of trail.now.entries) conflict) }
    requires level { level_of trail.now.entries ≡ 0 }
    ensures step { IfOk result (λ s. s
        ≡ learned_step clauses.now.clauses trail.now.entries conflict) }
    ensures derived { IfOk result
        (λ s. IsTrue (is_derived clauses.now.vars clauses.now.clauses s)) }
    ensures empty { IfOk result (λ s. s.clause ≡ []) }
{
    let _count = clauses.count();
    let _level = trail.level();
    analysed(alloc, clauses, trail, conflict)
}

fn analysed(
    alloc: Global,
    clauses: &NumberedClauses,
    trail: &Trail,
    conflict: u64,
) -> Result<Step, AllocError>
    requires { IsConflictOfCurrentLevel (formula_of clauses.now) trail.now conflict }
    ensures { IfOk result (λ s. s ≡ learned_step clauses.now.clauses trail.now.entries conflict) }
{
    let mut hand = started(alloc, clauses, trail, conflict)?;
    let point = hand.find_first_uip_by_resolution(clauses, trail, conflict)?;
    let clause = match point {
        Some(lit) => clause_at_point(alloc, trail, lit, hand.lower.as_slice())?,
        None => Lits::new(alloc),
    };
    let hints = turned(alloc, hand.hints.as_slice())?;
    Ok(Step { clause, hints })
}

fn started(
    alloc: Global,
    clauses: &NumberedClauses,
    trail: &Trail,
    conflict: u64,
) -> Result<WorkingClause, AllocError>
    requires { IsConflictOfCurrentLevel (formula_of clauses.now) trail.now conflict }
    ensures { IfOk result (λ h. WorkingClauseHoldsStepFields trail.now h
        (step_from_conflict_clause clauses.now.clauses conflict)) }
{
    let _count = clauses.count();
    let mut hand = WorkingClause::new(alloc, trail, clauses.vars())?;
    hand.add_lits_of_new_vars(clauses, trail, conflict)?;
    hand.hints.push(conflict + 1)?;
    Ok(hand)
}

fn clause_at_point(
    alloc: Global,
    trail: &Trail,
    lit: Lit,
    lower: &[Lit],
) -> Result<Lits, AllocError>
    requires { IsTrue (are_in_range_and_set trail.now lower.now) }
    ensures { IfOk result (λ c. c ≡ negated_lit lit
        ∷ with_highest_first trail.now.entries lower.now) }
{
    let mut clause = Lits::new(alloc);
    clause.push(lit.negated())?;
    match first_highest(trail, lower) {
        Some(first) => with_first(clause, first, lower),
        None => Ok(clause),
    }
}

fn with_first(mut clause: Lits, first: Lit, lits: &[Lit]) -> Result<Lits, AllocError>
    ensures { IfOk result (λ c. c ≡ clause ++ (first ∷ without_variable first.var lits.now)) }
{
    clause.push(first)?;
    for other in lits {
        if other.var() != first.var() {
            clause.push(*other)?;
        }
    }
    Ok(clause)
}

fn first_highest(trail: &Trail, lits: &[Lit]) -> Option<Lit>
    requires { IsTrue (are_in_range_and_set trail.now lits.now) }
    ensures { result
        ≡ find
        (λ l. level_of_literal trail.now.entries l == highest_level trail.now.entries lits.now)
        lits.now }
{
    let top = top_level(trail, lits);
    for lit in lits {
        if trail.level_of(*lit) == top {
            return Some(*lit);
        }
    }
    None
}

fn top_level(trail: &Trail, lits: &[Lit]) -> u64
    requires { IsTrue (are_in_range_and_set trail.now lits.now) }
    ensures { result ≡ highest_level trail.now.entries lits.now }
{
    let mut top = 0;
    for lit in lits {
        top = top.max(trail.level_of(*lit));
    }
    top
}

fn level_below(trail: &Trail, clause: &Lits) -> u64
    requires within { IsTrue (is_clause_over trail.now.vars clause.now) }
    requires asserting { IsTrue (is_false_in_asserting_order trail.now.entries clause.now) }
    ensures { result ≡ back_level trail.now.entries clause.now }
{
    if clause.len() < 2 {
        return 0;
    }
    trail.level_of(*clause.at(1))
}

fn turned(alloc: Global, hints: &[u64]) -> Result<Hints, AllocError>
    ensures { IfOk result (λ h. h ≡ reverse hints.now) }
{
    let mut turned = Hints::with_capacity(alloc, hints.len() as u64)?;
    let mut i = hints.len();
    while i > 0 {
        i -= 1;
        turned.push(hints[i])?;
    }
    Ok(turned)
}
