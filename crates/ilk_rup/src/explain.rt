//! The hints of a conflict: only those that it needs, found on a walk back over the trail.

ghost use Rattle.std.specs.Prelude.{◌≡◌, ◌<◌, ◌≤◌, ◌+◌, ◌^◌, ◌++◌, ◌∷◌, [], ◌==◌, not, length, replicate, reverse, slice_index, take, IfOk, OnOk, IsTrue};
ghost use Rattle.ilk_cnf.specs.Formula.{is_lit_over};
ghost use Rattle.ilk_watches.specs.Reasons.{nth_clause_or_empty};
ghost use Rattle.std.specs.List.{filter};
ghost use Rattle.ilk_trail.specs.Laws.{lits_of};
ghost use Rattle.ilk_rup.specs.Explained.{IsReadyToExplainConflict, IsEmptyExplainer};
ghost use Rattle.ilk_rup.specs.Needs.{HintsDeriveClauseOfLiterals, EntriesForcedWithVarsNotInSet, EntryHasReason, AreNeededLitsAfterClauseExamined, HintsWorkWithoutEntry, IsReasonAt, AreNeededLitsAfterLitExamined, HintsFalsifyGivenNeededLits, unit_hints_of_needed};

use crate::set::LitSet;
use ilk_cnf::Lit;
use ilk_log::Hints;
use ilk_trail::Trail;
use ilk_watches::NumberedClauses;
use std::alloc::{AllocError, Global};

// Adds the opposite of `l` to `needed`, if `set` doesn't have `l`.
fn need_one(needed: &mut LitSet, set: &LitSet, l: Lit)
    requires within { IsTrue (is_lit_over needed.old.vars l) }
    requires vars { set.now.vars ≡ needed.old.vars }
    ensures needed { AreNeededLitsAfterLitExamined set.now.lits l needed.old.lits needed.new.lits }
    ensures vars { needed.new.vars ≡ needed.old.vars }
{
    if set.has(l) || needed.has_var(l) {
        return;
    }
    needed.put(l.negated());
}

fn need(needed: &mut LitSet, clauses: &NumberedClauses, set: &LitSet, c: u64)
    requires known { c < length clauses.now.clauses }
    requires vars { needed.old.vars ≡ clauses.now.vars }
    requires set { set.now.vars ≡ clauses.now.vars }
    ensures needed { AreNeededLitsAfterClauseExamined set.now.lits
        (nth_clause_or_empty clauses.now.clauses c) needed.old.lits
        needed.new.lits }
    ensures vars { needed.new.vars ≡ needed.old.vars }
{
    for i in 0..clauses.length(c) {
        need_one(needed, set, clauses.literal(c, i));
    }
}

/// Returns the number of the clause that forces entry `i` of the trail.
pub(crate) fn reason_index_of_entry(clauses: &NumberedClauses, trail: &Trail, i: u64) -> u64
    requires trail { trail.now.vars ≡ clauses.now.vars }
    requires below { i < length trail.now.entries }
    requires forced { EntryHasReason clauses.now.clauses trail.now.entries i }
    ensures known { result < length clauses.now.clauses }
    ensures reason { IsReasonAt clauses.now.clauses trail.now.entries i result }
{
    let _trail = trail.count();
    let _clauses = clauses.count();
    trail.reason(trail.at(i)).unwrap()
}

// Passes entry `i`. If it is needed, so are the literals of its reason.
fn pass(
    reasons: &mut Vec<u64>,
    needed: &mut LitSet,
    clauses: &NumberedClauses,
    set: &LitSet,
    trail: &Trail,
    i: u64,
) -> Result<(), AllocError>
    requires vars { needed.old.vars ≡ clauses.now.vars }
    requires set { set.now.vars ≡ clauses.now.vars }
    requires trail { trail.now.vars ≡ clauses.now.vars }
    requires below { i < length trail.now.entries }
    requires walk { EntriesForcedWithVarsNotInSet clauses.now.clauses trail.now.entries set.now.lits
        i
        (i + 1) }
    ensures passed { OnOk result
        (HintsWorkWithoutEntry clauses.now.clauses trail.now.entries set.now.lits i needed.old.lits
        (reverse reasons.old.items) needed.new.lits (reverse reasons.new.items)) }
    ensures vars { needed.new.vars ≡ needed.old.vars }
{
    let _clauses = clauses.count();
    let _trail = trail.count();
    if !needed.has(trail.at(i)) {
        return Ok(());
    }
    let reason = reason_index_of_entry(clauses, trail, i);
    reasons.push(reason + 1)?;
    need(needed, clauses, set, reason);
    Ok(())
}

// Visits the entries before `top`, latest first, down to `from`, and adds the reasons of the needed
// ones, in reverse order.
fn walk(
    reasons: &mut Vec<u64>,
    needed: &mut LitSet,
    clauses: &NumberedClauses,
    set: &LitSet,
    trail: &Trail,
    from: u64,
    top: u64,
) -> Result<(), AllocError>
    requires vars { needed.old.vars ≡ clauses.now.vars }
    requires set { set.now.vars ≡ clauses.now.vars }
    requires trail { trail.now.vars ≡ clauses.now.vars }
    requires from { from ≤ top }
    requires top { top ≤ length trail.now.entries }
    requires walk { EntriesForcedWithVarsNotInSet clauses.now.clauses trail.now.entries set.now.lits
        from top }
    requires shows { HintsFalsifyGivenNeededLits clauses.now.clauses (lits_of
        (take top trail.now.entries))
        (lits_of (take top trail.now.entries)) set.now.lits needed.old.lits
        (reverse reasons.old.items) }
    ensures shows { OnOk result
        (HintsFalsifyGivenNeededLits clauses.now.clauses (lits_of (take top trail.now.entries))
        (lits_of (take from trail.now.entries)) set.now.lits needed.new.lits
        (reverse reasons.new.items)) }
    ensures vars { needed.new.vars ≡ needed.old.vars }
{
    let mut i = top;
    while i > from {
        i -= 1;
        pass(reasons, needed, clauses, set, trail, i)?;
    }
    Ok(())
}

fn unit_of(units: &[u64], l: Lit) -> u64
    ensures { result ≡ slice_index units.now l.var }
{
    match units.get(l.var() as usize) {
        Some(unit) => *unit,
        None => 0,
    }
}

fn count_units(needed: &LitSet, units: &[u64]) -> u64
    ensures { result ≡ length (unit_hints_of_needed units.now needed.now.lits) }
{
    let mut count: u64 = 0;
    for i in 0..needed.len() {
        if unit_of(units, needed.at(i)) != 0 {
            count += 1;
        }
    }
    count
}

// Returns the hints of needed unit clauses, then those of the reasons, in memory of exactly their
// size.
fn gather(
    alloc: Global,
    needed: &LitSet,
    units: &[u64],
    reasons: &[u64],
) -> Result<Hints, AllocError>
    ensures { IfOk result
        (λ hints. hints ≡ unit_hints_of_needed units.now needed.now.lits ++ reverse reasons.now) }
{
    let count = count_units(needed, units).saturating_add(reasons.len() as u64);
    let mut hints = Hints::with_capacity(alloc, count)?;
    push_units(&mut hints, needed, units)?;
    push_turned(&mut hints, reasons)?;
    Ok(hints)
}

fn push_unit(hints: &mut Hints, unit: u64) -> Result<(), AllocError>
    ensures { OnOk result (hints.new ≡ hints.old ++ filter (λ u. not (u == 0)) (unit ∷ [])) }
{
    if unit != 0 {
        hints.push(unit)?;
    }
    Ok(())
}

fn push_units(hints: &mut Hints, needed: &LitSet, units: &[u64]) -> Result<(), AllocError>
    ensures { OnOk result
        (hints.new ≡ hints.old ++ unit_hints_of_needed units.now needed.now.lits) }
{
    for i in 0..needed.len() {
        push_unit(hints, unit_of(units, needed.at(i)))?;
    }
    Ok(())
}

fn push_turned(hints: &mut Hints, numbers: &[u64]) -> Result<(), AllocError>
    ensures { OnOk result (hints.new ≡ hints.old ++ reverse numbers.now) }
{
    let mut i = numbers.len();
    while i > 0 {
        i -= 1;
        hints.push(numbers[i])?;
    }
    Ok(())
}

fn zeros(alloc: Global, vars: u64) -> Result<Vec<u64>, AllocError>
    requires { vars ≤ 2 ^ 62 }
    ensures { IfOk result (λ zeros. zeros.items ≡ replicate (vars + 1) 0) }
{
    Ok(vec![in alloc; 0; vars as usize + 1]?)
}

/// A false clause, and the range of entries with reasons that may explain it: from index `from` on
/// and before `top`. Entries before `from` are known or assumed.
#[derive(Clone, Copy)]
pub(crate) struct Conflict {
    pub clause: u64,
    pub from: u64,
    pub top: u64,
}

/// Finds the hints of a conflict. It stores the hints of unit clauses, and memory for the walk.
#[derive(Drop)]
pub(crate) struct Explainer {
    // By variable: the hint of the unit clause of its literal, or 0 if there is none.
    pub units: Vec<u64>,
    // The number of entries with a unit clause.
    pub named: u64,
    // Cleared for each conflict: the needed literals, and the hints of reasons in reverse order.
    pub needed: LitSet,
    pub reasons: Vec<u64>,
}

impl Explainer {
    /// Creates an explainer without unit clauses over the variables 1 to `vars`.
    pub fn new(alloc: Global, vars: u64) -> Result<Explainer, AllocError>
        requires { vars ≤ 2 ^ 62 }
        ensures { IfOk result (λ x. IsEmptyExplainer x vars) }
    {
        Ok(Explainer {
            units: zeros(alloc, vars)?,
            named: 0,
            needed: LitSet::new(alloc, vars)?,
            reasons: Vec::new(alloc),
        })
    }

    /// Returns hints that derive the clause of the literals in `set`. Clause `at.clause` has to be
    /// false by `set` and the entries before `at.top`, as `IsClauseFalseApartFromSet` says.
    pub fn explain(
        &mut self,
        alloc: Global,
        clauses: &NumberedClauses,
        trail: &Trail,
        set: &LitSet,
        at: Conflict,
    ) -> Result<Hints, AllocError>
        requires { IsReadyToExplainConflict self.old clauses.now trail.now set.now at }
        ensures hints { IfOk result (λ hints.
            HintsDeriveClauseOfLiterals clauses.now.clauses set.now.lits hints) }
        ensures vars { self.new.needed.vars ≡ self.old.needed.vars }
        ensures rest { self.new
            ≡ record self.old { needed = self.new.needed; reasons = self.new.reasons } }
    {
        let _ = clauses.count();
        let _ = trail.count();
        self.needed.clear();
        self.reasons.clear();
        self.reasons.push(at.clause + 1)?;
        need(&mut self.needed, clauses, set, at.clause);
        walk(
            &mut self.reasons,
            &mut self.needed,
            clauses,
            set,
            trail,
            at.from,
            at.top,
        )?;
        let hints = gather(
            alloc,
            &self.needed,
            self.units.as_slice(),
            self.reasons.as_slice(),
        )?;
        let _ = self.needed.len();
        Ok(hints)
    }
}
