ghost use Rattle.std.specs.Prelude.{◌≡◌, ◌&&◌, true, [], not, IfOk, IsTrue};
ghost use Rattle.ilk_cnf.specs.Formula.{is_clause_over, is_lit_over};
ghost use Rattle.ilk_cnf.specs.Literal.{has_var, has_distinct_vars};
ghost use Rattle.ilk_log.specs.Derived.{negated_clause};
ghost use Rattle.ilk_audit.specs.Taken.{why_step_not_derived, why_hints_reach_no_conflict};

use crate::block::ClauseDb;
use crate::hinted::ClauseStatus;
use crate::partial::PartialAssignment;
use crate::taken::Why;
use ilk_cnf::Lit;
use std::alloc::AllocError;

fn is_unset(partial: &PartialAssignment, l: Lit) -> bool
    requires { IsTrue (is_lit_over partial.now.vars l) }
    ensures { result ≡ not (has_var l.var partial.now.set) }
{
    !partial.is_false(l) && !partial.is_false(l.negated())
}

fn is_settable(partial: &PartialAssignment, l: Lit) -> bool
    ensures { result ≡ (is_lit_over partial.now.vars l && not (has_var l.var partial.now.set)) }
{
    l.var() > 0 && l.var() <= partial.vars() && is_unset(partial, l)
}

// Sets the negations of a clause's literals, from last to first. Returns whether the clause is over
// different variables of the formula.
fn set_opposites(partial: &mut PartialAssignment, clause: &[Lit]) -> Result<bool, AllocError>
    requires { partial.old.set ≡ [] }
    ensures answer { IfOk result
        (λ ok. ok ≡ (is_clause_over partial.old.vars clause.now && has_distinct_vars clause.now)) }
    ensures set { IfOk result (λ ok. ok ≡ true → partial.new.set ≡ negated_clause clause.now) }
    ensures vars { partial.new.vars ≡ partial.old.vars }
{
    let mut left = clause.len();
    while left > 0 {
        left -= 1;
        let l = clause[left];
        if !is_settable(partial, l) {
            return Ok(false);
        }
        partial.set(l.negated())?;
    }
    Ok(true)
}

fn why_hints_reach_no_conflict(
    clauses: &ClauseDb,
    partial: &mut PartialAssignment,
    hints: &[u64],
) -> Result<Option<Why>, AllocError>
    requires { partial.old.vars ≡ clauses.now.vars }
    ensures fault { IfOk result
        (λ fault. fault ≡ why_hints_reach_no_conflict clauses.now.clauses partial.old.set
        hints.now) }
    ensures vars { partial.new.vars ≡ partial.old.vars }
{
    for (i, hint) in hints.iter().enumerate() {
        match clauses.clause_status(partial, *hint) {
            ClauseStatus::Missing => return Ok(Some(Why::BadHint)),
            ClauseStatus::AllFalse if i + 1 < hints.len() => return Ok(Some(Why::NotFalse)),
            ClauseStatus::AllFalse => return Ok(None),
            ClauseStatus::OneUnset(l) => partial.set(l)?,
            ClauseStatus::Other => return Ok(Some(Why::NotUnit)),
        }
    }
    Ok(Some(Why::NotFalse))
}

/// Returns why the step with this clause and these hints does not follow from `clauses`, or `None`
/// if it does. `partial` has to be empty before; literals set by the check stay set in it.
pub(crate) fn why_step_not_derived(
    clauses: &ClauseDb,
    partial: &mut PartialAssignment,
    clause: &[Lit],
    hints: &[u64],
) -> Result<Option<Why>, AllocError>
    requires vars { partial.old.vars ≡ clauses.now.vars }
    requires none { partial.old.set ≡ [] }
    ensures fault { IfOk result
        (λ fault. fault
        ≡ why_step_not_derived clauses.now.vars clauses.now.clauses
        (record { clause = clause.now; hints = hints.now })) }
    ensures vars { partial.new.vars ≡ partial.old.vars }
{
    if !set_opposites(partial, clause)? {
        return Ok(Some(Why::BadLiteral));
    }
    why_hints_reach_no_conflict(clauses, partial, hints)
}
