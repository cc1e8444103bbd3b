ghost use Rattle.std.specs.Prelude.{◌≡◌, ◌≢◌, ◌<◌, ◌≤◌, ℕ, None, Some, IfNone, IfSome, IsTrue, length, slice_get};
ghost use Rattle.ilk_cnf.specs.Formula.{is_lit_over};
ghost use Rattle.ilk_log.specs.Propagation.{is_false as is_false_by};
ghost use Rattle.ilk_trail.specs.declared.entry.Entry.{Entry};
ghost use Rattle.ilk_trail.specs.Trail.{level_of};
ghost use Rattle.ilk_trail.specs.Laws.{lits_of, IsTrail};
ghost use Rattle.ilk_arena.specs.Arena.{chain_of, first_of};
ghost use Rattle.ilk_watches.specs.Reasons.{is_conflict};
ghost use Rattle.ilk_watches.specs.Chained.{SameClauses};
ghost use Rattle.ilk_watches.specs.Propagated.{ExtendsByPropagation};
ghost use Rattle.ilk_watches.specs.Watched.{AllCovered};
ghost use Rattle.ilk_watches.specs.Visits.{AtMostOneLeftChain, EntryMakesLitFalse, OtherWatchesTrueBefore, count_rest_of_chain};

use crate::clauses::NumberedClauses;
use crate::visit::{Visited, visit};
use ilk_cnf::Lit;
use ilk_trail::Trail;

// A walk along the chain of a false literal: the next clause, and the last one before it that
// stayed.
#[derive(Clone, Copy)]
struct Walk {
    f: Lit,
    before: Option<u64>,
    next: Option<u64>,
}

fn start(clauses: &NumberedClauses, trail: &Trail, i: u64) -> Walk
    requires vars { trail.now.vars ≡ clauses.now.vars }
    requires entry { i < length trail.now.entries }
    ensures literal { EntryMakesLitFalse clauses.now.vars trail.now.entries i result.f }
    ensures before { result.before ≡ None }
    ensures next { result.next ≡ first_of (chain_of clauses.now result.f) }
    ensures trail { IsTrail trail.now }
{
    let _ = trail.level();
    let f = trail.at(i).negated();
    Walk {
        f,
        before: None,
        next: clauses.arena().first_watch(f),
    }
}

// Visits the next clause of a walk, if there is one. Returns the number of a clause if it is false.
#[inline(always)]
fn step(clauses: &mut NumberedClauses, trail: &mut Trail, walk: &mut Walk) -> Option<u64>
    requires vars { trail.old.vars ≡ clauses.old.vars }
    requires within { IsTrue (is_lit_over clauses.old.vars walk.old.f) }
    requires denied { IsTrue (is_false_by (lits_of trail.old.entries) walk.old.f) }
    requires walking { OtherWatchesTrueBefore clauses.old trail.old.entries walk.old.f
        walk.old.before
        walk.old.next }
    ensures conflict { IfSome result
        (λ c. IsTrue (is_conflict clauses.old.clauses (lits_of trail.new.entries) c)) }
    ensures literal { walk.new.f ≡ walk.old.f }
    ensures walking { IfNone result
        (OtherWatchesTrueBefore clauses.new trail.new.entries walk.old.f walk.new.before
        walk.new.next) }
    ensures shorter { IfNone result
        (walk.old.next ≢ None →
        count_rest_of_chain clauses.new walk.old.f walk.new.next
        < count_rest_of_chain clauses.old walk.old.f walk.old.next) }
    ensures chains { AtMostOneLeftChain clauses.old trail.old.entries clauses.new walk.old.f }
    ensures clauses { SameClauses clauses.old clauses.new }
    ensures trail { trail.new ≡ record trail.old { entries = trail.new.entries } }
    ensures propagated { ExtendsByPropagation clauses.old.clauses trail.old.entries
        trail.new.entries }
    ensures was_trail { IsTrail trail.old }
{
    let _ = trail.level();
    let Some(c) = walk.next else {
        return None;
    };
    walk.next = clauses.arena().next_watch(c, walk.f);
    match visit(clauses, trail, walk.before, c, walk.f) {
        Visited::Stays => {
            walk.before = Some(c);
            None
        }
        Visited::Moves => None,
        Visited::Broken => Some(clauses.arena().number(c) - 1),
    }
}

/// Propagates the entries from `head` on: walks the chains of the literals that they make false,
/// and assigns what clauses force. Returns the number of a false clause, or `None` if nothing is
/// left.
///
/// Loading a clause takes long, and only it names the next one of its chain. So two chains are
/// walked side by side if two entries are queued.
pub(crate) fn propagate_from(
    clauses: &mut NumberedClauses,
    trail: &mut Trail,
    head: u64,
) -> Option<u64>
    requires vars { trail.old.vars ≡ clauses.old.vars }
    requires head { head < length trail.old.entries }
    requires queued { (i : ℕ) (e : Entry) → head ≤ i → slice_get trail.old.entries i ≡ Some e →
        e.level ≡ level_of trail.old.entries }
    requires covered { AllCovered clauses.old trail.old.entries head }
    ensures conflict { IfSome result
        (λ c. IsTrue (is_conflict clauses.old.clauses (lits_of trail.new.entries) c)) }
    ensures walked { IfNone result
        (AllCovered clauses.new trail.new.entries (length trail.new.entries)) }
    ensures covered { AllCovered clauses.new trail.new.entries head }
    ensures clauses { SameClauses clauses.old clauses.new }
    ensures trail { trail.new ≡ record trail.old { entries = trail.new.entries } }
    ensures propagated { ExtendsByPropagation clauses.old.clauses trail.old.entries
        trail.new.entries }
{
    let mut older = start(clauses, trail, head);
    let mut next = head + 1;
    'entries: loop {
        'alone: while older.next.is_some() && next == trail.count() {
            if let Some(c) = step(clauses, trail, &mut older) {
                return Some(c);
            }
        }
        if next == trail.count() {
            return None;
        }
        let mut newer = start(clauses, trail, next);
        next += 1;
        'both: while older.next.is_some() && newer.next.is_some() {
            if let Some(c) = step(clauses, trail, &mut older) {
                return Some(c);
            }
            if let Some(c) = step(clauses, trail, &mut newer) {
                return Some(c);
            }
        }
        let _ = trail.level();
        if newer.next.is_some() {
            older = newer;
        }
    }
}
