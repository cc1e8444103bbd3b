ghost use Rattle.std.specs.Prelude.{◌≡◌, ◌≢◌, ◌<◌, ◌≤◌, ◌+◌, ◌-◌, Some, IfNone, IfSome, IsTrue, length, slice_get};
ghost use Rattle.ilk_cnf.specs.Formula.{is_lit_over};
ghost use Rattle.ilk_log.specs.Fresh.{other_lits};
ghost use Rattle.ilk_log.specs.Propagation.{is_false as is_false_by, is_falsified};
ghost use Rattle.ilk_trail.specs.declared.entry.Entry.{Entry};
ghost use Rattle.ilk_trail.specs.Trail.{level_of};
ghost use Rattle.ilk_trail.specs.Laws.{lits_of, IsTrail};
ghost use Rattle.ilk_arena.specs.Arena.{chain_of, follows_or_heads_chain, literals_of, other_watch_of, contains_reference};
ghost use Rattle.ilk_watches.specs.Reasons.{is_conflict};
ghost use Rattle.ilk_watches.specs.Chained.{SameClauses};
ghost use Rattle.ilk_watches.specs.Propagated.{ExtendsByPropagation};
ghost use Rattle.ilk_watches.specs.Watched.{AllCovered};
ghost use Rattle.ilk_watches.specs.Visits.{IsReplacementResult, IsVisitResult, MayWatchAt, NoneMayWatch};

use crate::clauses::NumberedClauses;
use ilk_cnf::Lit;
use ilk_trail::Trail;

// Clauses longer than this store the position at which the last search for a watch ended. The next
// search continues there, around the clause: I. P. Gent, "Optimal implementation of watched
// literals and more general techniques", JAIR 48, 2013.
const SHORT: u64 = 8;

/// The result of a visit of a clause with a false watch. Its other watch is true (`Stays`), the
/// watch has moved (`Moves`), or the clause is false (`Broken`).
#[derive(Clone, Copy)]
pub(crate) enum Visited {
    Stays,
    Moves,
    Broken,
}

#[inline(always)]
fn is_false(trail: &Trail, l: Lit) -> bool
    requires within { IsTrue (is_lit_over trail.now.vars l) }
    requires trail { IsTrail trail.now }
    ensures { result ≡ is_false_by (lits_of trail.now.entries) l }
{
    match trail.value(l) {
        Some(value) => !value,
        None => false,
    }
}

// Returns the index of the first literal of the clause at reference `c`, from `from` on and before
// `to`, that may be watched besides `other`.
fn find_between(
    clauses: &NumberedClauses,
    trail: &Trail,
    c: u64,
    other: Lit,
    from: u64,
    to: u64,
) -> Option<u64>
    requires known { IsTrue (contains_reference c clauses.now.references) }
    requires vars { trail.now.vars ≡ clauses.now.vars }
    requires trail { IsTrail trail.now }
    requires to { to ≤ length (literals_of clauses.now c) }
    ensures found { IfSome result
        (λ i. MayWatchAt (lits_of trail.now.entries) other (literals_of clauses.now c) i) }
    ensures none { IfNone result
        (NoneMayWatch (lits_of trail.now.entries) other (literals_of clauses.now c) from to) }
{
    let arena = clauses.arena();
    for i in from..to {
        let l = arena.literal(c, i);
        if !is_false(trail, l) && !other.is_same(l) {
            return Some(i);
        }
    }
    None
}

// Returns the first such index from `start` on, then from 0.
fn find_around(
    clauses: &NumberedClauses,
    trail: &Trail,
    c: u64,
    other: Lit,
    start: u64,
) -> Option<u64>
    requires known { IsTrue (contains_reference c clauses.now.references) }
    requires vars { trail.now.vars ≡ clauses.now.vars }
    requires trail { IsTrail trail.now }
    requires start { start ≤ length (literals_of clauses.now c) }
    ensures found { IfSome result
        (λ i. MayWatchAt (lits_of trail.now.entries) other (literals_of clauses.now c) i) }
    ensures none { IfNone result
        (IsTrue
        (is_falsified (lits_of trail.now.entries) (other_lits other (literals_of clauses.now c)))) }
{
    let length = clauses.arena().length(c);
    match find_between(clauses, trail, c, other, start, length) {
        Some(i) => Some(i),
        None => find_between(clauses, trail, c, other, 0, start),
    }
}

fn find_watch(clauses: &mut NumberedClauses, trail: &Trail, c: u64, other: Lit) -> Option<u64>
    requires known { IsTrue (contains_reference c clauses.old.references) }
    requires vars { trail.now.vars ≡ clauses.old.vars }
    requires trail { IsTrail trail.now }
    ensures clauses { clauses.new ≡ record clauses.old { cursors = clauses.new.cursors } }
    ensures found { IfSome result
        (λ i. MayWatchAt (lits_of trail.now.entries) other (literals_of clauses.old c) i) }
    ensures none { IfNone result
        (IsTrue
        (is_falsified (lits_of trail.now.entries) (other_lits other (literals_of clauses.old c)))) }
{
    if clauses.arena().length(c) <= SHORT {
        return find_around(clauses, trail, c, other, 0);
    }
    let cursor = clauses.arena().cursor(c);
    let found = find_around(clauses, trail, c, other, cursor);
    if let Some(i) = found {
        clauses.set_clause_cursor(c, i);
    }
    found
}

// Moves the watch of the clause at reference `c` from `f`, which is false, to a literal besides
// `other`, its other watch, that isn't false. Returns whether there is one.
fn replace_watch(
    clauses: &mut NumberedClauses,
    trail: &Trail,
    before: Option<u64>,
    c: u64,
    f: Lit,
    other: Lit,
) -> bool
    requires vars { trail.now.vars ≡ clauses.old.vars }
    requires trail { IsTrail trail.now }
    requires within { IsTrue (is_lit_over clauses.old.vars f) }
    requires denied { IsTrue (is_false_by (lits_of trail.now.entries) f) }
    requires stands { IsTrue (contains_reference c (chain_of clauses.old f)) }
    requires follows { IsTrue (follows_or_heads_chain before c (chain_of clauses.old f)) }
    requires other { other_watch_of clauses.old c f ≡ Some other }
    ensures replaced { IsReplacementResult clauses.old
        (lits_of trail.now.entries) clauses.new c f other
        result }
    ensures clauses { SameClauses clauses.old clauses.new }
{
    let _ = clauses.count();
    match find_watch(clauses, trail, c, other) {
        Some(i) => {
            clauses.rewatch(before, c, f, i);
            true
        }
        None => false,
    }
}

/// Visits the clause at reference `c`, whose watch `f` is false. Unless the other watch is true,
/// moves the watch to a literal that isn't false. If there is none, forces the other watch or finds
/// the clause false. In the chain of `f`, `c` directly follows `before`, or is first.
#[inline(always)]
pub(crate) fn visit(
    clauses: &mut NumberedClauses,
    trail: &mut Trail,
    before: Option<u64>,
    c: u64,
    f: Lit,
) -> Visited
    requires vars { trail.old.vars ≡ clauses.old.vars }
    requires within { IsTrue (is_lit_over clauses.old.vars f) }
    requires denied { IsTrue (is_false_by (lits_of trail.old.entries) f) }
    requires stands { IsTrue (contains_reference c (chain_of clauses.old f)) }
    requires follows { IsTrue (follows_or_heads_chain before c (chain_of clauses.old f)) }
    ensures visited { IsVisitResult clauses.old trail.old.entries clauses.new trail.new.entries c f
        result }
    ensures clauses { SameClauses clauses.old clauses.new }
    ensures trail { trail.new ≡ record trail.old { entries = trail.new.entries } }
    ensures propagated { ExtendsByPropagation clauses.old.clauses trail.old.entries
        trail.new.entries }
    ensures was_trail { IsTrail trail.old }
{
    let _ = trail.level();
    let other = clauses.arena().other_watch(c, f);
    match trail.value(other) {
        Some(true) => Visited::Stays,
        Some(false) => {
            if replace_watch(clauses, trail, before, c, f, other) {
                Visited::Moves
            } else {
                Visited::Broken
            }
        }
        None => {
            if replace_watch(clauses, trail, before, c, f, other) {
                Visited::Moves
            } else {
                trail.assign(other, clauses.arena().number(c) - 1);
                Visited::Stays
            }
        }
    }
}
