ghost use Rattle.std.specs.Prelude.{◌≡◌, IfNone, IfSome, IsTrue};
ghost use Rattle.ilk_log.specs.Propagation.{is_saturated};
ghost use Rattle.ilk_trail.specs.Laws.{lits_of, IsTrail};
ghost use Rattle.ilk_watches.specs.Reasons.{is_conflict};
ghost use Rattle.ilk_watches.specs.Found.{IsScanResult};
ghost use Rattle.ilk_watches.specs.Propagated.{ExtendsByPropagation};

use crate::clauses::NumberedClauses;
use crate::look::{ClauseState, clause_state};
use ilk_cnf::Lit;
use ilk_trail::Trail;

#[derive(Clone, Copy)]
enum Found {
    Falsified(u64),
    Forced(u64, Lit),
    Closed,
}

// Returns the first clause that is false or forces a literal.
fn find(clauses: &NumberedClauses, trail: &Trail) -> Found
    requires { trail.now.vars ≡ clauses.now.vars }
    ensures found { IsScanResult clauses.now.clauses trail.now result }
    ensures trail { IsTrail trail.now }
{
    let _ = trail.level();
    for c in 0..clauses.count() {
        match clause_state(clauses, trail, c) {
            ClauseState::Conflict => return Found::Falsified(c),
            ClauseState::Unit(l) => return Found::Forced(c, l),
            ClauseState::Open => {}
        }
    }
    Found::Closed
}

/// Does the work of `PropagationProgress::propagate` by scanning all clauses for each literal. A
/// reference for tests.
pub fn propagate_by_scan(clauses: &NumberedClauses, trail: &mut Trail) -> Option<u64>
    requires { trail.old.vars ≡ clauses.now.vars }
    ensures conflict { IfSome result
        (λ c. IsTrue (is_conflict clauses.now.clauses (lits_of trail.new.entries) c)) }
    ensures closed { IfNone result
        (IsTrue (is_saturated clauses.now.clauses (lits_of trail.new.entries))) }
    ensures trail { trail.new ≡ record trail.old { entries = trail.new.entries } }
    ensures propagated { ExtendsByPropagation clauses.now.clauses trail.old.entries
        trail.new.entries }
{
    'rounds: loop {
        match find(clauses, trail) {
            Found::Falsified(c) => return Some(c),
            Found::Forced(c, l) => trail.assign(l, c),
            Found::Closed => return None,
        }
    }
}
