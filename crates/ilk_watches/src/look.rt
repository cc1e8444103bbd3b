ghost use Rattle.std.specs.Prelude.{◌≡◌, ◌<◌, length};
ghost use Rattle.ilk_watches.specs.Reasons.{nth_clause_or_empty};
ghost use Rattle.ilk_trail.specs.Laws.{lits_of, IsTrail};
ghost use Rattle.ilk_watches.specs.Look.{clause_state};

use crate::clauses::NumberedClauses;
use ilk_cnf::Lit;
use ilk_trail::Trail;

/// The state of a clause under a trail: false (`Conflict`), false except for one unset literal
/// (`Unit`), or neither (`Open`).
#[derive(Clone, Copy)]
pub enum ClauseState {
    Conflict,
    Unit(Lit),
    Open,
}

/// Returns the state of clause number `c` under `trail`.
pub fn clause_state(clauses: &NumberedClauses, trail: &Trail, c: u64) -> ClauseState
    requires clause { c < length clauses.now.clauses }
    requires vars { trail.now.vars ≡ clauses.now.vars }
    ensures look { result ≡ clause_state (lits_of trail.now.entries)
        (nth_clause_or_empty clauses.now.clauses c) }
    ensures trail { IsTrail trail.now }
{
    let _ = trail.level();
    let mut unset = None;
    for i in 0..clauses.length(c) {
        let l = clauses.literal(c, i);
        match trail.value(l) {
            Some(value) => {
                if value {
                    return ClauseState::Open;
                }
            }
            None => {
                if unset.is_some() {
                    return ClauseState::Open;
                }
                unset = Some(l);
            }
        }
    }
    match unset {
        Some(l) => ClauseState::Unit(l),
        None => ClauseState::Conflict,
    }
}
