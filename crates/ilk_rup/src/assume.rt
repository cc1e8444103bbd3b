//! Makes the literals of a set false, and builds its clause.

ghost use Rattle.std.specs.Prelude.{◌≡◌, ◌≤◌, ◌++◌, not, IfOk, OnOk, IsTrue};
ghost use Rattle.std.specs.List.{filter};
ghost use Rattle.ilk_cnf.specs.Formula.{is_lit_over};
ghost use Rattle.ilk_trail.specs.Trail.{level_of};
ghost use Rattle.ilk_cnf.specs.Literal.{has_lit};
ghost use Rattle.ilk_trail.specs.Laws.{is_set, lits_of};
ghost use Rattle.ilk_rup.specs.Needs.{TrailAssumesNegatedLit, TrailAssumesNegatedLits, unset_literals_first};

use crate::set::LitSet;
use ilk_cnf::{Lit, Lits};
use ilk_trail::Trail;
use std::alloc::{AllocError, Global};

// Makes literal `l` false at level 1, if its variable is unset. No reason is needed for such an
// entry; if it doesn't open the level, its reason is 0 as a placeholder.
fn assume_one(trail: &mut Trail, l: Lit)
    requires within { IsTrue (is_lit_over trail.old.vars l) }
    requires low { level_of trail.old.entries ≤ 1 }
    ensures trail { trail.new ≡ record trail.old { entries = trail.new.entries } }
    ensures assumed { TrailAssumesNegatedLit l trail.old.entries trail.new.entries }
{
    if is_set(trail, l) {
        return;
    }
    if trail.level() == 0 {
        trail.decide(l.negated());
    } else {
        trail.assign(l.negated(), 0);
    }
}

#[tactic(auto, using(crate::proofs::Sets::some_set, crate::proofs::Sets::none_set))]
fn is_set(trail: &Trail, l: Lit) -> bool
    requires { IsTrue (is_lit_over trail.now.vars l) }
    ensures { result ≡ is_set trail.now.entries l.var }
{
    match trail.value(l) {
        Some(_) => true,
        None => false,
    }
}

#[tactic(auto, using(crate::proofs::Sets::has_value, crate::proofs::Sets::no_value))]
/// Returns whether the trail sets literal `l` to true.
pub(crate) fn is_true(trail: &Trail, l: Lit) -> bool
    requires { IsTrue (is_lit_over trail.now.vars l) }
    ensures { result ≡ has_lit l (lits_of trail.now.entries) }
{
    let _ = trail.level();
    match trail.value(l) {
        Some(value) => value,
        None => false,
    }
}

/// Makes each literal of `set` false at level 1, if its variable is unset.
pub(crate) fn assume_negations(trail: &mut Trail, set: &LitSet)
    requires vars { set.now.vars ≡ trail.old.vars }
    requires level { level_of trail.old.entries ≡ 0 }
    ensures trail { trail.new ≡ record trail.old { entries = trail.new.entries } }
    ensures assumed { TrailAssumesNegatedLits set.now.lits trail.old.entries trail.new.entries }
{
    for i in 0..set.len() {
        assume_one(trail, set.at(i));
    }
}

fn push_where(clause: &mut Lits, trail: &Trail, set: &LitSet) -> Result<(), AllocError>
    requires { set.now.vars ≡ trail.now.vars }
    ensures { OnOk result
        (clause.new ≡ clause.old ++ filter (λ l. is_set trail.now.entries l.var) set.now.lits) }
{
    for i in 0..set.len() {
        let l = set.at(i);
        clause.push_if(is_set(trail, l), l)?;
    }
    Ok(())
}

fn push_unset(clause: &mut Lits, trail: &Trail, set: &LitSet) -> Result<(), AllocError>
    requires { set.now.vars ≡ trail.now.vars }
    ensures { OnOk result
        (clause.new
        ≡ clause.old ++ filter (λ l. not (is_set trail.now.entries l.var)) set.now.lits) }
{
    for i in 0..set.len() {
        let l = set.at(i);
        clause.push_if(!is_set(trail, l), l)?;
    }
    Ok(())
}

/// Returns the literals of `set`, those of unset variables first, in memory of exactly their size.
pub(crate) fn unset_literals_first(
    alloc: Global,
    trail: &Trail,
    set: &LitSet,
) -> Result<Lits, AllocError>
    requires { set.now.vars ≡ trail.now.vars }
    ensures { IfOk result (λ clause. clause ≡ unset_literals_first trail.now.entries set.now.lits) }
{
    let mut clause = Lits::new(alloc);
    push_unset(&mut clause, trail, set)?;
    push_where(&mut clause, trail, set)?;
    clause.copy()
}
