//! Sets of literals over different variables, with queries in constant time.

ghost use Rattle.std.specs.Prelude.{◌≡◌, ◌<◌, ◌≤◌, ◌^◌, ◌++◌, ◌∷◌, [], false, length, slice_get, Some, IfOk, IsTrue};
ghost use Rattle.ilk_cnf.specs.Formula.{is_clause_over, is_lit_over};
ghost use Rattle.ilk_cnf.specs.Literal.{has_lit, has_var, has_distinct_vars};
ghost use Rattle.ilk_trail.specs.Laws.{lits_of};

use ilk_cnf::Lit;
use ilk_trail::Trail;
use std::alloc::{AllocError, Global};
use std::marker::Model;

/// A set of literals over different variables, in the order of insertion.
#[derive(Drop)]
pub(crate) struct LitSet {
    // Each literal is decided at a level of its own.
    trail: Trail,
}

impl Model for LitSet {
    ghost use Rattle.ilk_trail.specs.Laws.{lits_of};
    ghost use Rattle.ilk_rup.specs.LitSet.{LitSetList, NoEntryHasReason};

    ghost Value = { LitSetList };

    ghost view = { λ s. record { vars = s.trail.vars; lits = lits_of s.trail.entries } };

    ghost invariant = { λ s. NoEntryHasReason s.trail.entries };
}

impl LitSet {
    /// Creates an empty set over the variables 1 to `vars`.
    pub fn new(alloc: Global, vars: u64) -> Result<LitSet, AllocError>
        requires { vars ≤ 2 ^ 62 }
        ensures { IfOk result (λ s. s ≡ record { vars = vars; lits = [] }) }
    {
        Ok(LitSet {
            trail: Trail::new(alloc, vars)?,
        })
    }

    #[inline(always)]
    #[tactic(auto, using(crate::proofs::Sets::has_value, crate::proofs::Sets::no_value))]
    /// Returns whether the set has literal `l`.
    pub fn has(&self, l: Lit) -> bool
        requires { IsTrue (is_lit_over self.now.vars l) }
        ensures { result ≡ has_lit l self.now.lits }
    {
        let _ = self.trail.level();
        match self.trail.value(l) {
            Some(value) => value,
            None => false,
        }
    }

    #[inline(always)]
    #[tactic(auto, using(crate::proofs::Sets::some_set, crate::proofs::Sets::none_set))]
    /// Returns whether the set has `l` or its opposite.
    pub fn has_var(&self, l: Lit) -> bool
        requires { IsTrue (is_lit_over self.now.vars l) }
        ensures { result ≡ has_var l.var self.now.lits }
    {
        match self.trail.value(l) {
            Some(_) => true,
            None => false,
        }
    }

    #[tactic(auto, using(crate::proofs::Sets::decided_lits, crate::proofs::Sets::decided_all))]
    /// Adds literal `l`, whose variable must be new to the set.
    pub fn put(&mut self, l: Lit)
        requires within { IsTrue (is_lit_over self.old.vars l) }
        requires unset { has_var l.var self.old.lits ≡ false }
        ensures { self.new ≡ record self.old { lits = self.old.lits ++ l ∷ [] } }
    {
        self.trail.decide(l);
    }

    #[tactic(auto, using(crate::proofs::Sets::lits_length))]
    /// Returns the number of literals.
    pub fn len(&self) -> u64
        ensures count { result ≡ length self.now.lits }
        ensures differ { IsTrue (has_distinct_vars self.now.lits) }
        ensures within { IsTrue (is_clause_over self.now.vars self.now.lits) }
    {
        self.trail.count()
    }

    #[tactic(auto, using(crate::proofs::Sets::lits_length, crate::proofs::Sets::lits_at))]
    /// Returns literal `i` in the order of insertion, from 0.
    pub fn at(&self, i: u64) -> Lit
        requires { i < length self.now.lits }
        ensures { slice_get self.now.lits i ≡ Some result }
    {
        self.trail.at(i)
    }

    #[tactic(auto, using(crate::proofs::Sets::none_left, crate::proofs::Sets::none_decided))]
    /// Removes all literals.
    pub fn clear(&mut self)
        ensures { self.new ≡ record self.old { lits = [] } }
    {
        let _ = self.trail.level();
        self.trail.back_to(0);
    }
}
