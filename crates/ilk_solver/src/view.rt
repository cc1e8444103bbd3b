ghost use Rattle.std.specs.Prelude.{◌≡◌, ◌≤◌, ◌<◌, ◌+◌, ◌^◌, ◌-◌, ℕ, [], false, true, length, not, replicate, slice_index, if◌then◌else◌, IfNone, IfOk, IfSome, IsTrue};
ghost use Rattle.ilk_cnf.specs.Formula.{is_clause_over, is_lit_over};
ghost use Rattle.ilk_cnf.specs.Literal.{has_var, has_distinct_vars};
ghost use Rattle.ilk_trail.specs.Trail.{with_decision, level_of, entries_up_to};
ghost use Rattle.ilk_trail.specs.Laws.{is_set, lits_of};
ghost use Rattle.ilk_log.specs.Propagation.{is_saturated};
ghost use Rattle.ilk_watches.specs.Reasons.{is_conflict};
ghost use Rattle.ilk_watches.specs.Chained.{SameClauses};
ghost use Rattle.ilk_watches.specs.Propagated.{ExtendsByPropagation};
ghost use Rattle.ilk_watches.specs.Watched.{IsPropagationInvariant};
ghost use Rattle.ilk_solver.specs.declared.word.TheConstants.{WEIGHT_LIMIT};
ghost use Rattle.ilk_solver.specs.Assigned.{AllSet, SomeUnset};
ghost use Rattle.ilk_solver.specs.Heaviest.{IsHeaviest};
ghost use Rattle.ilk_solver.specs.Tree.{IsWinnerTree, HasSameVariables};
ghost use Rattle.ilk_solver.specs.View.{IsValidView, weight_of, with_trail_entries};

use crate::order::{drop_set_from_top, new_tree, put_back_above};
use crate::tree::add_one_weight;
use crate::word::{MOST_VARIABLES, variable};
use ilk_cnf::Lit;
use ilk_trail::Trail;
use ilk_watches::{NumberedClauses, PropagationProgress};
use std::alloc::{AllocError, Global};
use std::marker::Model;

/// A picker's view of a search: the unset variables, and for each variable the number of steps that
/// contain it.
#[derive(Drop)]
pub struct View {
    trail: Trail,
    weights: Vec<u32>,
    // The tree of winners among the unset variables, each in one word with its weight.
    tree: Vec<u64>,
}

impl Model for View {
    ghost use Rattle.ilk_solver.specs.Order.{TreeHasAllUnsetVars};
    ghost use Rattle.ilk_solver.specs.View.{TrailAndWeights};

    ghost Value = { TrailAndWeights };

    ghost view = { λ v. record { trail = v.trail; weights = v.weights.items } };

    ghost invariant = { λ v. TreeHasAllUnsetVars (record {
      trail = v.trail;
      weights = v.weights.items;
    })
        v.tree.items };
}

impl View {
    // Creates a view over the variables 1 to `vars`, without entries and with weights 0. Fails if
    // memory runs out, or for more than `MOST_VARIABLES` variables.
    pub(crate) fn new(alloc: Global, vars: u64) -> Result<View, AllocError>
        requires { vars ≤ 2 ^ 62 }
        ensures { IfOk result
            (λ view. view
            ≡ record
            { trail = record { vars = vars; entries = [] }; weights = replicate vars 0 }) }
    {
        if vars > MOST_VARIABLES {
            return Err(AllocError);
        }
        let trail = Trail::new(alloc, vars)?;
        let _ = trail.level();
        let weights = vec![in alloc; 0; vars as usize]?;
        let tree = new_tree(alloc, weights.as_slice())?;
        Ok(View {
            trail,
            weights,
            tree,
        })
    }

    /// Returns the number of variables, which are 1 to this number.
    pub fn vars(&self) -> u64
        ensures count { result ≡ self.now.trail.vars }
        ensures numbered { result ≤ 2 ^ 62 }
        ensures view { IsValidView self.now }
    {
        self.weights.len() as u64
    }

    /// Returns whether variable `v` has no value.
    pub fn unset(&self, v: u64) -> bool
        requires from_1 { 0 < v }
        requires within { v ≤ self.now.trail.vars }
        ensures { result ≡ not (is_set self.now.trail.entries v) }
    {
        let _ = self.vars();
        self.trail.value(Lit::new(v, true)).is_none()
    }

    /// Returns the number of steps so far that contain variable `v`.
    pub fn weight(&self, v: u64) -> u64
        requires from_1 { 0 < v }
        requires within { v ≤ self.now.trail.vars }
        ensures { result ≡ weight_of self.now v }
    {
        let _ = self.vars();
        self.weights[v as usize - 1] as u64
    }

    /// Returns the unset variable with the greatest weight, and of these the one with the least
    /// number. Returns `None` if every variable has a value.
    pub fn heaviest(&self) -> Option<u64>
        ensures some { IfSome result (λ v. IsHeaviest self.now v) }
        ensures none { IfNone result (AllSet self.now) }
    {
        let _ = self.vars();
        let top = variable(self.tree[1]);
        if top == 0 {
            return None;
        }
        Some(top)
    }

    pub(crate) fn trail(&self) -> &Trail
        ensures { result.now ≡ self.now.trail }
    {
        &self.trail
    }

    pub(crate) fn is_complete(&self) -> bool
        ensures yes { result ≡ true → AllSet self.now }
        ensures no { result ≡ false → SomeUnset self.now }
    {
        let _ = self.vars();
        self.trail.count() == self.vars()
    }

    pub(crate) fn propagate(
        &mut self,
        queue: &mut PropagationProgress,
        clauses: &mut NumberedClauses,
    ) -> Option<u64>
        requires vars { self.old.trail.vars ≡ clauses.old.vars }
        requires queued { IsPropagationInvariant clauses.old self.old.trail.entries queue.old.head
            queue.old.settled }
        ensures conflict { IfSome result
            (λ c. IsTrue (is_conflict clauses.old.clauses (lits_of self.new.trail.entries) c)) }
        ensures closed { IfNone result
            (IsTrue (is_saturated clauses.old.clauses (lits_of self.new.trail.entries))) }
        ensures entries { self.new ≡ with_trail_entries self.old self.new.trail.entries }
        ensures propagated { ExtendsByPropagation clauses.old.clauses self.old.trail.entries
            self.new.trail.entries }
        ensures queued { IsPropagationInvariant clauses.new self.new.trail.entries queue.new.head
            queue.new.settled }
        ensures same { SameClauses clauses.old clauses.new }
    {
        let found = queue.propagate(clauses, &mut self.trail);
        let _ = self.trail.level();
        drop_set_from_top(&self.trail, &self.weights, &mut self.tree);
        found
    }

    pub(crate) fn decide(
        &mut self,
        queue: &mut PropagationProgress,
        clauses: &mut NumberedClauses,
        l: Lit,
    )
        requires vars { self.old.trail.vars ≡ clauses.old.vars }
        requires queued { IsPropagationInvariant clauses.old self.old.trail.entries queue.old.head
            queue.old.settled }
        requires within { IsTrue (is_lit_over self.old.trail.vars l) }
        requires unset { is_set self.old.trail.entries l.var ≡ false }
        requires closed { IsTrue (is_saturated clauses.old.clauses
            (lits_of self.old.trail.entries)) }
        ensures entries { self.new ≡ with_trail_entries self.old
            (with_decision self.old.trail.entries l) }
        ensures queued { IsPropagationInvariant clauses.new self.new.trail.entries queue.new.head
            queue.new.settled }
        ensures same { SameClauses clauses.old clauses.new }
    {
        queue.decide(clauses, &mut self.trail, l);
        let _ = self.trail.level();
        drop_set_from_top(&self.trail, &self.weights, &mut self.tree);
    }

    pub(crate) fn back_to(&mut self, level: u64)
        requires { level ≤ level_of self.old.trail.entries }
        ensures entries { self.new ≡ with_trail_entries self.old
            (entries_up_to level self.old.trail.entries) }
        ensures level { level_of self.new.trail.entries ≡ level }
    {
        put_back_above(&self.trail, &self.weights, &mut self.tree, level);
        self.trail.back_to(level);
        let _ = self.trail.level();
        drop_set_from_top(&self.trail, &self.weights, &mut self.tree);
    }

    pub(crate) fn count(&mut self, clause: &[Lit])
        requires within { IsTrue (is_clause_over self.old.trail.vars clause.now) }
        requires differ { IsTrue (has_distinct_vars clause.now) }
        requires room { (i : ℕ) → slice_index self.old.weights i + 1 < WEIGHT_LIMIT }
        ensures trail { self.new.trail ≡ self.old.trail }
        ensures weights { (v : ℕ) → 0 < v →
            weight_of self.new v ≡ weight_of self.old v + (if has_var v clause.now then 1 else 0) }
    {
        count_in(&mut self.weights, &mut self.tree, clause);
        drop_set_from_top(&self.trail, &self.weights, &mut self.tree);
    }
}

// Adds 1 to entry `v - 1` for each variable `v` of the clause. The tree keeps its variables.
fn count_in(weights: &mut [u32], tree: &mut [u64], clause: &[Lit])
    requires within { IsTrue (is_clause_over (length weights.old) clause.now) }
    requires differ { IsTrue (has_distinct_vars clause.now) }
    requires room { (i : ℕ) → slice_index weights.old i + 1 < WEIGHT_LIMIT }
    requires tree { IsWinnerTree weights.old tree.old }
    ensures weights { (v : ℕ) → 0 < v →
        slice_index weights.new (v - 1)
        ≡ slice_index weights.old (v - 1) + (if has_var v clause.now then 1 else 0) }
    ensures tree { IsWinnerTree weights.new tree.new }
    ensures leaves { HasSameVariables weights.old tree.old weights.new tree.new }
{
    for lit in clause {
        add_one_weight(weights, tree, lit.var());
    }
}
