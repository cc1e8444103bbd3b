ghost use Rattle.std.specs.Prelude.{◌≡◌, ◌⊎◌, ◌≤◌, ◌<◌, ℕ, true, false, length, IfOk};
ghost use Rattle.ilk_trail.specs.Laws.{is_set};
ghost use Rattle.ilk_solver.specs.Order.{HasVarsSetAboveLevel, HasNoSetTop, LosesNoUnset};
ghost use Rattle.ilk_solver.specs.Tree.{IsWinnerTree, KeepsVariablesInTree, IsVariableInTree};
ghost use Rattle.ilk_solver.specs.declared.word.TheConstants.{MOST_VARIABLES};

use crate::tree::{put_variable, write_leaf};
use crate::word::variable;
use ilk_cnf::Lit;
use ilk_trail::Trail;
use std::alloc::{AllocError, Global};

/// Creates a tree that contains every variable, with entry `v - 1` as the weight of variable `v`.
pub(crate) fn new_tree(alloc: Global, weights: &[u32]) -> Result<Vec<u64>, AllocError>
    requires { length weights.now ≤ MOST_VARIABLES }
    ensures tree { IfOk result (λ tree. IsWinnerTree weights.now tree.items) }
    ensures each { IfOk result
        (λ tree. (v : ℕ) → 0 < v → v ≤ length weights.now →
        IsVariableInTree weights.now tree.items v) }
{
    let mut tree = vec![in alloc; 0; 2 * weights.len() + 2]?;
    for v in 0..weights.len() as u64 {
        put_variable(weights, tree.as_mut_slice(), v + 1);
    }
    Ok(tree)
}

// Returns whether `v` is a variable, and set.
fn is_past(trail: &Trail, v: u64) -> bool
    requires { v ≤ trail.now.vars }
    ensures variable { result ≡ true → 0 < v }
    ensures yes { result ≡ true → is_set trail.now.entries v ≡ true }
    ensures no { result ≡ false → (v ≡ 0) ⊎ (is_set trail.now.entries v ≡ false) }
{
    let _ = trail.level();
    v != 0 && trail.value(Lit::new(v, true)).is_some()
}

/// Removes the variable at the top of `tree` as long as it is set.
pub(crate) fn drop_set_from_top(trail: &Trail, weights: &[u32], tree: &mut [u64])
    requires vars { trail.now.vars ≡ length weights.now }
    requires tree { IsWinnerTree weights.now tree.old }
    ensures tree { IsWinnerTree weights.now tree.new }
    ensures kept { LosesNoUnset trail.now.entries weights.now tree.old tree.new }
    ensures settled { HasNoSetTop trail.now.entries tree.new }
{
    'tops: while is_past(trail, variable(tree[1])) {
        let top = variable(tree[1]);
        write_leaf(weights, tree, top, 0);
    }
}

/// Puts the variables of the trail's entries above `level` back into `tree`.
pub(crate) fn put_back_above(trail: &Trail, weights: &[u32], tree: &mut [u64], level: u64)
    requires vars { trail.now.vars ≡ length weights.now }
    requires tree { IsWinnerTree weights.now tree.old }
    ensures tree { IsWinnerTree weights.now tree.new }
    ensures kept { KeepsVariablesInTree weights.now tree.old tree.new }
    ensures above { HasVarsSetAboveLevel trail.now.entries level weights.now tree.new }
{
    let mut i = trail.count();
    'entries: while i > 0 {
        let lit = trail.at(i - 1);
        if trail.level_of(lit) <= level {
            return;
        }
        put_variable(weights, tree, lit.var());
        i -= 1;
    }
}
