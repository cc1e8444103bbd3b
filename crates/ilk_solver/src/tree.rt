ghost use Rattle.std.specs.Prelude.{◌≡◌, ◌⊎◌, ◌≤◌, ◌<◌, ◌+◌, ◌-◌, length, slice_index, slice_set};
ghost use Rattle.ilk_solver.specs.Word.{packed_weight_and_variable};
ghost use Rattle.ilk_solver.specs.declared.word.TheConstants.{WEIGHT_LIMIT};
ghost use Rattle.ilk_solver.specs.Tree.{IsWinnerTree, IsWinnerTreeExceptAt, KeepsVariablesInTree, HasSameVariables, IsVariableInTree, leaves_of};

use crate::word::{greater, word};

// Decides node `from` again, then the nodes above it, as long as the winner changes.
fn replay(weights: &[u32], tree: &mut [u64], from: u64)
    requires from { from ≤ length weights.now }
    requires tree { IsWinnerTreeExceptAt weights.now tree.old from }
    ensures tree { IsWinnerTree weights.now tree.new }
    ensures leaves { leaves_of weights.now tree.new ≡ leaves_of weights.now tree.old }
{
    let mut at = from as usize;
    'nodes: while at > 0 {
        let winner = greater(tree[2 * at], tree[2 * at + 1]);
        if tree[at] == winner {
            return;
        }
        tree[at] = winner;
        at /= 2;
    }
}

/// Sets the leaf of variable `v` to `entry`, which is the word of `v` or 0, and updates the nodes
/// above it.
pub(crate) fn write_leaf(weights: &[u32], tree: &mut [u64], v: u64, entry: u64)
    requires from_1 { 0 < v }
    requires within { v ≤ length weights.now }
    requires entry { (entry ≡ 0) ⊎ (entry ≡ packed_weight_and_variable weights.now v) }
    requires tree { IsWinnerTree weights.now tree.old }
    ensures tree { IsWinnerTree weights.now tree.new }
    ensures leaves { leaves_of weights.now tree.new
        ≡ slice_set (leaves_of weights.now tree.old) v entry }
{
    let leaf = weights.len() + 1 + v as usize;
    if tree[leaf] == entry {
        return;
    }
    tree[leaf] = entry;
    replay(weights, tree, leaf as u64 / 2);
}

/// Puts variable `v` into `tree`, unless it contains `v` already.
pub(crate) fn put_variable(weights: &[u32], tree: &mut [u64], v: u64)
    requires from_1 { 0 < v }
    requires within { v ≤ length weights.now }
    requires tree { IsWinnerTree weights.now tree.old }
    ensures tree { IsWinnerTree weights.now tree.new }
    ensures kept { KeepsVariablesInTree weights.now tree.old tree.new }
    ensures stands { IsVariableInTree weights.now tree.new v }
{
    let leaf = weights.len() + 1 + v as usize;
    if tree[leaf] != 0 {
        return;
    }
    let entry = word(weights, v);
    write_leaf(weights, tree, v, entry);
}

/// Adds 1 to the weight of variable `v`, and updates `tree` if it contains `v`.
pub(crate) fn add_one_weight(weights: &mut [u32], tree: &mut [u64], v: u64)
    requires from_1 { 0 < v }
    requires within { v ≤ length weights.old }
    requires room { slice_index weights.old (v - 1) + 1 < WEIGHT_LIMIT }
    requires tree { IsWinnerTree weights.old tree.old }
    ensures tree { IsWinnerTree weights.new tree.new }
    ensures leaves { HasSameVariables weights.old tree.old weights.new tree.new }
    ensures weights { weights.new
        ≡ slice_set weights.old (v - 1) (slice_index weights.old (v - 1) + 1) }
{
    weights[v as usize - 1] += 1;
    let leaf = weights.len() + 1 + v as usize;
    if tree[leaf] == 0 {
        return;
    }
    tree[leaf] = word(weights, v);
    replay(weights, tree, leaf as u64 / 2);
}
