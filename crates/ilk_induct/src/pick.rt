ghost use Rattle.std.specs.Prelude.{◌≡◌, ℕ, false, IsTrue};
ghost use Rattle.ilk_cnf.specs.Literal.{negative_lit};
ghost use Rattle.ilk_solver.specs.View.{is_unset};
ghost use Rattle.ilk_induct.specs.Decision.{IsNegatedHeaviestUnsetVar, is_restart_due};

use ilk_cnf::Lit;
use ilk_solver::View;

/// Returns the next decision of a search: the negative literal of the unset variable with the
/// greatest weight, the least variable at a tie; of variable 1 if all are set. The weight of a
/// variable is the number of learned clauses that have it, similar to the literal counts of Chaff
/// (M. W. Moskewicz, C. F. Madigan, Y. Zhao, L. Zhang and S. Malik, 2001); it never decreases.
pub(crate) fn pick_negated_heaviest_unset_var(view: &View) -> Lit
    ensures decision { (v : ℕ) → IsTrue (is_unset view.now v) →
        IsNegatedHeaviestUnsetVar view.now result }
    ensures none_unset { ((v : ℕ) → is_unset view.now v ≡ false) → result ≡ negative_lit 1 }
{
    let _ = view.vars();
    match view.heaviest() {
        Some(v) => Lit::new(v, false),
        None => Lit::new(1, false),
    }
}

/// Returns whether a search restarts after `conflicts` conflicts: at each multiple of 128.
pub(crate) fn is_restart_due(conflicts: u64) -> bool
    ensures { result ≡ is_restart_due conflicts }
{
    conflicts % 128 == 0
}
