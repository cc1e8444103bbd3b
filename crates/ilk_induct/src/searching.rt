ghost use Rattle.std.specs.Prelude.{◌≡◌, ◌<◌, ◌^◌, ℕ, Bool, IfOk, IsTrue};
ghost use Rattle.std.specs.Borrow.{Bor};
ghost use Rattle.ilk_cnf.specs.Literal.{Literal};
ghost use Rattle.ilk_solver.specs.Answered.{IsAnswer, IsEmpoweringLogWithinBudget};
ghost use Rattle.ilk_solver.specs.View.{TrailAndWeights, IsValidView, is_unset};
ghost use Rattle.ilk_induct.specs.Decision.{IsNegatedHeaviestUnsetVar, is_restart_due};

use ilk_cnf::{Cnf, Lit};
use ilk_solver::{Outcome, Picker, Restart, Solver, View};
use std::alloc::{AllocError, Global};

type Picks = Box<dyn Fn(&View) -> Lit>;

type Asks = Box<dyn Fn(u64) -> bool>;

/// Searches for an assignment that satisfies `cnf`, and learns at most `budget` clauses. Returns
/// the assignment, a refutation, or that it gave up, with its log. The contract requires that
/// `picks` decides as `pick_negated_heaviest_unset_var` does, and that `asks` restarts as
/// `is_restart_due` says.
pub(crate) fn search(
    alloc: Global,
    cnf: Cnf,
    picks: Picks,
    asks: Asks,
    budget: u64,
) -> Result<Outcome, AllocError>
    requires picks { (view : Bor TrailAndWeights) (v : ℕ) → IsValidView view.now →
        IsTrue (is_unset view.now v) → Picks.pre picks view }
    requires decision { (view : Bor TrailAndWeights) (v : ℕ) (l : Literal) → IsValidView view.now →
        IsTrue (is_unset view.now v) → Picks.post picks view l →
        IsNegatedHeaviestUnsetVar view.now l }
    requires asks { Asks.IsAlwaysCallable asks }
    requires restart { (conflicts : ℕ) (due : Bool) → conflicts < 2 ^ 64 →
        Asks.post asks conflicts due → due ≡ is_restart_due conflicts }
    ensures log { IfOk result (λ o. IsEmpoweringLogWithinBudget cnf budget o.log) }
    ensures answer { IfOk result (λ o. IsAnswer cnf budget o.answer o.log) }
{
    let solver = Solver::new(alloc, &cnf, Picker::new(picks), Restart::new(asks))?;
    drop(cnf);
    solver.solve(budget)
}
