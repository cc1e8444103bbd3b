ghost use Rattle.std.specs.Prelude.{◌≡◌, ℕ, IsTrue};
ghost use Rattle.std.specs.Borrow.{Bor};
ghost use Rattle.ilk_cnf.specs.Literal.{Literal};
ghost use Rattle.ilk_solver.specs.Assigned.{SomeUnset};
ghost use Rattle.ilk_solver.specs.View.{TrailAndWeights, IsValidView, is_unset};

use crate::view::View;
use ilk_cnf::Lit;

/// Chooses the next decision by a closure. It has to accept every view with an unset variable, and
/// return a literal of such a variable. Ghost fields keep these facts; nothing is tested at run
/// time.
#[derive(Drop)]
pub struct Picker {
    picks: Box<dyn Fn(&View) -> Lit>,
    ghost callable: { (view : Bor TrailAndWeights) (v : ℕ) → IsValidView view.now →
        IsTrue (is_unset view.now v) → pre picks view },
    ghost unset: { (view : Bor TrailAndWeights) (v : ℕ) (l : Literal) → IsValidView view.now →
        IsTrue (is_unset view.now v) → post picks view l → IsTrue (is_unset view.now l.var) },
}

impl Picker {
    /// Creates a picker that decides by the closure `picks`.
    pub fn new(picks: Box<dyn Fn(&View) -> Lit>) -> Picker
        requires callable { (view : Bor TrailAndWeights) (v : ℕ) → IsValidView view.now →
            IsTrue (is_unset view.now v) → pre picks view }
        requires unset { (view : Bor TrailAndWeights) (v : ℕ) (l : Literal) → IsValidView view.now →
            IsTrue (is_unset view.now v) → post picks view l → IsTrue (is_unset view.now l.var) }
        ensures { result.picks ≡ picks }
    {
        Picker { picks }
    }

    // Returns the literal to decide next, as the closure chooses it. Some variable has to be unset.
    pub(crate) fn pick(&self, view: &View) -> Lit
        requires { SomeUnset view.now }
        ensures answered { post self.now.picks view.entry result }
        ensures unset { IsTrue (is_unset view.now result.var) }
    {
        let _ = view.vars();
        (self.picks)(view)
    }
}
