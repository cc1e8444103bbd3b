ghost use Rattle.std.specs.Prelude.{◌≡◌, ℕ, true, false, IsTrue};
ghost use Rattle.ilk_solver.specs.View.{is_unset};

use ilk_cnf::Lit;
use ilk_solver::{Picker, View};
use std::alloc::{AllocError, Global};

/// Picks the negative literal of the unset variable with the least number.
pub(crate) fn pick_least_negative(view: &View) -> Lit
    ensures unset { (v : ℕ) → IsTrue (is_unset view.now v) → IsTrue (is_unset view.now result.var) }
    ensures negative { result.positive ≡ false }
{
    for v in 1..=view.vars() {
        if view.unset(v) {
            return Lit::new(v, false);
        }
    }
    Lit::new(1, false)
}

/// Picks the positive literal of the unset variable with the greatest number.
pub(crate) fn pick_greatest_positive(view: &View) -> Lit
    ensures unset { (v : ℕ) → IsTrue (is_unset view.now v) → IsTrue (is_unset view.now result.var) }
    ensures positive { result.positive ≡ true }
{
    let mut v = view.vars();
    while v > 0 {
        if view.unset(v) {
            return Lit::new(v, true);
        }
        v -= 1;
    }
    Lit::new(1, true)
}

/// Picks the negative literal of the unset variable of greatest weight.
pub(crate) fn pick_heaviest_negative(view: &View) -> Lit
    ensures unset { (v : ℕ) → IsTrue (is_unset view.now v) → IsTrue (is_unset view.now result.var) }
    ensures negative { result.positive ≡ false }
{
    let _ = view.vars();
    match view.heaviest() {
        Some(v) => Lit::new(v, false),
        None => Lit::new(1, false),
    }
}

/// Picks the negative literal of the unset variable of greatest weight, if this is above 0.
/// Otherwise picks that of the least unset variable.
pub(crate) fn pick_heaviest_or_least_negative(view: &View) -> Lit
    ensures unset { (v : ℕ) → IsTrue (is_unset view.now v) → IsTrue (is_unset view.now result.var) }
    ensures negative { result.positive ≡ false }
{
    let _ = view.vars();
    match view.heaviest() {
        Some(v) if view.weight(v) > 0 => Lit::new(v, false),
        _ => pick_least_negative(view),
    }
}

/// Creates a `Picker` that calls `pick_heaviest_or_least_negative`.
pub(crate) fn heaviest_or_least_negative_picker(alloc: Global) -> Result<Picker, AllocError> {
    Ok(Picker::new(Box::new(alloc, pick_heaviest_or_least_negative)?))
}

/// Creates a `Picker` that calls `pick_least_negative`.
pub(crate) fn least_negative_picker(alloc: Global) -> Result<Picker, AllocError> {
    Ok(Picker::new(Box::new(alloc, pick_least_negative)?))
}

/// Creates a `Picker` that calls `pick_greatest_positive`.
pub(crate) fn greatest_positive_picker(alloc: Global) -> Result<Picker, AllocError> {
    Ok(Picker::new(Box::new(alloc, pick_greatest_positive)?))
}

/// Creates a `Picker` that calls `pick_heaviest_negative`.
pub(crate) fn heaviest_negative_picker(alloc: Global) -> Result<Picker, AllocError> {
    Ok(Picker::new(Box::new(alloc, pick_heaviest_negative)?))
}

/// Restart policy that restarts after each learned step: always returns `true`.
pub(crate) fn restart_always(_: u64) -> bool {
    true
}

/// Restart policy that never restarts: always returns `false`.
pub(crate) fn restart_never(_: u64) -> bool {
    false
}
