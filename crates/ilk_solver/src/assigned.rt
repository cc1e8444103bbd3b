ghost use Rattle.std.specs.Prelude.{◌≡◌, IfOk};
ghost use Rattle.ilk_solver.specs.Assigned.{assignment_of};

use crate::view::View;
use ilk_cnf::{Assignment, Lit};
use std::alloc::{AllocError, Global};

/// Returns the assignment of the values in `view`, with `false` for an unset variable.
pub(crate) fn assignment(alloc: Global, view: &View) -> Result<Assignment, AllocError>
    ensures { IfOk result (λ a. a ≡ assignment_of view.now) }
{
    let mut values = Assignment::new(alloc);
    for v in 0..view.vars() {
        let value = view.trail().value(Lit::new(v + 1, true));
        values.push(value.unwrap_or(false))?;
    }
    Ok(values)
}
