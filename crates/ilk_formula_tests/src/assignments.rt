ghost use Rattle.std.specs.Prelude.{◌≡◌, length, IfOk};

use ilk_cnf::Assignment;
use std::alloc::{AllocError, Global};

/// Returns the assignment that gives `vars` variables the bits of `pattern`, the lowest bit first.
pub(crate) fn assignment_of(
    alloc: Global,
    vars: u64,
    pattern: u64,
) -> Result<Assignment, AllocError>
    ensures { IfOk result (λ a. length a ≡ vars) }
{
    let mut a = Assignment::new(alloc);
    let mut rest = pattern;
    for _ in 0..vars {
        a.push(rest % 2 == 1)?;
        rest /= 2;
    }
    Ok(a)
}
