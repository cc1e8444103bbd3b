ghost use Rattle.std.specs.Prelude.{◌≡◌, IfOk};
ghost use Rattle.ilk_ir.specs.Form.{tree_of};
ghost use Rattle.ilk_invs.specs.Parts as parts;

use ilk_ir::Form;
use ilk_layout::negated;
use std::alloc::{AllocError, Global};

/// Returns `form`, an And or Or, with the mark that it is one literal of a formula.
pub(crate) fn with_one_literal_mark(alloc: Global, form: Form) -> Result<Form, AllocError>
    ensures { IfOk result (λ marked. tree_of marked ≡ parts.with_one_literal_mark (tree_of form)) }
{
    let opposite = negated(alloc, form)?;
    negated(alloc, opposite)
}

/// Returns the condition that `then_this` holds if `condition` does.
pub(crate) fn implication(
    alloc: Global,
    condition: Form,
    then_this: Form,
) -> Result<Form, AllocError>
    ensures { IfOk result
        (λ form. tree_of form ≡ parts.implication (tree_of condition) (tree_of then_this)) }
{
    let mut forms = Vec::new(alloc);
    forms.push(negated(alloc, condition)?)?;
    forms.push(then_this)?;
    Ok(Form::Or(forms))
}
