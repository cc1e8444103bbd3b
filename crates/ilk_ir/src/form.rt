ghost use Rattle.std.specs.Prelude.{◌≡◌};
ghost use Rattle.ilk_ir.specs.Tree.{tree_holds, is_value_of_var};
ghost use Rattle.ilk_ir.specs.Form.{tree_of};

use ilk_base::Row;

/// A condition on the values of variables. Contracts see it as a tree (`specs/Tree`).
#[derive(Drop)]
pub enum Form {
    /// Always holds.
    Yes,
    /// Never holds.
    No,
    /// Holds if the variable with this number has this value.
    Is(u32, u8),
    /// Holds if each of the forms holds; an empty list holds.
    And(Vec<Form>),
    /// Holds if at least one of the forms holds; an empty list doesn't hold.
    Or(Vec<Form>),
    /// Holds if the form doesn't hold.
    Not(Box<Form>),
}

/// A list of forms.
pub type Forms = Row<Form>;

/// A list with one value per variable.
pub type Values = Row<u8>;

/// Returns whether `form` holds for `values`. A variable beyond the end of `values` equals no
/// value.
pub fn holds(form: &Form, values: &Values) -> bool
    ensures { result ≡ tree_holds values.now (tree_of form.now) }
{
    holds_of(form, values.as_slice())
}

fn is_value_of_var(values: &[u8], v: u32, c: u8) -> bool
    ensures { result ≡ is_value_of_var values.now v c }
{
    match values.get(v as usize) {
        Some(value) => *value == c,
        None => false,
    }
}

fn holds_of(form: &Form, values: &[u8]) -> bool
    ensures { result ≡ tree_holds values.now (tree_of form.now) }
{
    match form {
        Form::Yes => true,
        Form::No => false,
        Form::Is(v, c) => is_value_of_var(values, *v, *c),
        Form::And(forms) => {
            for f in forms {
                if !holds_of(f, values) {
                    return false;
                }
            }
            true
        }
        Form::Or(forms) => {
            for f in forms {
                if holds_of(f, values) {
                    return true;
                }
            }
            false
        }
        Form::Not(f) => !holds_of(f, values),
    }
}
