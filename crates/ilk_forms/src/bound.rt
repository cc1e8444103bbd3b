ghost use Rattle.std.specs.Prelude.{◌≡◌, ℕ, IfSome, IsTrue};
ghost use Rattle.ilk_cnf.specs.Formula.{is_lit_over};
ghost use Rattle.ilk_ir.specs.Form.{tree_of, trees_of};
ghost use Rattle.ilk_forms.specs.Leaf.{has_lits_within_vars};
ghost use Rattle.ilk_forms.specs.Bound.{next_value_if_stated, last_if_values_consecutive, bound_from_or_of_values, bound_lit_of_var, bound_lit, bound_lit_stated_by_or};

use crate::copy::{CopyLits, VarValueAndBoundLits};
use ilk_cnf::Lit;
use ilk_ir::Form;

/// The statement that variable `var` is at most `most`.
#[derive(Clone, Copy)]
pub(crate) struct VarUpperBound {
    pub var: u32,
    pub most: u8,
}

fn next_value_if_stated(v: u32, c: u8, form: &Form) -> Option<u8>
    ensures { result ≡ next_value_if_stated v c (tree_of form.now) }
{
    match form {
        Form::Is(u, d) if *u == v && u64::from(*d) == u64::from(c) + 1 => Some(*d),
        _ => None,
    }
}

fn last_if_values_consecutive(v: u32, c: u8, forms: &[Form]) -> Option<u8>
    ensures { result ≡ last_if_values_consecutive v c (trees_of forms.now) }
{
    let mut last = c;
    for form in forms {
        last = next_value_if_stated(v, last, form)?;
    }
    Some(last)
}

fn bound_from_or_of_values(forms: &[Form]) -> Option<VarUpperBound>
    ensures { result ≡ bound_from_or_of_values (trees_of forms.now) }
{
    match forms {
        [Form::Is(v, 0), rest @ ..] if !rest.is_empty() => {
            let most = last_if_values_consecutive(*v, 0, rest)?;
            Some(VarUpperBound { var: *v, most })
        }
        _ => None,
    }
}

fn bound_lit_of_var(column: &VarValueAndBoundLits, k: u8) -> Option<Lit>
    ensures { result ≡ bound_lit_of_var column.now k }
{
    let k = u64::from(k);
    if k + 2 == column.values.len() {
        return Some(column.values.at(k + 1).negated());
    }
    column
        .bounds
        .as_slice()
        .get(k.saturating_sub(1) as usize)
        .copied()
}

fn bound_leaf(table: &CopyLits, bound: VarUpperBound) -> Option<Lit>
    ensures { result ≡ bound_lit table.now bound.var bound.most }
{
    let column = table.as_slice().get(bound.var as usize)?;
    bound_lit_of_var(column, bound.most)
}

/// Returns the literal of a copy for the bound that an Or of `forms` states: "v is at most k" if
/// they are v = 0, v = 1, .., v = k. Returns `None` if they state no bound, or `table`, the copy's
/// literals, has no literal for it.
pub(crate) fn bound_lit_stated_by_or(table: &CopyLits, forms: &[Form]) -> Option<Lit>
    ensures leaf { result ≡ bound_lit_stated_by_or table.now (trees_of forms.now) }
    ensures within { (n : ℕ) → IsTrue (has_lits_within_vars n table.now) →
        IfSome result (λ l. IsTrue (is_lit_over n l)) }
{
    let bound = bound_from_or_of_values(forms)?;
    bound_leaf(table, bound)
}
