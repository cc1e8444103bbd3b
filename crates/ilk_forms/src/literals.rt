ghost use Rattle.std.specs.Prelude.{◌≡◌, ℕ, ◌∷◌, ◌++◌, [], true, false, OnOk, IfOk, IsTrue};
ghost use Rattle.ilk_cnf.specs.Formula.{is_lit_over, is_clause_over};
ghost use Rattle.ilk_cnf.specs.Part.{with_part};
ghost use Rattle.ilk_ir.specs.Form.{tree_of, trees_of};
ghost use Rattle.ilk_ir.specs.Tree.{negation, tree_valid, each_valid, value_valid};
ghost use Rattle.ilk_forms.specs.Leaf.{value_lit, has_lits_within_vars, ranges_of_copy_lits};
ghost use Rattle.ilk_forms.specs.Gates.{with_sign, gates_part, gates_within};
ghost use Rattle.ilk_forms.specs.Gathered.{is_negation_of_and_or_or, keep_lits_if_same_gate, combine_lits_into_one, signed_lit_as_lits_with_gates, form_to_and_or_lits, forms_to_and_or_lits};

use crate::bound::bound_lit_stated_by_or;
use crate::copy::CopyLits;
use crate::gates::{Gates, combined_lit, push_all, with_sign};
use ilk_cnf::{Cnf, Lit, Lits};
use ilk_ir::Form;
use std::alloc::{AllocError, Global};

/// Returns the literal of a copy that says that variable `v` has the value `c`. `table` has the
/// copy's literals.
pub(crate) fn value_lit(table: &CopyLits, v: u32, c: u8) -> Lit
    requires { IsTrue (value_valid (ranges_of_copy_lits table.now) v c) }
    ensures leaf { result ≡ value_lit table.now v c }
    ensures within { (n : ℕ) → IsTrue (has_lits_within_vars n table.now) →
        IsTrue (is_lit_over n result) }
{
    *table.at(u64::from(v)).values.at(u64::from(c))
}

fn one(alloc: Global, lit: Lit) -> Result<Lits, AllocError>
    ensures { IfOk result (λ lits. lits ≡ lit ∷ []) }
{
    let mut lits = Lits::new(alloc);
    lits.push(lit)?;
    Ok(lits)
}

// Returns the literals if `outer` and `inner` agree, otherwise one literal in their place.
fn take_in(
    alloc: Global,
    cnf: &mut Cnf,
    gates: &mut Gates,
    outer: bool,
    inner: bool,
    lits: Lits,
) -> Result<Lits, AllocError>
    requires { IsTrue (is_clause_over cnf.old.vars lits) }
    ensures lits { IfOk result
        (λ taken. taken
        ≡
        (keep_lits_if_same_gate gates.old cnf.old.vars outer inner
        (record { gates = []; lits = lits })).lits) }
    ensures gates { OnOk result
        (gates.new
        ≡ gates.old
        ++
        (keep_lits_if_same_gate gates.old cnf.old.vars outer inner
        (record { gates = []; lits = lits })).gates) }
    ensures made { OnOk result
        (cnf.new
        ≡ with_part cnf.old
        (gates_part
        (keep_lits_if_same_gate gates.old cnf.old.vars outer inner
        (record { gates = []; lits = lits })).gates cnf.old.vars)) }
{
    if outer == inner {
        return Ok(lits);
    }
    let lit = combined_lit(alloc, cnf, gates, inner, lits.as_slice())?;
    one(alloc, lit)
}

fn is_gate(form: &Form) -> bool
    ensures { result ≡ is_negation_of_and_or_or (negation (tree_of form.now)) }
{
    match form {
        Form::And(_) => true,
        Form::Or(_) => true,
        _ => false,
    }
}

fn is_negation_of_and_or_or(form: &Form) -> bool
    ensures { result ≡ is_negation_of_and_or_or (tree_of form.now) }
{
    match form {
        Form::Not(f) => is_gate(f),
        _ => false,
    }
}

/// Returns literals that represent `form`, or its negation unless `positive`. That formula holds
/// exactly if all of them (`all`), or some (otherwise), are true. `table` has the literals of the
/// copy to which `form` refers. New gates are added to `cnf` and to `gates`.
#[cycle(form_to_and_or_lits)]
pub(crate) fn form_to_and_or_lits(
    alloc: Global,
    cnf: &mut Cnf,
    gates: &mut Gates,
    table: &CopyLits,
    all: bool,
    positive: bool,
    form: &Form,
) -> Result<Lits, AllocError>
    requires within { IsTrue (has_lits_within_vars cnf.old.vars table.now) }
    requires gates { IsTrue (gates_within cnf.old.vars gates.old) }
    requires valid { IsTrue (tree_valid (ranges_of_copy_lits table.now) (tree_of form.now)) }
    ensures lits { IfOk result
        (λ lits. lits ≡ (form_to_and_or_lits table.now all positive
        (tree_of form.now) gates.old cnf.old.vars).lits) }
    ensures gates { OnOk result
        (gates.new
        ≡ gates.old
        ++ (form_to_and_or_lits table.now all positive (tree_of form.now) gates.old
        cnf.old.vars).gates) }
    ensures made { OnOk result
        (cnf.new
        ≡ with_part cnf.old
        (gates_part (form_to_and_or_lits table.now all positive (tree_of form.now) gates.old
        cnf.old.vars).gates cnf.old.vars)) }
{
    match form {
        Form::Yes => take_in(alloc, cnf, gates, all, positive, Lits::new(alloc)),
        Form::No => take_in(alloc, cnf, gates, all, !positive, Lits::new(alloc)),
        Form::Is(v, c) => one(alloc, with_sign(positive, value_lit(table, *v, *c))),
        Form::And(forms) => join(alloc, cnf, gates, table, all, positive, positive, forms),
        Form::Or(forms) => match bound_lit_stated_by_or(table, forms) {
            Some(lit) => one(alloc, with_sign(positive, lit)),
            None => join(alloc, cnf, gates, table, all, !positive, positive, forms),
        },
        Form::Not(f) => negation_to_and_or_lits(alloc, cnf, gates, table, all, positive, f),
    }
}

/// Returns the literals that `form_to_and_or_lits` gives for the negation of `form`.
#[cycle(form_to_and_or_lits)]
pub(crate) fn negation_to_and_or_lits(
    alloc: Global,
    cnf: &mut Cnf,
    gates: &mut Gates,
    table: &CopyLits,
    all: bool,
    positive: bool,
    form: &Form,
) -> Result<Lits, AllocError>
    requires within { IsTrue (has_lits_within_vars cnf.old.vars table.now) }
    requires gates { IsTrue (gates_within cnf.old.vars gates.old) }
    requires valid { IsTrue (tree_valid (ranges_of_copy_lits table.now) (tree_of form.now)) }
    ensures lits { IfOk result
        (λ lits. lits ≡ (form_to_and_or_lits table.now all positive
        (negation (tree_of form.now)) gates.old cnf.old.vars).lits) }
    ensures gates { OnOk result
        (gates.new
        ≡ gates.old
        ++ (form_to_and_or_lits table.now all positive (negation (tree_of form.now)) gates.old
        cnf.old.vars).gates) }
    ensures made { OnOk result
        (cnf.new
        ≡ with_part cnf.old
        (gates_part (form_to_and_or_lits table.now all positive (negation (tree_of form.now))
        gates.old cnf.old.vars).gates cnf.old.vars)) }
{
    if is_negation_of_and_or_or(form) {
        return marked_to_lits(alloc, cnf, gates, table, positive, form);
    }
    form_to_and_or_lits(alloc, cnf, gates, table, all, !positive, form)
}

// Returns one literal for the negation of the form, negated unless `positive`.
#[cycle(form_to_and_or_lits)]
fn marked_to_lits(
    alloc: Global,
    cnf: &mut Cnf,
    gates: &mut Gates,
    table: &CopyLits,
    positive: bool,
    form: &Form,
) -> Result<Lits, AllocError>
    requires within { IsTrue (has_lits_within_vars cnf.old.vars table.now) }
    requires gates { IsTrue (gates_within cnf.old.vars gates.old) }
    requires valid { IsTrue (tree_valid (ranges_of_copy_lits table.now) (tree_of form.now)) }
    ensures lits { IfOk result
        (λ lits. lits ≡ (signed_lit_as_lits_with_gates positive
        (combine_lits_into_one gates.old cnf.old.vars true
        (form_to_and_or_lits table.now true false (tree_of form.now) gates.old
        cnf.old.vars))).lits) }
    ensures gates { OnOk result
        (gates.new
        ≡ gates.old
        ++ (combine_lits_into_one gates.old cnf.old.vars true
        (form_to_and_or_lits table.now true false (tree_of form.now) gates.old
        cnf.old.vars)).gates) }
    ensures made { OnOk result
        (cnf.new
        ≡ with_part cnf.old
        (gates_part (combine_lits_into_one gates.old cnf.old.vars true
        (form_to_and_or_lits table.now true false (tree_of form.now) gates.old
        cnf.old.vars)).gates cnf.old.vars)) }
{
    let lits = form_to_and_or_lits(alloc, cnf, gates, table, true, false, form)?;
    let lit = combined_lit(alloc, cnf, gates, true, lits.as_slice())?;
    one(alloc, with_sign(positive, lit))
}

// Represents the And (`inner`) or Or (otherwise) of the forms.
#[cycle(form_to_and_or_lits)]
fn join(
    alloc: Global,
    cnf: &mut Cnf,
    gates: &mut Gates,
    table: &CopyLits,
    all: bool,
    inner: bool,
    positive: bool,
    forms: &[Form],
) -> Result<Lits, AllocError>
    requires within { IsTrue (has_lits_within_vars cnf.old.vars table.now) }
    requires gates { IsTrue (gates_within cnf.old.vars gates.old) }
    requires valid { IsTrue (each_valid (ranges_of_copy_lits table.now) (trees_of forms.now)) }
    ensures lits { IfOk result
        (λ lits. lits
        ≡
        (keep_lits_if_same_gate gates.old cnf.old.vars all inner
        (forms_to_and_or_lits table.now inner positive (trees_of forms.now) gates.old
        cnf.old.vars)).lits) }
    ensures gates { OnOk result
        (gates.new
        ≡ gates.old
        ++
        (keep_lits_if_same_gate gates.old cnf.old.vars all inner
        (forms_to_and_or_lits table.now inner positive (trees_of forms.now) gates.old
        cnf.old.vars)).gates) }
    ensures made { OnOk result
        (cnf.new
        ≡ with_part cnf.old
        (gates_part
        (keep_lits_if_same_gate gates.old cnf.old.vars all inner
        (forms_to_and_or_lits table.now inner positive (trees_of forms.now) gates.old
        cnf.old.vars)).gates cnf.old.vars)) }
{
    let lits = forms_to_and_or_lits(alloc, cnf, gates, table, inner, positive, forms)?;
    let taken = take_in(alloc, cnf, gates, all, inner, lits)?;
    Ok(taken)
}

/// Returns the literals that `form_to_and_or_lits` gives for each of `forms`, in order, in one
/// list.
#[cycle(form_to_and_or_lits)]
pub(crate) fn forms_to_and_or_lits(
    alloc: Global,
    cnf: &mut Cnf,
    gates: &mut Gates,
    table: &CopyLits,
    all: bool,
    positive: bool,
    forms: &[Form],
) -> Result<Lits, AllocError>
    requires within { IsTrue (has_lits_within_vars cnf.old.vars table.now) }
    requires gates { IsTrue (gates_within cnf.old.vars gates.old) }
    requires valid { IsTrue (each_valid (ranges_of_copy_lits table.now) (trees_of forms.now)) }
    ensures lits { IfOk result
        (λ lits. lits ≡ (forms_to_and_or_lits table.now all positive
        (trees_of forms.now) gates.old cnf.old.vars).lits) }
    ensures gates { OnOk result
        (gates.new
        ≡ gates.old
        ++ (forms_to_and_or_lits table.now all positive (trees_of forms.now) gates.old
        cnf.old.vars).gates) }
    ensures made { OnOk result
        (cnf.new
        ≡ with_part cnf.old
        (gates_part (forms_to_and_or_lits table.now all positive (trees_of forms.now) gates.old
        cnf.old.vars).gates cnf.old.vars)) }
{
    let mut lits = Lits::new(alloc);
    for form in forms {
        let more = form_to_and_or_lits(alloc, cnf, gates, table, all, positive, form)?;
        push_all(&mut lits, more.as_slice())?;
    }
    Ok(lits)
}
