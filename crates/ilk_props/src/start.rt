ghost use Rattle.std.specs.Prelude.{◌≡◌, ◌<◌, ◌^◌, length, map, IfOk};
ghost use Rattle.std.specs.List.{enumerate_from};
ghost use Rattle.ilk_ir.specs.Form.{tree_of};
ghost use Rattle.ilk_ir.specs.Tree.{all_of, is, trees_from_list};
ghost use Rattle.ilk_props.specs.Laws.{StartTreeIsCorrect, IsValidOverPlant};
ghost use Rattle.ilk_props.specs.StartForm as forms;

use ilk_ir::{Form, Values};
use ilk_layout::image;
use ilk_plant::{Plant, start_state};
use std::alloc::{AllocError, Global};

fn value_is(v: u64, value: u8) -> Form
    requires { v < 2 ^ 32 }
    ensures { tree_of result ≡ is v value }
{
    Form::Is(v as u32, value)
}

// Returns the condition on each variable that it has its value among these.
fn each_is(alloc: Global, values: &Values) -> Result<Vec<Form>, AllocError>
    requires { length values.now < 2 ^ 32 }
    ensures { IfOk result
        (λ forms. map tree_of forms.items
        ≡ map (λ place. is place.0 place.1) (enumerate_from 0 values.now)) }
{
    let mut each = Vec::new(alloc);
    for v in 0..values.len() {
        each.push(value_is(v, *values.at(v)))?;
    }
    Ok(each)
}

fn all_are(alloc: Global, values: &Values) -> Result<Form, AllocError>
    requires { length values.now < 2 ^ 32 }
    ensures { IfOk result
        (λ form. tree_of form
        ≡ all_of (trees_from_list
        (map (λ place. is place.0 place.1) (enumerate_from 0 values.now)))) }
{
    Ok(Form::And(each_is(alloc, values)?))
}

#[tactic(auto, using(crate::proofs::StartHolds::few_variables))]
fn all_are_as_at_start(alloc: Global, plant: &Plant) -> Result<Form, AllocError>
    ensures { IfOk result (λ form. tree_of form ≡ forms.start_tree plant.now) }
{
    plant.prove_is_plant();
    let start = start_state(alloc, plant)?;
    let values = image(alloc, plant, &start)?;
    all_are(alloc, &values)
}

/// Returns the form "the values are the image of the initial state" over the plant's variables.
/// Fails only if memory runs out.
pub fn start_form(alloc: Global, plant: &Plant) -> Result<Form, AllocError>
    ensures form { IfOk result (λ form. tree_of form ≡ forms.start_tree plant.now) }

    ensures valid { IsValidOverPlant plant.now (forms.start_tree plant.now) }

    ensures holds { StartTreeIsCorrect plant.now }
{
    all_are_as_at_start(alloc, plant)
}
