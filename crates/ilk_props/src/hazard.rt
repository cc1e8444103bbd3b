ghost use Rattle.std.specs.Prelude.{◌≡◌, ◌<◌, length, IfOk};
ghost use Rattle.ilk_ir.specs.Form.{tree_of};
ghost use Rattle.ilk_props.specs.HazardForm as forms;
ghost use Rattle.ilk_props.specs.Laws.{HazardTreeIsCorrect, IsValidOverPlant};

use ilk_ir::Form;
use ilk_layout::{Occupancy, occupancy_is};
use ilk_plant::Plant;
use std::alloc::{AllocError, Global};

/// Returns the condition that section `x` has a hazard.
pub(crate) fn hazard_in_section(plant: &Plant, x: u32) -> Form
    requires { x < length plant.now.sections }
    ensures { tree_of result ≡ forms.hazard_in_section plant.now x }
{
    occupancy_is(plant, x, Occupancy::Crash)
}

fn some_crash(alloc: Global, plant: &Plant) -> Result<Form, AllocError>
    ensures { IfOk result (λ form. tree_of form ≡ forms.hazard_tree plant.now) }
{
    let mut sections = Vec::new(alloc);
    for x in 0..plant.sections() {
        sections.push(hazard_in_section(plant, x))?;
    }
    Ok(Form::Or(sections))
}

/// Returns the form "some section has a hazard" over the plant's variables: some occupancy is
/// `Crash`. Fails only if memory runs out.
pub fn hazard_form(alloc: Global, plant: &Plant) -> Result<Form, AllocError>
    ensures form { IfOk result (λ form. tree_of form ≡ forms.hazard_tree plant.now) }

    ensures valid { IsValidOverPlant plant.now (forms.hazard_tree plant.now) }

    ensures holds { HazardTreeIsCorrect plant.now }
{
    some_crash(alloc, plant)
}
