ghost use Rattle.std.specs.Prelude.{◌≡◌, IfOk, IsTrue, OnOk};
ghost use Rattle.ilk_layout.specs.Variables.{ranges_of_plant};
ghost use Rattle.ilk_unroll.specs.Goal.{plain_goal, goal_valid};
ghost use Rattle.ilk_queries.specs.Goal.{goal_forms_of_plant};
ghost use Rattle.ilk_queries.specs.Lifting.{GoalFormsMatchPlant};

use ilk_invs::{family_forms, family_forms_are_correct, family_forms_are_valid};
use ilk_layout::images_are_in_range;
use ilk_plant::Plant;
use ilk_props::{hazard_form, start_form, wellformed_form};
use ilk_unroll::Goal;
use std::alloc::{AllocError, Global};

#[tactic(auto, using(crate::proofs::GoalMeaning::goal_is, crate::proofs::GoalMeaning::goal_fits))]
/// Returns the goal of `plant`: forms over the variables that encode a state, for the initial
/// state, hazards, well-formed values and the nine families. Fails only if memory runs out.
pub fn goal(alloc: Global, plant: &Plant) -> Result<Goal, AllocError>
    ensures goal { IfOk result (λ made. plain_goal made ≡ goal_forms_of_plant plant.now) }
    ensures valid { OnOk result
        (IsTrue (goal_valid (ranges_of_plant plant.now) (goal_forms_of_plant plant.now))) }
    ensures means { OnOk result (GoalFormsMatchPlant plant.now (goal_forms_of_plant plant.now)) }
{
    images_are_in_range(plant);
    family_forms_are_correct(plant);
    family_forms_are_valid(plant);
    Ok(Goal {
        start: start_form(alloc, plant)?,
        hazard: hazard_form(alloc, plant)?,
        wellformed: wellformed_form(alloc, plant)?,
        families: family_forms(alloc, plant)?,
    })
}
