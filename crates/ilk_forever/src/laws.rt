ghost use Rattle.std.specs.Prelude.{ℕ, ◌<◌, ◌≤◌, ◌↔◌, IsTrue};
ghost use Rattle.ilk_behave.specs.Behaviour.{system_of_plant};
ghost use Rattle.ilk_layout.specs.Variables.{ranges_of_plant};
ghost use Rattle.ilk_lines.specs.Lines.{Bytes};
ghost use Rattle.ilk_unroll.specs.Goal.{goal_valid, step_count_is_allowed};
ghost use Rattle.ilk_unroll.specs.declared.queries.Wanted.{Wanted};
ghost use Rattle.ilk_unroll.specs.declared.queries.Wanted.TheVariants.{Step};
ghost use Rattle.ilk_certificate.specs.Certificate.{IsValidCertificate};
ghost use Rattle.ilk_unroll.specs.Evidence.{ReachesBreach, ReachesHazard, HasRun, HoldsForNoneUpTo};
ghost use Rattle.ilk_queries.specs.Asked.{HasQueriedRun};
ghost use Rattle.ilk_queries.specs.Goal.{goal_forms_of_plant};
ghost use Rattle.ilk_queries.specs.Lifting.{GoalFormsMatchPlant};
ghost use Rattle.ilk_forever.specs.Forever.{AlwaysKeepsInvariant};

use ilk_behave::{system_is_valid, system_matches_events};
use ilk_invs::{family_forms_are_correct, family_forms_are_valid};
use ilk_layout::images_are_in_range;
use ilk_plant::Plant;
use ilk_unroll::{k_induction_is_sound, satisfiable_iff_run_exists};

/// The forms of a plant's goal say of an image exactly whether its state is initial, is
/// well-formed, has a hazard, or keeps the invariant. They are valid over the ranges of the plant's
/// variables. Proof only; no run-time effect.
pub fn goal_forms_valid_and_correct(plant: &Plant)
    ensures means { GoalFormsMatchPlant plant.now (goal_forms_of_plant plant.now) }
    ensures valid { IsTrue
        (goal_valid (ranges_of_plant plant.now) (goal_forms_of_plant plant.now)) }
{
    plant.prove_is_plant();
    plant.prove_sound_acyclic_drafts();
    images_are_in_range(plant);
    family_forms_are_correct(plant);
    family_forms_are_valid(plant);
}

/// A plant has a run that a query asks for if and only if its finite system has one. Proof only; no
/// run-time effect.
pub fn query_runs_correspond(plant: &Plant)
    ensures { (q : Wanted) → IsTrue (step_count_is_allowed q)
        → HasRun (system_of_plant plant.now)
        (goal_forms_of_plant plant.now) q ↔ HasQueriedRun plant.now q }
{
    plant.prove_is_plant();
    system_matches_events(plant);
    goal_forms_valid_and_correct(plant);
}

/// A plant is safe for runs of any length if the base case and the step hold for a k from 1 to 16.
/// No run of up to k events from the initial state reaches a hazard or breaks a family. No run of k
/// events leaves the invariant. Each run from the initial state then ends in a state that meets the
/// invariant. Proof only; no run-time effect.
pub fn induction_implies_safety(plant: &Plant)
    ensures { (k : ℕ) → 0 < k → k ≤ 16
        → HoldsForNoneUpTo k (ReachesHazard (HasQueriedRun plant.now))
        → HoldsForNoneUpTo k (ReachesBreach (HasQueriedRun plant.now))
        → ¬ HasQueriedRun plant.now (Step k)
        → AlwaysKeepsInvariant plant.now }
{
    plant.prove_is_plant();
    system_matches_events(plant);
    system_is_valid(plant);
    goal_forms_valid_and_correct(plant);
    k_induction_is_sound();
}

/// A plant is safe for runs of any length if some bytes, regardless of their origin, are a
/// certificate of it. Each run from the initial state then ends in a state that meets the
/// invariant. Proof only; no run-time effect.
pub fn certificates_imply_safety(plant: &Plant)
    ensures { (k : ℕ) (bytes : Bytes) →
        IsValidCertificate (system_of_plant plant.now) (goal_forms_of_plant plant.now) k bytes →
        AlwaysKeepsInvariant plant.now }
{
    plant.prove_is_plant();
    system_matches_events(plant);
    system_is_valid(plant);
    goal_forms_valid_and_correct(plant);
    satisfiable_iff_run_exists();
    k_induction_is_sound();
}
