//! Theorems about images.

ghost use Rattle.ilk_layout.specs.Laws.{ImagesAreInRange, ImagesDetermineExceptTrainOrder, EventsIgnoreTrainOrder, WellformedIffSafeStateImage};

use ilk_plant::Plant;

/// Each value in the image of a well-formed state is less than the number of values of its
/// variable. Proof only; no run-time effect.
pub fn images_are_in_range(plant: &Plant)
    ensures { ImagesAreInRange plant.now }
{
    plant.prove_is_plant();
}

/// Two well-formed states without hazard that have the same image differ only in the order of
/// trains. Proof only; no run-time effect.
pub fn images_determine_except_train_order(plant: &Plant)
    ensures { ImagesDetermineExceptTrainOrder plant.now }
{
    plant.prove_is_plant();
    plant.prove_sound_acyclic_drafts();
}

/// Values in range are well-formed if and only if they are the image of a well-formed state without
/// hazard. In well-formed values the occupancy of each section fits its neighbours. Proof only; no
/// run-time effect.
pub fn wellformed_iff_safe_state_image(plant: &Plant)
    ensures { WellformedIffSafeStateImage plant.now }
{
    plant.prove_is_plant();
    plant.prove_sound_acyclic_drafts();
}

/// Well-formed states without hazard that differ only in the order of trains allow the same events.
/// The next states also differ only in that order. Proof only; no run-time effect.
pub fn events_ignore_train_order(plant: &Plant)
    ensures { EventsIgnoreTrainOrder plant.now }
{
    plant.prove_is_plant();
    plant.prove_sound_acyclic_drafts();
}
