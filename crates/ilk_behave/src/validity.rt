//! Theorems: the system of a plant is valid, and an event has few rules.

ghost use Rattle.std.specs.Prelude.{◌≤◌, length, IsTrue};
ghost use Rattle.ilk_ir.specs.System.{system_valid};
ghost use Rattle.ilk_behave.specs.Behaviour.{rules_of_event, system_of_plant};
ghost use Rattle.ilk_behave.specs.declared.validity.TheConstants.{MAX_RULES_PER_EVENT};
ghost use Rattle.ilk_model.specs.declared.event.Event.{Event};

use ilk_plant::Plant;

/// The maximum number of rules that a plant's system has for one event.
pub const MAX_RULES_PER_EVENT: u64 = 256;

/// The system of a plant is valid: its rules test and set only existing variables, to values in
/// range, and no rule sets a variable twice. Proof only; no run-time effect.
pub fn system_is_valid(plant: &Plant)
    ensures { IsTrue (system_valid (system_of_plant plant.now)) }
{
    plant.prove_is_plant();
}

/// No event has more than `MAX_RULES_PER_EVENT` rules. Proof only; no run-time effect.
pub fn each_event_has_few_rules(plant: &Plant)
    ensures { (event : Event) → length (rules_of_event plant.now event) ≤ MAX_RULES_PER_EVENT }
{
    plant.prove_is_plant();
}
