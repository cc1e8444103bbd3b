//! Theorems: the rules of each event match it. In each well-formed state without hazard, a guard
//! holds if and only if the event is enabled, and the settings give the image of the next state.

ghost use Rattle.std.specs.Prelude.{ℕ};
ghost use Rattle.ilk_behave.specs.Steps.{RulesMatchEventInAllStates, SystemMatchesEvents};
ghost use Rattle.ilk_model.specs.declared.event.Event.TheVariants as event;

use ilk_plant::Plant;

/// The rules of `mark` do exactly what the event does, from each well-formed state without hazard.
/// Proof only; no run-time effect.
pub fn mark_rules_match_event(plant: &Plant)
    ensures { (r : ℕ) → RulesMatchEventInAllStates plant.now (event.Mark r) }
{
    plant.prove_is_plant();
}

/// The rules of `cancel` do exactly what the event does, from each well-formed state without
/// hazard. Proof only; no run-time effect.
pub fn cancel_rules_match_event(plant: &Plant)
    ensures { (r : ℕ) → RulesMatchEventInAllStates plant.now (event.Cancel r) }
{
    plant.prove_is_plant();
}

/// The rules of `sense` do exactly what the event does, from each well-formed state without hazard.
/// Proof only; no run-time effect.
pub fn sense_rules_match_event(plant: &Plant)
    ensures { (r : ℕ) → RulesMatchEventInAllStates plant.now (event.Sense r) }
{
    plant.prove_is_plant();
}

/// The rules of `release` do exactly what the event does, from each well-formed state without
/// hazard. Proof only; no run-time effect.
pub fn release_rules_match_event(plant: &Plant)
    ensures { (r : ℕ) → RulesMatchEventInAllStates plant.now (event.Release r) }
{
    plant.prove_is_plant();
}

/// The rules of `finish` do exactly what the event does, from each well-formed state without
/// hazard. Proof only; no run-time effect.
pub fn finish_rules_match_event(plant: &Plant)
    ensures { (r : ℕ) → RulesMatchEventInAllStates plant.now (event.Finish r) }
{
    plant.prove_is_plant();
}

/// The rules of `allocate` do exactly what the event does, from each well-formed state without
/// hazard. Proof only; no run-time effect.
pub fn allocate_rules_match_event(plant: &Plant)
    ensures { (r : ℕ) → RulesMatchEventInAllStates plant.now (event.Allocate r) }
{
    plant.prove_is_plant();
}

/// The rules of `lock` do exactly what the event does, from each well-formed state without hazard.
/// Proof only; no run-time effect.
pub fn lock_rules_match_event(plant: &Plant)
    ensures { (r : ℕ) → RulesMatchEventInAllStates plant.now (event.Lock r) }
{
    plant.prove_is_plant();
}

/// The rules of `throw` do exactly what the event does, from each well-formed state without hazard.
/// Proof only; no run-time effect.
pub fn throw_rules_match_event(plant: &Plant)
    ensures { (x : ℕ) → RulesMatchEventInAllStates plant.now (event.Throw x) }
{
    plant.prove_is_plant();
}

/// The rules of `settle` do exactly what the event does, from each well-formed state without
/// hazard. Proof only; no run-time effect.
pub fn settle_rules_match_event(plant: &Plant)
    ensures { (x : ℕ) → RulesMatchEventInAllStates plant.now (event.Settle x) }
{
    plant.prove_is_plant();
}

/// The rules of `enter` do exactly what the event does, from each well-formed state without hazard.
/// Proof only; no run-time effect.
pub fn enter_rules_match_event(plant: &Plant)
    ensures { (x : ℕ) → RulesMatchEventInAllStates plant.now (event.Enter x) }
{
    plant.prove_is_plant();
    plant.prove_sound_acyclic_drafts();
}

/// The rules of `head` do exactly what the event does, from each well-formed state without hazard.
/// Proof only; no run-time effect.
pub fn head_rules_match_event(plant: &Plant)
    ensures { (x : ℕ) → RulesMatchEventInAllStates plant.now (event.Head x) }
{
    plant.prove_is_plant();
    plant.prove_sound_acyclic_drafts();
}

/// The rules of `tail` do exactly what the event does, from each well-formed state without hazard.
/// Proof only; no run-time effect.
pub fn tail_rules_match_event(plant: &Plant)
    ensures { (x : ℕ) → RulesMatchEventInAllStates plant.now (event.Tail x) }
{
    plant.prove_is_plant();
    plant.prove_sound_acyclic_drafts();
}

/// The rules of `leave` do exactly what the event does, from each well-formed state without hazard.
/// Proof only; no run-time effect.
pub fn leave_rules_match_event(plant: &Plant)
    ensures { (x : ℕ) → RulesMatchEventInAllStates plant.now (event.Leave x) }
{
    plant.prove_is_plant();
    plant.prove_sound_acyclic_drafts();
}

/// From each well-formed state without hazard, the finite system of a plant makes exactly the steps
/// of the plant's events. Proof only; no run-time effect.
pub fn system_matches_events(plant: &Plant)
    ensures { SystemMatchesEvents plant.now }
{
    plant.prove_is_plant();
    plant.prove_sound_acyclic_drafts();
}
