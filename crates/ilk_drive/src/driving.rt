ghost use Rattle.std.specs.Prelude.{ℕ, ◌≡◌, ◌≤◌, ◌*◌, true, IfOk, OnOk, None, length};
ghost use Rattle.std.specs.List.{list_all};
ghost use Rattle.ilk_plant.specs.Plant.{PlantLists};
ghost use Rattle.ilk_plant.specs.Shape.{HasShape};
ghost use Rattle.ilk_plant.specs.declared.state.Mode.TheVariants.{Free};
ghost use Rattle.ilk_routes.specs.Modes.{same_mode};
ghost use Rattle.ilk_model.specs.Hazard.{hazard};
ghost use Rattle.ilk_replay.specs.Writable.{IsWritableRunOfPlant};
ghost use Rattle.ilk_replay.specs.Told.{run_from_start};
ghost use Rattle.ilk_strict.specs.IsStrict.{IsStrict};
ghost use Rattle.ilk_drive.specs.Drive.{IsDriveOf, command_step, first_automatic, is_done_empty_and_free, final_state_outcome, next_step_unless_hazard};
ghost use Rattle.ilk_drive.specs.Progress.{IsStepOrUnchanged, state_after_first_automatic, state_and_commands_after_first_n};
ghost use Rattle.ilk_drive.specs.Places.{ContainsEnabledAutomaticIndices, ContainsEnabledAutomaticIndicesExcept, IsAutomaticEnablingGraphOf, IsStateAfterOptionalEvent, IsFirstAutomaticIfAny, IsLowerBoundOfList};
ghost use Rattle.ilk_drive.specs.Told.{IsRunFromStart, IsOutcomeWithoutHazard};
ghost use Rattle.ilk_drive.specs.declared.limits.TheConstants.{MAX_EVENTS_PER_COMMAND};
ghost use Rattle.ilk_base.specs.Numbers.{has_number};

use crate::automatic::Automatic;
use crate::candidates::Candidates;
use crate::touched::hazard_after;
use crate::waking::indices_enabled_by;
use crate::{Driven, Rest};
use ilk_model::{Event, HazardAt, apply, start};
use ilk_plant::{Mode, Plant, Row, State};
use std::alloc::{AllocError, Global};

/// The progress of a drive: the state with its hazard, the number of commands given, and the
/// indices of the automatic events that may be enabled.
#[derive(Drop)]
pub(crate) struct Standing {
    pub(crate) state: State,
    pub(crate) hazard: Option<HazardAt>,
    pub(crate) given: u64,
    pub(crate) candidates: Candidates,
}

fn push_all(candidates: &mut Candidates, places: &Row<u64>) -> Result<(), AllocError>
    ensures kept { OnOk result
        ((j : ℕ) → has_number j candidates.old ≡ true → has_number j candidates.new ≡ true) }
    ensures added { OnOk result
        ((j : ℕ) → has_number j places.now ≡ true → has_number j candidates.new ≡ true) }
{
    for place in places.as_slice() {
        candidates.push(*place)?;
    }
    Ok(())
}

// Executes the automatic event at `place`, if it is enabled, and returns it. Then it becomes a
// candidate again, with the events that it may enable. Returns `None`, and changes nothing, if it
// isn't enabled.
fn try_place(
    alloc: Global,
    plant: &Plant,
    automatic: &Automatic,
    candidates: &mut Candidates,
    s: &mut State,
    place: u64,
) -> Result<Option<Event>, AllocError>
    requires shape { HasShape plant.now s.old }
    requires all { IsAutomaticEnablingGraphOf plant.now automatic.now }
    requires covers { ContainsEnabledAutomaticIndicesExcept plant.now s.old place candidates.old }
    requires least { IsLowerBoundOfList place candidates.old }
    ensures first { IfOk result (IsFirstAutomaticIfAny plant.now s.old) }
    ensures next { IfOk result (IsStateAfterOptionalEvent plant.now s.old s.new) }
    ensures covers { OnOk result (ContainsEnabledAutomaticIndices plant.now s.new candidates.new) }
    ensures same { IfOk result (λ event. event ≡ None → candidates.new ≡ candidates.old) }
    ensures shape { HasShape plant.now s.new }
{
    plant.prove_is_plant();
    let Some(event) = automatic.events.as_slice().get(place as usize) else {
        return Ok(None);
    };
    if !apply(alloc, plant, s, *event)? {
        return Ok(None);
    }
    candidates.push(place)?;
    push_all(candidates, automatic.woken.at(place))?;
    Ok(Some(*event))
}

// Executes the first enabled automatic event and returns it. Returns `None`, and leaves the state
// unchanged, if there is none.
fn do_automatic(
    alloc: Global,
    plant: &Plant,
    automatic: &Automatic,
    candidates: &mut Candidates,
    s: &mut State,
) -> Result<Option<Event>, AllocError>
    requires shape { HasShape plant.now s.old }
    requires all { IsAutomaticEnablingGraphOf plant.now automatic.now }
    requires covers { ContainsEnabledAutomaticIndices plant.now s.old candidates.old }
    ensures first { IfOk result (λ event. event ≡ first_automatic plant.now s.old) }
    ensures next { OnOk result (s.new ≡ state_after_first_automatic plant.now s.old) }
    ensures covers { OnOk result (ContainsEnabledAutomaticIndices plant.now s.new candidates.new) }
    ensures shape { HasShape plant.now s.new }
{
    while let Some(place) = candidates.pop() {
        if let Some(event) = try_place(alloc, plant, automatic, candidates, s, place)? {
            return Ok(Some(event));
        }
    }
    Ok(None)
}

// Gives the next command and returns it. Returns `None`, and changes nothing, if none is left or it
// isn't enabled.
fn give_command(
    alloc: Global,
    plant: &Plant,
    automatic: &Automatic,
    scene: &Row<Event>,
    now: &mut Standing,
) -> Result<Option<Event>, AllocError>
    requires shape { HasShape plant.now now.old.state }
    requires all { IsAutomaticEnablingGraphOf plant.now automatic.now }
    requires covers { ContainsEnabledAutomaticIndices plant.now now.old.state now.old.candidates }
    ensures covers { OnOk result (ContainsEnabledAutomaticIndices plant.now now.new.state
        now.new.candidates) }
    ensures hazard { now.new.hazard ≡ now.old.hazard }
    ensures given { IfOk result
        (IsStepOrUnchanged (command_step plant.now
        (state_and_commands_after_first_n scene.now now.old.state now.old.given))
        (state_and_commands_after_first_n scene.now now.old.state now.old.given)
        (state_and_commands_after_first_n scene.now now.new.state now.new.given)) }
    ensures shape { HasShape plant.now now.new.state }
    ensures within { now.old.given ≤ length scene.now → now.new.given ≤ length scene.now }
{
    plant.prove_is_plant();
    let Some(command) = scene.as_slice().get(now.given as usize) else {
        return Ok(None);
    };
    if !apply(alloc, plant, &mut now.state, *command)? {
        return Ok(None);
    }
    let places = indices_enabled_by(alloc, plant, &automatic.events, *command)?;
    push_all(&mut now.candidates, &places)?;
    now.given += 1;
    Ok(Some(*command))
}

// Executes the next event, if there is no hazard, and returns it. Returns `None`, and changes
// nothing, if there is no next event.
fn go_on(
    alloc: Global,
    plant: &Plant,
    automatic: &Automatic,
    scene: &Row<Event>,
    now: &mut Standing,
) -> Result<Option<Event>, AllocError>
    requires shape { HasShape plant.now now.old.state }
    requires all { IsAutomaticEnablingGraphOf plant.now automatic.now }
    requires covers { ContainsEnabledAutomaticIndices plant.now now.old.state now.old.candidates }
    requires calm { hazard plant.now now.old.state ≡ None }
    ensures covers { OnOk result (ContainsEnabledAutomaticIndices plant.now now.new.state
        now.new.candidates) }
    ensures hazard { now.new.hazard ≡ now.old.hazard }
    ensures turn { IfOk result
        (IsStepOrUnchanged (next_step_unless_hazard plant.now
        (state_and_commands_after_first_n scene.now now.old.state now.old.given))
        (state_and_commands_after_first_n scene.now now.old.state now.old.given)
        (state_and_commands_after_first_n scene.now now.new.state now.new.given)) }
    ensures shape { HasShape plant.now now.new.state }
    ensures within { now.old.given ≤ length scene.now → now.new.given ≤ length scene.now }
{
    if let Some(event) = do_automatic(
        alloc,
        plant,
        automatic,
        &mut now.candidates,
        &mut now.state,
    )? {
        return Ok(Some(event));
    }
    give_command(alloc, plant, automatic, scene, now)
}

fn take_turn(
    alloc: Global,
    plant: &Plant,
    automatic: &Automatic,
    scene: &Row<Event>,
    now: &mut Standing,
) -> Result<Option<Event>, AllocError>
    requires shape { HasShape plant.now now.old.state }
    requires all { IsAutomaticEnablingGraphOf plant.now automatic.now }
    requires covers { ContainsEnabledAutomaticIndices plant.now now.old.state now.old.candidates }
    requires hazard { now.old.hazard ≡ hazard plant.now now.old.state }
    ensures covers { OnOk result (ContainsEnabledAutomaticIndices plant.now now.new.state
        now.new.candidates) }
    ensures hazard { OnOk result (now.new.hazard ≡ hazard plant.now now.new.state) }
    ensures turn { IfOk result
        (IsStepOrUnchanged (next_step_unless_hazard plant.now
        (state_and_commands_after_first_n scene.now now.old.state now.old.given))
        (state_and_commands_after_first_n scene.now now.old.state now.old.given)
        (state_and_commands_after_first_n scene.now now.new.state now.new.given)) }
    ensures shape { HasShape plant.now now.new.state }
    ensures within { now.old.given ≤ length scene.now → now.new.given ≤ length scene.now }
{
    if now.hazard.is_some() {
        return Ok(None);
    }
    let Some(event) = go_on(alloc, plant, automatic, scene, now)? else {
        return Ok(None);
    };
    now.hazard = hazard_after(plant, &now.state, event);
    Ok(Some(event))
}

fn all_free(s: &State) -> bool
    ensures { result ≡ list_all (λ route. same_mode route.mode Free) s.now.routes }
{
    s.routes
        .as_slice()
        .iter()
        .all(|route| matches!(route.mode, Mode::Free))
}

fn is_done_empty_and_free(scene: &Row<Event>, now: &Standing) -> bool
    ensures { result ≡ is_done_empty_and_free
        (state_and_commands_after_first_n scene.now now.now.state now.now.given) }
{
    now.given >= scene.len() && now.state.trains.len() == 0 && all_free(&now.state)
}

fn rest_at(scene: &Row<Event>, now: &Standing) -> Rest
    requires within { now.now.given ≤ length scene.now }
    ensures { (p : PlantLists) → now.now.hazard ≡ hazard p now.now.state →
        result ≡ final_state_outcome p
        (state_and_commands_after_first_n scene.now now.now.state now.now.given) }
{
    if let Some(at) = now.hazard {
        return Rest::Hazard(at);
    }
    if is_done_empty_and_free(scene, now) {
        return Rest::Driven;
    }
    let _commands = scene.as_slice().len();
    Rest::Stuck { at: now.given + 1 }
}

/// Runs the scenario `scene` from the initial state until it terminates. While an automatic event
/// is enabled, the first one is executed; otherwise the next command is. Returns the executed
/// events and the result.
///
/// The result is `Hazard` as soon as an event leads to a hazard, which never happens for a strict
/// table. It is `Driven` if all commands were given, no train is left and every route is Free.
/// Otherwise it is `Stuck`. Fails only if memory runs out.
pub fn drive(alloc: Global, plant: &Plant, scene: &Row<Event>) -> Result<Driven, AllocError>
    ensures drive { IfOk result (IsDriveOf plant.now scene.now) }
    ensures run { IfOk result (λ driven. IsRunFromStart plant.now driven.events) }
    ensures told { IfOk result (λ driven. IsWritableRunOfPlant plant.now
        (run_from_start plant.now driven.events)) }
    ensures few { IfOk result
        (λ driven. length driven.events ≤ MAX_EVENTS_PER_COMMAND * length scene.now) }
    ensures strict { IsStrict plant.now →
        IfOk result (λ driven. IsOutcomeWithoutHazard driven.rest) }
{
    plant.prove_is_plant();
    plant.prove_sound_acyclic_drafts();
    let automatic = Automatic::of(alloc, plant)?;
    let mut now = Standing {
        state: start(alloc, plant)?,
        hazard: None,
        given: 0,
        candidates: automatic.all_places(alloc)?,
    };
    let mut events = Row::new(alloc);
    while let Some(event) = take_turn(alloc, plant, &automatic, scene, &mut now)? {
        events.push(event)?;
    }
    Ok(Driven {
        rest: rest_at(scene, &now),
        events,
    })
}
