use crate::forms::compare_values_with_image;
use crate::plants::{image_of, state_after_event};
use ilk_behave::event_of;
use ilk_ir::{System, Values, fire};
use ilk_model::Event;
use ilk_plant::{Plant, State};
use std::alloc::Global;
use std::test::Fail;

// Returns the values after a rule, or `None` if its guard doesn't hold.
fn fired(
    alloc: Global,
    system: &System,
    before: &Values,
    rule: u32,
) -> Result<Option<Values>, Fail> {
    if u64::from(rule) >= system.rules.len() {
        return Err(Fail::new("a number that no rule has"));
    }
    let mut values = before.copy()?;
    if fire(system, &mut values, rule) {
        Ok(Some(values))
    } else {
        Ok(None)
    }
}

fn compare_next(
    alloc: Global,
    plant: &Plant,
    s: &State,
    event: Event,
    values: &Values,
) -> Result<(), Fail> {
    match state_after_event(alloc, plant, s, event)? {
        None => Err(Fail::new("a rule of an event that isn't enabled")),
        Some(next) => compare_values_with_image(alloc, plant, &next, values),
    }
}

// Compares a rule with its event. If its guard holds, the event is enabled and the rule's values
// are the image of the next state; returns the event.
fn compare_rule(
    alloc: Global,
    plant: &Plant,
    system: &System,
    s: &State,
    before: &Values,
    rule: u32,
) -> Result<Option<Event>, Fail> {
    match fired(alloc, system, before, rule)? {
        None => Ok(None),
        Some(values) => {
            let event = event_of(plant, rule).ok_or("a rule of no event")?;
            compare_next(alloc, plant, s, event, &values)?;
            Ok(Some(event))
        }
    }
}

/// Returns the event of each rule of `system` that fires in state `s`. Fails unless the event is
/// enabled and the rule's values are the image of the next state.
pub(crate) fn events_of_firing_rules(
    alloc: Global,
    plant: &Plant,
    system: &System,
    s: &State,
) -> Result<Vec<Event>, Fail> {
    let before = image_of(alloc, plant, s)?;
    let mut enabled = Vec::new(alloc);
    for rule in 0..u32::try_from(system.rules.len())? {
        match compare_rule(alloc, plant, system, s, &before, rule)? {
            None => {}
            Some(event) => enabled.push(event)?,
        }
    }
    Ok(enabled)
}

fn is_enabled(alloc: Global, plant: &Plant, s: &State, event: Event) -> Result<bool, Fail> {
    Ok(state_after_event(alloc, plant, s, event)?.is_some())
}

/// Fails unless `system` agrees with the plant's `events` in state `s`, which has no hazard. An
/// event is enabled if and only if a rule of it fires, and each such rule leads to the image of the
/// next state.
pub(crate) fn compare_system_with_events(
    alloc: Global,
    plant: &Plant,
    system: &System,
    events: &[Event],
    s: &State,
) -> Result<(), Fail> {
    let enabled = events_of_firing_rules(alloc, plant, system, s)?;
    for event in events {
        if is_enabled(alloc, plant, s, *event)? != enabled.contains(event) {
            return Err(Fail::new("the rules of an event"));
        }
    }
    Ok(())
}
