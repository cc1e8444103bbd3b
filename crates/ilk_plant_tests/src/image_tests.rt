use crate::plants::{image_of, plant_from_configuration, state_after_event};
use crate::rules::events_of_firing_rules;
use crate::texts::two_sections_without_boards;
use ilk_behave::behaviour;
use ilk_ir::Values;
use ilk_layout::ranges;
use ilk_model::{Event, broken_family, start};
use ilk_plant::{Plant, State};
use std::alloc::Global;
use std::test::Fail;

// Returns the state after these events from the initial state.
fn state_after_all(alloc: Global, plant: &Plant, events: &[Event]) -> Result<State, Fail> {
    let mut s = start(alloc, plant)?;
    for event in events {
        s = state_after_event(alloc, plant, &s, *event)?.ok_or("an event that isn't enabled")?;
    }
    Ok(s)
}

fn image_after(alloc: Global, plant: &Plant, events: &[Event]) -> Result<Values, Fail> {
    image_of(alloc, plant, &state_after_all(alloc, plant, events)?)
}

// The sections of the bare line are a 0 and b 1. Its variables are their locks, then their
// occupancies.
#[test]
fn images_of_the_bare_line(rt: HostRuntime) -> Result<(), Fail> {
    let alloc = rt.alloc();
    let plant = plant_from_configuration(alloc, two_sections_without_boards())?;
    assert_eq!(rt;
        ranges(alloc, &plant)?.as_slice(),
        [3, 3, 10, 10].as_slice()
    );
    let run = [Event::Enter(0), Event::Enter(1), Event::Head(0)];
    let images = [[0, 0, 0, 0], [0, 0, 4, 0], [0, 0, 4, 8], [0, 0, 3, 9]];
    for (count, image) in images.iter().enumerate() {
        let after = image_after(alloc, &plant, &run[..count])?;
        assert_eq!(rt; after.as_slice(), image.as_slice(), "after {count} events");
    }
    Ok(())
}

// With a train in each section, only the rules of the two heads fire.
#[test]
fn rules_of_the_bare_line(rt: HostRuntime) -> Result<(), Fail> {
    let alloc = rt.alloc();
    let plant = plant_from_configuration(alloc, two_sections_without_boards())?;
    let s = state_after_all(alloc, &plant, &[Event::Enter(0), Event::Enter(1)])?;
    let fired = events_of_firing_rules(alloc, &plant, &behaviour(alloc, &plant)?, &s)?;
    let heads = [Event::Head(0), Event::Head(1)];
    assert!(rt; fired.iter().all(|event| heads.contains(event)));
    assert!(rt; heads.iter().all(|head| fired.contains(head)));
    Ok(())
}

// A head in front of which no route leads breaks the seventh family, and none before it.
#[test]
fn the_least_broken_family(rt: HostRuntime) -> Result<(), Fail> {
    let alloc = rt.alloc();
    let plant = plant_from_configuration(alloc, two_sections_without_boards())?;
    let s = state_after_all(alloc, &plant, &[Event::Enter(0)])?;
    assert!(rt; plant.has_shape(&s) && broken_family(&plant, &s) == Some(7));
    Ok(())
}
