use crate::changes::Change::{self, Open, Point, Train};
use crate::changes::start_with_changes;
use crate::plants::plant_from_configuration;
use crate::texts::{line, route_ending_without_board, station, two_sections_without_boards};
use crate::walks::Comparison;
use ilk_plant::Dir::{Down, Up};
use ilk_plant::Lie::Plus as AtPlus;
use ilk_plant::Plant;
use ilk_plant::Position::Minus;
use std::alloc::Global;
use std::test::Fail;

// An upper bound on the states of each line.
const MANY: u32 = 400;

// Compares all states of a line; some have a hazard if its table lets trains meet.
fn all_states(alloc: Global, text: &str, is_unsafe: bool) -> Result<(), Fail> {
    let plant = plant_from_configuration(alloc, text)?;
    all_states_on(alloc, &plant, is_unsafe)
}

fn all_states_on(alloc: Global, plant: &Plant, is_unsafe: bool) -> Result<(), Fail> {
    let compared = Comparison::of(alloc, plant)?;
    let tally = compared.compare_breadth_first(alloc, MANY)?;
    if tally.states >= u64::from(MANY) || (tally.hazards > 0) != is_unsafe {
        return Err(Fail::new("how many states there are"));
    }
    Ok(())
}

#[test]
fn all_states_of_lines(rt: HostRuntime) -> Result<(), Fail> {
    all_states(rt.alloc(), two_sections_without_boards(), true)?;
    all_states(rt.alloc(), line(), false)?;
    all_states(rt.alloc(), route_ending_without_board(), true)
}

// Compares some states, from the initial state with these changes.
fn some_states(alloc: Global, changes: &[Change], is_unsafe: bool) -> Result<(), Fail> {
    let plant = plant_from_configuration(alloc, station())?;
    some_states_on(alloc, &plant, changes, is_unsafe)
}

fn some_states_on(
    alloc: Global,
    plant: &Plant,
    changes: &[Change],
    is_unsafe: bool,
) -> Result<(), Fail> {
    let compared = Comparison::of(alloc, plant)?;
    let first = start_with_changes(alloc, plant, changes)?;
    let tally = compared.compare_along_random_walk(alloc, &first, 100)?;
    if (tally.hazards > 0) != is_unsafe {
        return Err(Fail::new("whether there are hazards"));
    }
    Ok(())
}

#[test]
fn states_of_stations(rt: HostRuntime) -> Result<(), Fail> {
    some_states(rt.alloc(), &[], false)
}

// A train at each end of the station before an open board, and both points are to be thrown.
const NEAR_HAZARD: [Change; 6] = [
    Open(0),
    Open(5),
    Train(Up, &[0]),
    Train(Down, &[5]),
    Point(0, AtPlus, Minus),
    Point(1, AtPlus, Minus),
];

#[test]
fn states_near_hazards(rt: HostRuntime) -> Result<(), Fail> {
    some_states(rt.alloc(), &NEAR_HAZARD, true)
}
