ghost use Rattle.ilk_strict.specs.IsStrict.{IsStrict};

use crate::examples::{flank_protected_loop_configuration, platforms, terminus};
use crate::plants::strict_plant_from_configuration;
use crate::stations::stations;
use crate::strict_walks::{WalkEventCounts, walk_repeatedly_from_start};
use crate::texts::line;
use ilk_model::Event;
use ilk_plant::Plant;
use ilk_strict::{advance, begin};
use std::alloc::Global;
use std::test::Fail;

fn walk_over(alloc: Global, text: &str, times: u32, tries: u32) -> Result<WalkEventCounts, Fail> {
    let plant = strict_plant_from_configuration(alloc, text)?;
    walk_repeatedly_from_start(alloc, &plant, times, tries)
}

fn keeps_invariant(
    alloc: Global,
    text: &str,
    times: u32,
    tries: u32,
    least: WalkEventCounts,
) -> Result<(), Fail> {
    let counts = walk_over(alloc, text, times, tries)?;
    if counts.has(least) {
        Ok(())
    } else {
        Err(Fail::new("too little happens"))
    }
}

fn least(events: u32, heads: u32, releases: u32) -> WalkEventCounts {
    WalkEventCounts {
        events,
        heads,
        releases,
    }
}

// Tries events from the initial state. Each has to be enabled or not, as given.
fn answers(alloc: Global, plant: &Plant, events: &[(Event, bool)]) -> Result<(), Fail>
    requires { IsStrict plant.now }
{
    let mut s = begin(alloc, plant)?;
    for (event, is_enabled) in events {
        if advance(alloc, plant, &mut s, *event)? != *is_enabled {
            return Err(Fail::new("another answer"));
        }
    }
    Ok(())
}

// A train enters the first section and runs to the second, which no other can enter then.
const ONE_TRAIN: [(Event, bool); 6] = [
    (Event::Enter(0), true),
    (Event::Mark(0), true),
    (Event::Allocate(0), true),
    (Event::Lock(0), true),
    (Event::Head(0), true),
    (Event::Enter(1), false),
];

#[test]
fn one_train_on_a_line(rt: HostRuntime) -> Result<(), Fail> {
    let plant = strict_plant_from_configuration(rt.alloc(), line())?;
    answers(rt.alloc(), &plant, &ONE_TRAIN)
}

// Its routes have one section, which is never released: they end by `finish`.
#[test]
fn a_line_keeps_the_invariant(rt: HostRuntime) -> Result<(), Fail> {
    keeps_invariant(rt.alloc(), line(), 400, 250, least(4000, 150, 0))
}

#[test]
fn platforms_keep_the_invariant(rt: HostRuntime) -> Result<(), Fail> {
    keeps_invariant(rt.alloc(), platforms(), 200, 500, least(4000, 200, 50))
}

#[test]
fn a_protected_station_keeps_the_invariant(rt: HostRuntime) -> Result<(), Fail> {
    keeps_invariant(
        rt.alloc(),
        flank_protected_loop_configuration(),
        100,
        1000,
        least(4000, 150, 30),
    )
}

#[test]
fn a_terminus_keeps_the_invariant(rt: HostRuntime) -> Result<(), Fail> {
    keeps_invariant(rt.alloc(), terminus(), 20, 5000, least(2500, 100, 20))
}

fn stations_keep_invariant(
    alloc: Global,
    count: u32,
    times: u32,
    tries: u32,
    least: WalkEventCounts,
) -> Result<(), Fail> {
    let text = stations(alloc, count)?;
    keeps_invariant(alloc, text.as_str(), times, tries, least)
}

// One station is the plant of `examples/station.json` with other names.
#[test]
fn a_station_keeps_the_invariant(rt: HostRuntime) -> Result<(), Fail> {
    stations_keep_invariant(rt.alloc(), 1, 100, 1000, least(4000, 150, 40))
}

#[test]
fn four_stations_keep_the_invariant(rt: HostRuntime) -> Result<(), Fail> {
    stations_keep_invariant(rt.alloc(), 4, 10, 10000, least(2500, 25, 8))
}

#[test]
fn sixteen_stations_keep_the_invariant(rt: HostRuntime) -> Result<(), Fail> {
    stations_keep_invariant(rt.alloc(), 16, 1, 40000, least(800, 3, 0))
}
