//! Walks over the states of a plant with a strict table. After each event the state must have no
//! hazard and break no family.
ghost use Rattle.ilk_plant.specs.Shape.{HasShape};
ghost use Rattle.ilk_model.specs.Meets.{Meets};
ghost use Rattle.ilk_strict.specs.IsStrict.{IsStrict};

use crate::plants::event;
use crate::walks::next_random;
use ilk_model::{Event, broken_family, hazard};
use ilk_plant::{Plant, State};
use ilk_strict::{advance, begin};
use std::alloc::Global;
use std::test::Fail;

/// Counts of the events of a walk: of all, and of two kinds that come late in a train's journey.
#[derive(Clone, Copy, Drop)]
pub(crate) struct WalkEventCounts {
    pub events: u32,
    /// The events by which a train's head came to a section.
    pub heads: u32,
    /// The events by which a route released a section.
    pub releases: u32,
}

impl WalkEventCounts {
    /// Returns whether each count is at least that in `least`.
    pub fn has(&self, least: WalkEventCounts) -> bool {
        self.events >= least.events && self.heads >= least.heads && self.releases >= least.releases
    }

    fn count(&mut self, event: Event) {
        self.events = self.events.saturating_add(1);
        match event {
            Event::Head(_) => self.heads = self.heads.saturating_add(1),
            Event::Release(_) => self.releases = self.releases.saturating_add(1),
            _ => {}
        }
    }
}

fn ask(plant: &Plant, s: &State) -> Result<(), Fail>
    requires { HasShape plant.now s.now }
{
    if hazard(plant, s).is_some() {
        return Err(Fail::new("a hazard"));
    }
    if broken_family(plant, s).is_some() {
        return Err(Fail::new("a family is broken"));
    }
    Ok(())
}

// Takes an event, if it is enabled, counts it, and checks the state after it.
fn try_event(
    alloc: Global,
    plant: &Plant,
    s: &mut State,
    event: Event,
    counts: &mut WalkEventCounts,
) -> Result<(), Fail>
    requires strict { IsStrict plant.now }
    requires meets { Meets plant.now s.old }
    ensures meets { Meets plant.now s.new }
{
    if advance(alloc, plant, s, event)? {
        counts.count(event);
        ask(plant, s)?;
    }
    Ok(())
}

// The kinds of events except `enter` and `cancel`.
const USUAL: [u32; 11] = [0, 1, 2, 3, 4, 5, 6, 7, 9, 10, 11];

// Returns a kind of event. `enter` and `cancel` are rare, so that trains have room to run and
// routes stay set.
fn kind_of_number(number: u64) -> u32 {
    match number % 46 {
        44 => 8,
        45 => 12,
        i => *USUAL.get((i % 11) as usize).unwrap_or(&0),
    }
}

// Returns the event for a pseudo-random number: any kind, any route or section.
fn event_of_number(plant: &Plant, number: u64) -> Event {
    let many = u64::from(plant.routes().max(plant.sections()));
    let high = number >> 33;
    let subject = (high / 46).checked_rem(many).unwrap_or(0);
    event(kind_of_number(high), subject as u32)
}

// Tries `tries` events from the initial state. Returns the last number.
fn walk_from_start(
    alloc: Global,
    plant: &Plant,
    first: u64,
    tries: u32,
    counts: &mut WalkEventCounts,
) -> Result<u64, Fail>
    requires { IsStrict plant.now }
{
    let mut s = begin(alloc, plant)?;
    let mut number = first;
    for _ in 0..tries {
        number = next_random(number);
        try_event(alloc, plant, &mut s, event_of_number(plant, number), counts)?;
    }
    Ok(number)
}

/// Makes `times` pseudo-random walks of `tries` events each from the initial state, and counts the
/// enabled events. Fails if a state has a hazard or breaks a family. Short walks are better than a
/// long one, since trains block each other after a while.
pub(crate) fn walk_repeatedly_from_start(
    alloc: Global,
    plant: &Plant,
    times: u32,
    tries: u32,
) -> Result<WalkEventCounts, Fail>
    requires { IsStrict plant.now }
{
    let mut counts = WalkEventCounts {
        events: 0,
        heads: 0,
        releases: 0,
    };
    let mut number = 1;
    for _ in 0..times {
        number = walk_from_start(alloc, plant, number, tries, &mut counts)?;
    }
    Ok(counts)
}
