use crate::forms::{PlantForms, compare_forms_with_state, forms_of, is_hazardous};
use crate::plants::{events, image_of, state_after_event};
use crate::rules::compare_system_with_events;
use ilk_behave::behaviour;
use ilk_ir::{System, Values};
use ilk_model::{Event, start};
use ilk_plant::{Plant, State};
use std::alloc::Global;
use std::test::Fail;

/// A plant with its system, its forms and its events, to be compared at each state.
#[derive(Drop)]
pub(crate) struct Comparison<'a> {
    plant: &'a Plant,
    forms: PlantForms,
    system: System,
    events: Vec<Event>,
}

/// The number of states compared, and how many of them have a hazard.
#[derive(Clone, Copy, Drop)]
pub(crate) struct Tally {
    pub states: u64,
    pub hazards: u64,
}

impl<'a> Comparison<'a> {
    /// Creates the system, forms and events of `plant`.
    pub fn of(alloc: Global, plant: &'a Plant) -> Result<Comparison<'a>, Fail> {
        Ok(Comparison {
            plant,
            forms: forms_of(alloc, plant)?,
            system: behaviour(alloc, plant)?,
            events: events(alloc, plant)?,
        })
    }

    // Compares the forms with a state and, if it has no hazard, the rules with the events.
    fn compare(&self, alloc: Global, s: &State) -> Result<(), Fail> {
        compare_forms_with_state(alloc, self.plant, &self.forms, s)?;
        if is_hazardous(self.plant, s) {
            return Ok(());
        }
        compare_system_with_events(alloc, self.plant, &self.system, self.events.as_slice(), s)
    }

    // Returns the states after each enabled event; none after a hazard.
    fn nexts(&self, alloc: Global, s: &State) -> Result<Vec<State>, Fail> {
        let mut nexts = Vec::new(alloc);
        if is_hazardous(self.plant, s) {
            return Ok(nexts);
        }
        for event in self.events.as_slice() {
            match state_after_event(alloc, self.plant, s, *event)? {
                None => {}
                Some(next) => nexts.push(next)?,
            }
        }
        Ok(nexts)
    }

    fn tally(&self, alloc: Global, tally: &mut Tally, s: &State) -> Result<(), Fail> {
        self.compare(alloc, s)?;
        tally.states = tally.states.saturating_add(1);
        if is_hazardous(self.plant, s) {
            tally.hazards = tally.hazards.saturating_add(1);
        }
        Ok(())
    }

    /// Compares the first `bound` states in breadth-first order from the initial state. Fails if
    /// one doesn't agree.
    pub fn compare_breadth_first(&self, alloc: Global, bound: u32) -> Result<Tally, Fail> {
        let mut tally = Tally {
            states: 0,
            hazards: 0,
        };
        let mut found = Found::new(alloc);
        found.add(alloc, self.plant, start(alloc, self.plant)?)?;
        for i in 0..bound {
            match found.states.get(i as usize) {
                None => return Ok(tally),
                Some(state) => {
                    let s = state.copy()?;
                    self.tally(alloc, &mut tally, &s)?;
                    found.add_all(alloc, self.plant, self.nexts(alloc, &s)?)?;
                }
            }
        }
        Ok(tally)
    }

    /// Compares the states of a pseudo-random walk of `steps` steps from state `first`. A state
    /// without successor sends the walk back to `first`. Fails if a state doesn't agree.
    pub fn compare_along_random_walk(
        &self,
        alloc: Global,
        first: &State,
        steps: u32,
    ) -> Result<Tally, Fail> {
        let mut tally = Tally {
            states: 0,
            hazards: 0,
        };
        let mut number = 1;
        let mut s = first.copy()?;
        for _ in 0..steps {
            self.tally(alloc, &mut tally, &s)?;
            number = next_random(number);
            s = match chosen(self.nexts(alloc, &s)?, number) {
                Some(next) => next,
                None => first.copy()?,
            };
        }
        Ok(tally)
    }
}

/// Returns the pseudo-random number that follows `number`.
pub(crate) fn next_random(number: u64) -> u64 {
    number
        .wrapping_mul(6364136223846793005)
        .wrapping_add(1442695040888963407)
}

fn chosen(mut states: Vec<State>, number: u64) -> Option<State> {
    let place = (number >> 33).checked_rem(states.len() as u64)? as usize;
    if place < states.len() {
        Some(states.swap_remove(place))
    } else {
        None
    }
}

// States with different images.
#[derive(Drop)]
struct Found {
    states: Vec<State>,
    images: Vec<Values>,
}

impl Found {
    fn new(alloc: Global) -> Found {
        Found {
            states: Vec::new(alloc),
            images: Vec::new(alloc),
        }
    }

    fn has(&self, values: &[u8]) -> bool {
        self.images.iter().any(|image| image.as_slice() == values)
    }

    fn add(&mut self, alloc: Global, plant: &Plant, s: State) -> Result<(), Fail> {
        let values = image_of(alloc, plant, &s)?;
        if !self.has(values.as_slice()) {
            self.images.push(values)?;
            self.states.push(s)?;
        }
        Ok(())
    }

    fn add_all(&mut self, alloc: Global, plant: &Plant, states: Vec<State>) -> Result<(), Fail> {
        for s in states {
            self.add(alloc, plant, s)?;
        }
        Ok(())
    }
}
