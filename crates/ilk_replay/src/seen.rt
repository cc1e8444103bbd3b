ghost use Rattle.std.specs.Prelude.{◌≡◌, IfOk, Some, IsTrue, is_some};
ghost use Rattle.ilk_plant.specs.Shape.{HasShape};
ghost use Rattle.ilk_model.specs.Run.{next_from_hazard_free};
ghost use Rattle.ilk_replay.specs.Seen.{replay_result};

use ilk_model::{Event, HazardAt, apply, hazard};
use ilk_plant::{Plant, Row, State};
use std::alloc::{AllocError, Global};

/// The result of replaying a list of events from a state.
#[derive(Clone, Copy, PartialEq, Eq, Debug)]
pub enum Seen {
    /// The events are not a run: event `at`, from 1, isn't enabled, or the state before it has a
    /// hazard.
    NotARun { at: u64 },
    /// The events are a run, and its last state has no hazard.
    NoHazard,
    /// The events are a run that ends in this hazard.
    Hazard(HazardAt),
}

fn advance(alloc: Global, plant: &Plant, s: &mut State, event: Event) -> Result<bool, AllocError>
    requires { HasShape plant.now s.old }
    ensures answer { IfOk result (λ enabled. enabled
        ≡ is_some (next_from_hazard_free plant.now s.old event)) }
    ensures next { IfOk result
        (λ enabled. IsTrue enabled → next_from_hazard_free plant.now s.old event ≡ Some s.new) }
    ensures shape { HasShape plant.now s.new }
{
    if hazard(plant, s).is_some() {
        return Ok(false);
    }
    apply(alloc, plant, s, event)
}

/// Replays the events from the state `first`. Returns the hazard of the last state, or `NoHazard`.
/// If an event isn't enabled or follows a hazard, returns `NotARun` with the number of the first
/// such event, from 1. Fails only if memory runs out.
pub fn replay(
    alloc: Global,
    plant: &Plant,
    first: State,
    events: &Row<Event>,
) -> Result<Seen, AllocError>
    requires { HasShape plant.now first }
    ensures { IfOk result (λ seen. seen ≡ replay_result plant.now first events.now) }
{
    let mut state = first;
    for (i, event) in events.as_slice().iter().enumerate() {
        if !advance(alloc, plant, &mut state, *event)? {
            return Ok(Seen::NotARun { at: i as u64 + 1 });
        }
    }
    Ok(match hazard(plant, &state) {
        None => Seen::NoHazard,
        Some(at) => Seen::Hazard(at),
    })
}
