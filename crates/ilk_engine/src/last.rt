ghost use Rattle.std.specs.Prelude.{◌≡◌, IfOk, IsTrue, Some, is_some};
ghost use Rattle.ilk_model.specs.Run.{run};
ghost use Rattle.ilk_plant.specs.Shape.{HasShape};
ghost use Rattle.ilk_plant.specs.Start.{start};
ghost use Rattle.ilk_queries.specs.Asked.{ends_in_breach, ends_in_hazard};
ghost use Rattle.ilk_engine.specs.Right as right;

use ilk_base::Row;
use ilk_model::{Event, HazardAt, apply, broken_family, hazard, start};
use ilk_plant::{Plant, State};
use std::alloc::{AllocError, Global};

fn state_after(alloc: Global, plant: &Plant, events: &Row<Event>) -> Result<State, AllocError>
    requires { IsTrue (is_some (run plant.now (start plant.now) events.now)) }
    ensures state { IfOk result (λ s. run plant.now (start plant.now) events.now ≡ Some s) }
    ensures shape { IfOk result (HasShape plant.now) }
{
    let mut s = start(alloc, plant)?;
    for event in events.as_slice() {
        apply(alloc, plant, &mut s, *event)?;
    }
    Ok(s)
}

/// Returns the hazard in which the run of `events` from the initial state ends.
pub(crate) fn hazard_after(
    alloc: Global,
    plant: &Plant,
    events: &Row<Event>,
) -> Result<HazardAt, AllocError>
    requires { IsTrue (ends_in_hazard plant.now (start plant.now) events.now) }
    ensures { IfOk result (λ at. right.hazard_after plant.now events.now ≡ Some at) }
{
    let last = state_after(alloc, plant, events)?;
    Ok(hazard(plant, &last).unwrap())
}

/// Returns the least family that the last state of the run of `events` breaks.
pub(crate) fn broken_family_after(
    alloc: Global,
    plant: &Plant,
    events: &Row<Event>,
) -> Result<u8, AllocError>
    requires { IsTrue (ends_in_breach plant.now (start plant.now) events.now) }
    ensures { IfOk result (λ family. right.broken_family_after plant.now events.now ≡ Some family) }
{
    let last = state_after(alloc, plant, events)?;
    Ok(broken_family(plant, &last).unwrap())
}
