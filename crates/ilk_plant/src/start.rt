ghost use Rattle.std.specs.Prelude.{◌≡◌, IfOk, replicate};
ghost use Rattle.ilk_plant.specs.Shape.{HasShape};
ghost use Rattle.ilk_plant.specs.Start.{start};

use crate::{Aspect, Hold, Lie, Mode, Plant, PointState, Position, RouteState, Row, State};
use std::alloc::{AllocError, Global};

fn copies<T: Copy>(alloc: Global, item: T, n: u32) -> Result<Row<T>, AllocError>
    ensures { IfOk result (λ row. row ≡ replicate n item) }
{
    let mut row = Row::new(alloc);
    for i in 0..n {
        row.push(item)?;
    }
    Ok(row)
}

/// Returns the initial state of `plant`: no train, all routes free, all points at plus and
/// commanded there, all boards closed, all locks free. Fails only if memory runs out.
pub fn start_state(alloc: Global, plant: &Plant) -> Result<State, AllocError>
    ensures start { IfOk result (λ s. s ≡ start plant.now) }
    ensures shape { IfOk result (HasShape plant.now) }
{
    let free = RouteState {
        mode: Mode::Free,
        seen: 0,
        rel: 0,
    };
    let at_plus = PointState {
        at: Lie::Plus,
        to: Position::Plus,
    };
    let routes = copies(alloc, free, plant.routes())?;
    let points = copies(alloc, at_plus, plant.points())?;
    let boards = copies(alloc, Aspect::Closed, plant.boards())?;
    let locks = copies(alloc, Hold::Free, plant.sections())?;
    Ok(State {
        routes,
        points,
        boards,
        locks,
        trains: Row::new(alloc),
    })
}
