ghost use Rattle.std.specs.Prelude.{◌≡◌, ◌≤◌, ◌++◌, All, map, IfOk, OnOk};
ghost use Rattle.std.specs.List.{flat_map};
ghost use Rattle.ilk_plant.specs.Shape.{HasShape};
ghost use Rattle.ilk_plant.specs.declared.limits.TheConstants.{MAX_PATH};
ghost use Rattle.ilk_layout.specs.Image.{image_of, occupancy_values, point_values, route_values};
ghost use Rattle.ilk_layout.specs.Values as numbers;

use crate::occupancies::occupancies;
use crate::values::{
    aspect_value, commanded_value, detected_value, lock_value, mode_value, occupancy_value,
};
use ilk_base::Row;
use ilk_ir::Values;
use ilk_plant::{Aspect, Hold, Plant, PointState, RouteState, State};
use std::alloc::{AllocError, Global};

fn push_route(values: &mut Values, now: &RouteState) -> Result<(), AllocError>
    requires seen { now.now.seen ≤ MAX_PATH }
    requires rel { now.now.rel ≤ MAX_PATH }
    ensures { OnOk result (values.new ≡ values.old ++ route_values now.now) }
{
    values.push(mode_value(now.mode))?;
    values.push(now.seen as u8)?;
    values.push(now.rel as u8)?;
    Ok(())
}

fn push_routes(values: &mut Values, routes: &Row<RouteState>) -> Result<(), AllocError>
    requires { All (λ now. (now.seen ≤ MAX_PATH) × (now.rel ≤ MAX_PATH)) routes.now }
    ensures { OnOk result (values.new ≡ values.old ++ flat_map route_values routes.now) }
{
    for now in routes.as_slice() {
        push_route(values, now)?;
    }
    Ok(())
}

fn push_points(values: &mut Values, points: &Row<PointState>) -> Result<(), AllocError>
    ensures { OnOk result (values.new ≡ values.old ++ flat_map point_values points.now) }
{
    for point in points.as_slice() {
        values.push(detected_value(point.at))?;
        values.push(commanded_value(point.to))?;
    }
    Ok(())
}

fn push_boards(values: &mut Values, boards: &Row<Aspect>) -> Result<(), AllocError>
    ensures { OnOk result (values.new ≡ values.old ++ map numbers.aspect_value boards.now) }
{
    for aspect in boards.as_slice() {
        values.push(aspect_value(*aspect))?;
    }
    Ok(())
}

fn push_locks(values: &mut Values, locks: &Row<Hold>) -> Result<(), AllocError>
    ensures { OnOk result (values.new ≡ values.old ++ map numbers.lock_value locks.now) }
{
    for hold in locks.as_slice() {
        values.push(lock_value(*hold))?;
    }
    Ok(())
}

fn push_occupancies(
    alloc: Global,
    values: &mut Values,
    plant: &Plant,
    s: &State,
) -> Result<(), AllocError>
    requires { HasShape plant.now s.now }
    ensures { OnOk result (values.new ≡ values.old ++ occupancy_values plant.now s.now) }
{
    let made = occupancies(alloc, plant, s)?;
    for occupancy in made.as_slice() {
        values.push(occupancy_value(*occupancy))?;
    }
    Ok(())
}

/// Returns the image of state `s`: the values of the plant's variables, in order. Fails only if
/// memory runs out.
pub fn image(alloc: Global, plant: &Plant, s: &State) -> Result<Values, AllocError>
    requires { HasShape plant.now s.now }
    ensures { IfOk result (λ values. values ≡ image_of plant.now s.now) }
{
    plant.prove_is_plant();
    let mut values = Row::new(alloc);
    push_routes(&mut values, &s.routes)?;
    push_points(&mut values, &s.points)?;
    push_boards(&mut values, &s.boards)?;
    push_locks(&mut values, &s.locks)?;
    push_occupancies(alloc, &mut values, plant, s)?;
    Ok(values)
}
