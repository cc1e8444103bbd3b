ghost use Rattle.std.specs.Prelude.{◌≡◌, ◌<◌, length, IfOk};
ghost use Rattle.ilk_ir.specs.Form.{tree_of};
ghost use Rattle.ilk_ir.specs.Tree.{negation};
ghost use Rattle.ilk_plant.specs.Plant.{point_count};
ghost use Rattle.ilk_layout.specs.Conditions as conditions;

use crate::values::{
    Occupancy, aspect_value, commanded_value, detected_value, lock_value, mode_value,
    occupancy_value,
};
use crate::variable_numbers::{
    board_var, commanded_var, detected_var, lock_var, mode_var, occupancy_var, released_count_var,
    seen_count_var,
};
use ilk_ir::Form;
use ilk_plant::{Aspect, Hold, Lie, Listed, Mode, Plant, Position, point_number_at};
use ilk_routes::lie_from_position;
use std::alloc::{AllocError, Global};

/// Returns a formula over the image: route `r` is in `mode`.
pub fn mode_is(plant: &Plant, r: u32, mode: Mode) -> Form
    requires { r < length plant.now.routes }
    ensures { tree_of result ≡ conditions.mode_is r mode }
{
    Form::Is(mode_var(plant, r), mode_value(mode))
}

/// Returns a formula over the image: `count` path sections of route `r` were seen occupied, in
/// order.
pub fn is_seen_count(plant: &Plant, r: u32, count: u8) -> Form
    requires { r < length plant.now.routes }
    ensures { tree_of result ≡ conditions.is_seen_count r count }
{
    Form::Is(seen_count_var(plant, r), count)
}

/// Returns a formula over the image: `count` path sections of route `r` were released, in order.
pub fn is_released_count(plant: &Plant, r: u32, count: u8) -> Form
    requires { r < length plant.now.routes }
    ensures { tree_of result ≡ conditions.is_released_count r count }
{
    Form::Is(released_count_var(plant, r), count)
}

/// Returns a formula over the image: point number `n` is detected in position `lie`.
pub fn is_point_detected(plant: &Plant, n: u32, lie: Lie) -> Form
    requires { n < point_count plant.now }
    ensures { tree_of result ≡ conditions.is_point_detected plant.now n lie }
{
    Form::Is(detected_var(plant, n), detected_value(lie))
}

/// Returns a formula over the image: point number `n` is commanded to `position`.
pub fn is_point_commanded(plant: &Plant, n: u32, position: Position) -> Form
    requires { n < point_count plant.now }
    ensures { tree_of result ≡ conditions.is_point_commanded plant.now n position }
{
    Form::Is(commanded_var(plant, n), commanded_value(position))
}

/// Returns a formula over the image: board `m` shows `aspect`.
pub fn is_board_aspect(plant: &Plant, m: u32, aspect: Aspect) -> Form
    requires { m < length plant.now.boards }
    ensures { tree_of result ≡ conditions.is_board_aspect plant.now m aspect }
{
    Form::Is(board_var(plant, m), aspect_value(aspect))
}

/// Returns a formula over the image: the lock of section `x` is `hold`.
pub fn lock_is(plant: &Plant, x: u32, hold: Hold) -> Form
    requires { x < length plant.now.sections }
    ensures { tree_of result ≡ conditions.lock_is plant.now x hold }
{
    Form::Is(lock_var(plant, x), lock_value(hold))
}

/// Returns a formula over the image: section `x` has this `occupancy`.
pub fn occupancy_is(plant: &Plant, x: u32, occupancy: Occupancy) -> Form
    requires { x < length plant.now.sections }
    ensures { tree_of result ≡ conditions.occupancy_is plant.now x occupancy }
{
    Form::Is(occupancy_var(plant, x), occupancy_value(occupancy))
}

/// Returns the negation of `form`. Fails only if memory runs out.
pub fn negated(alloc: Global, form: Form) -> Result<Form, AllocError>
    ensures { IfOk result (λ made. tree_of made ≡ negation (tree_of form)) }
{
    Ok(Form::Not(Box::new(alloc, form)?))
}

/// Returns a formula over the image: section `x` is vacant.
pub fn no_train_at(plant: &Plant, x: u32) -> Form
    requires { x < length plant.now.sections }
    ensures { tree_of result ≡ conditions.no_train_at plant.now x }
{
    occupancy_is(plant, x, Occupancy::Vacant)
}

/// Returns a formula over the image: section `x` has a train or a hazard. Fails only if memory runs
/// out.
pub fn train_at(alloc: Global, plant: &Plant, x: u32) -> Result<Form, AllocError>
    requires { x < length plant.now.sections }
    ensures { IfOk result (λ made. tree_of made ≡ conditions.train_at plant.now x) }
{
    negated(alloc, no_train_at(plant, x))
}

/// Returns a formula over the image: the point on section `x` is detected in position `lie`. It
/// never holds if `x` has no point.
pub fn section_point_is_detected(plant: &Plant, x: u32, lie: Lie) -> Form
    ensures { tree_of result ≡ conditions.section_point_is_detected plant.now x lie }
{
    match point_number_at(plant, x) {
        None => Form::No,
        Some(n) => is_point_detected(plant, n, lie),
    }
}

/// Returns a formula over the image: the point of `listed` is detected in the position that a route
/// lists for it.
pub fn is_listed_point_detected(plant: &Plant, listed: &Listed) -> Form
    ensures { tree_of result ≡ conditions.is_listed_point_detected plant.now listed.now }
{
    section_point_is_detected(plant, listed.point, lie_from_position(listed.at))
}

/// Returns a formula over the image: the point on section `x` is commanded to `position`. It never
/// holds if `x` has no point.
pub fn section_point_is_commanded(plant: &Plant, x: u32, position: Position) -> Form
    ensures { tree_of result ≡ conditions.section_point_is_commanded plant.now x position }
{
    match point_number_at(plant, x) {
        None => Form::No,
        Some(n) => is_point_commanded(plant, n, position),
    }
}

/// Returns a formula over the image: the point of `listed` is commanded to the position that a
/// route lists for it.
pub fn is_listed_point_commanded(plant: &Plant, listed: &Listed) -> Form
    ensures { tree_of result ≡ conditions.is_listed_point_commanded plant.now listed.now }
{
    section_point_is_commanded(plant, listed.point, listed.at)
}
