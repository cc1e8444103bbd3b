ghost use Rattle.std.specs.Prelude.{◌≡◌, ◌<◌, ◌++◌, length, map, flat_map, All, IfOk, OnOk};
ghost use Rattle.ilk_ir.specs.Form.{tree_of};
ghost use Rattle.ilk_ir.specs.Tree.{negation};
ghost use Rattle.ilk_layout.specs.Conditions as conditions;
ghost use Rattle.ilk_behave.specs.Guards as guards;

use ilk_ir::Form;
use ilk_layout::{
    is_board_aspect, is_listed_point_detected, lock_is, mode_is, negated, no_train_at,
    section_point_is_detected,
};
use ilk_plant::{Aspect, Dir, Hold, Lie, Listed, Mode, Plant, Position, Row, Section};
use ilk_routes::lie_from_position;
use std::alloc::{AllocError, Global};

fn leg_position(plus: u32, y: u32) -> Position
    ensures { result ≡ guards.leg_position plus y }
{
    if plus == y {
        Position::Plus
    } else {
        Position::Minus
    }
}

/// Adds to `forms` the condition that, if section `x` is a point that faces `d`, it is detected in
/// the position of its leg `y`.
pub(crate) fn push_leg_set_if_facing(
    forms: &mut Vec<Form>,
    plant: &Plant,
    x: u32,
    d: Dir,
    y: u32,
) -> Result<(), AllocError>
    requires { x < length plant.now.sections }
    ensures { OnOk result
        (map tree_of forms.new.items
        ≡ map tree_of forms.old.items ++ guards.leg_set_if_facing plant.now x d y) }
{
    if let Section::Point { plus, faces, .. } = *plant.section(x) {
        if faces == d {
            forms.push(section_point_is_detected(
                plant,
                x,
                lie_from_position(leg_position(plus, y)),
            ))?;
        }
    }
    Ok(())
}

fn not_wrong_on_point(
    alloc: Global,
    plant: &Plant,
    x: u32,
    d: Dir,
    y: u32,
    plus: u32,
    faces: Dir,
) -> Result<Form, AllocError>
    ensures { IfOk result
        (λ made. tree_of made ≡ guards.not_wrong_on_point plant.now x d y plus faces) }
{
    if faces == d {
        negated(alloc, section_point_is_detected(plant, y, Lie::Moving))
    } else {
        Ok(section_point_is_detected(plant, y, lie_from_position(leg_position(plus, x))))
    }
}

/// Adds to `forms` the condition that a train from `x` in direction `d` would cause no derailment
/// risk on `y`. If `y` is a point that faces `d`, it is not moving; any other point is in the
/// position of its leg `x`.
pub(crate) fn push_not_wrong_from(
    alloc: Global,
    forms: &mut Vec<Form>,
    plant: &Plant,
    x: u32,
    d: Dir,
    y: u32,
) -> Result<(), AllocError>
    requires { y < length plant.now.sections }
    ensures { OnOk result
        (map tree_of forms.new.items
        ≡ map tree_of forms.old.items ++ guards.not_wrong_from plant.now x d y) }
{
    if let Section::Point { plus, faces, .. } = *plant.section(y) {
        forms.push(not_wrong_on_point(alloc, plant, x, d, y, plus, faces)?)?;
    }
    Ok(())
}

/// Adds to `forms`, if `y` is a point, the condition that a train from `x` in direction `d` would
/// cause a derailment risk on it.
pub(crate) fn push_is_wrong_from(
    alloc: Global,
    forms: &mut Vec<Form>,
    plant: &Plant,
    x: u32,
    d: Dir,
    y: u32,
) -> Result<(), AllocError>
    requires { y < length plant.now.sections }
    ensures { OnOk result
        (map tree_of forms.new.items
        ≡ map tree_of forms.old.items ++ map negation (guards.not_wrong_from plant.now x d y)) }
{
    if let Section::Point { plus, faces, .. } = *plant.section(y) {
        let right = not_wrong_on_point(alloc, plant, x, d, y, plus, faces)?;
        forms.push(negated(alloc, right)?)?;
    }
    Ok(())
}

/// Adds to `forms` the condition that the board of section `x` for direction `d` is Open. Adds
/// nothing if there is no such board.
pub(crate) fn push_board_open_if_any(
    forms: &mut Vec<Form>,
    plant: &Plant,
    x: u32,
    d: Dir,
) -> Result<(), AllocError>
    requires { x < length plant.now.sections }
    ensures { OnOk result
        (map tree_of forms.new.items
        ≡ map tree_of forms.old.items ++ guards.board_open_if_any plant.now x d) }
{
    if let Some(m) = plant.board_of(x, d) {
        forms.push(is_board_aspect(plant, m, Aspect::Open))?;
    }
    Ok(())
}

/// Adds to `forms` the conditions that no route of `routes` is Allocating or Locked.
pub(crate) fn push_none_alloc_or_locked(
    alloc: Global,
    forms: &mut Vec<Form>,
    plant: &Plant,
    routes: &Row<u32>,
) -> Result<(), AllocError>
    requires { All (λ r. r < length plant.now.routes) routes.now }
    ensures { OnOk result
        (map tree_of forms.new.items
        ≡ map tree_of forms.old.items ++ flat_map guards.neither_allocating_nor_locked routes.now) }
{
    for r in routes.as_slice() {
        forms.push(negated(alloc, mode_is(plant, *r, Mode::Allocating))?)?;
        forms.push(negated(alloc, mode_is(plant, *r, Mode::Locked))?)?;
    }
    Ok(())
}

fn push_clear_at(forms: &mut Vec<Form>, plant: &Plant, x: u32) -> Result<(), AllocError>
    requires { x < length plant.now.sections }
    ensures { OnOk result
        (map tree_of forms.new.items
        ≡ map tree_of forms.old.items ++ guards.free_and_vacant_at plant.now x) }
{
    forms.push(lock_is(plant, x, Hold::Free))?;
    forms.push(no_train_at(plant, x))?;
    Ok(())
}

/// Adds to `forms` the conditions that each section has lock Free and is vacant.
pub(crate) fn push_free_and_vacant(
    forms: &mut Vec<Form>,
    plant: &Plant,
    sections: &Row<u32>,
) -> Result<(), AllocError>
    requires { All (λ x. x < length plant.now.sections) sections.now }
    ensures { OnOk result
        (map tree_of forms.new.items
        ≡ map tree_of forms.old.items
        ++ flat_map (guards.free_and_vacant_at plant.now) sections.now) }
{
    for x in sections.as_slice() {
        push_clear_at(forms, plant, *x)?;
    }
    Ok(())
}

/// Adds to `forms` the conditions that the section of each point has lock Free and is vacant.
pub(crate) fn push_points_free_vacant(
    forms: &mut Vec<Form>,
    plant: &Plant,
    points: &Row<Listed>,
) -> Result<(), AllocError>
    requires { All (λ listed. listed.point < length plant.now.sections) points.now }
    ensures { OnOk result
        (map tree_of forms.new.items
        ≡ map tree_of forms.old.items
        ++ flat_map (guards.free_and_vacant_at plant.now)
        (map (λ listed. listed.point) points.now)) }
{
    for listed in points.as_slice() {
        push_clear_at(forms, plant, listed.point)?;
    }
    Ok(())
}

/// Adds to `forms` the conditions that each point is detected in its listed position.
pub(crate) fn push_detected_as_listed(
    forms: &mut Vec<Form>,
    plant: &Plant,
    points: &Row<Listed>,
) -> Result<(), AllocError>
    ensures { OnOk result
        (map tree_of forms.new.items
        ≡ map tree_of forms.old.items ++
        map (conditions.is_listed_point_detected plant.now) points.now) }
{
    for listed in points.as_slice() {
        forms.push(is_listed_point_detected(plant, listed))?;
    }
    Ok(())
}
