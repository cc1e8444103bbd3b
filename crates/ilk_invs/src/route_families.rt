ghost use Rattle.std.specs.Prelude.{◌≡◌, ◌<◌, ◌+◌, ◌==◌, ◌++◌, ◌∷◌, [], All, if◌then◌else◌, length, map, slice_get, IfOk, OnOk};
ghost use Rattle.std.specs.List.{range_with_len};
ghost use Rattle.ilk_ir.specs.Form.{tree_of};
ghost use Rattle.ilk_ir.specs.Tree.{negation};
ghost use Rattle.ilk_plant.specs.Plant.{IsValidRouteOf};
ghost use Rattle.ilk_plant.specs.declared.state.Aspect.TheVariants.{Closed};
ghost use Rattle.ilk_plant.specs.declared.state.Mode.TheVariants.{Allocating, Locked, Occupied};
ghost use Rattle.ilk_layout.specs.Conditions as conditions;
ghost use Rattle.ilk_invs.specs.Held as held;
ghost use Rattle.ilk_invs.specs.Parts as parts;
ghost use Rattle.ilk_invs.specs.RouteFamilies as definitions;

use crate::held::is_released_count_below;
use crate::parts::implication;
use ilk_ir::Form;
use ilk_layout::{
    is_board_aspect, is_released_count, is_seen_count, mode_is, negated, no_train_at,
};
use ilk_plant::{Aspect, Mode, Plant, Route};
use std::alloc::{AllocError, Global};

fn fewer_released(alloc: Global, plant: &Plant, r: u32, k: u8) -> Result<Form, AllocError>
    requires { r < length plant.now.routes }
    ensures { IfOk result
        (λ form. tree_of form
        ≡ parts.some_of
        (negation (conditions.mode_is r Occupied) ∷ negation (conditions.is_seen_count r k)
        ∷ held.is_released_count_below r k ∷ [])) }
{
    let mut forms = Vec::new(alloc);
    forms.push(negated(alloc, mode_is(plant, r, Mode::Occupied))?)?;
    forms.push(negated(alloc, is_seen_count(plant, r, k))?)?;
    forms.push(is_released_count_below(alloc, plant, r, k)?)?;
    Ok(Form::Or(forms))
}

fn push_fewer_released(
    alloc: Global,
    forms: &mut Vec<Form>,
    plant: &Plant,
    r: u32,
    n: u8,
) -> Result<(), AllocError>
    requires { r < length plant.now.routes }
    ensures { OnOk result
        (map tree_of forms.new.items
        ≡ map tree_of forms.old.items
        ++ map
        (λ k. parts.some_of
        (negation (conditions.mode_is r Occupied)
        ∷ negation (conditions.is_seen_count r k) ∷ held.is_released_count_below r k ∷ []))
        (range_with_len 0 n)) }
{
    for k in 0..n {
        forms.push(fewer_released(alloc, plant, r, k)?)?;
    }
    Ok(())
}

fn occupied_or(alloc: Global, plant: &Plant, r: u32, other: Form) -> Result<Form, AllocError>
    requires { r < length plant.now.routes }
    ensures { IfOk result
        (λ form. tree_of form
        ≡ parts.some_of (conditions.mode_is r Occupied ∷ tree_of other ∷ [])) }
{
    let mut forms = Vec::new(alloc);
    forms.push(mode_is(plant, r, Mode::Occupied))?;
    forms.push(other)?;
    Ok(Form::Or(forms))
}

fn counts_of(alloc: Global, plant: &Plant, r: u32, route: &Route) -> Result<Form, AllocError>
    requires known { r < length plant.now.routes }
    requires route { IsValidRouteOf plant.now route.now }
    ensures { IfOk result (λ form. tree_of form ≡ definitions.counts_are_consistent r route.now) }
{
    let mut forms = Vec::new(alloc);
    forms.push(occupied_or(alloc, plant, r, is_seen_count(plant, r, 0))?)?;
    forms.push(occupied_or(alloc, plant, r, is_released_count(plant, r, 0))?)?;
    push_fewer_released(alloc, &mut forms, plant, r, route.path.len() as u8 + 1)?;
    Ok(Form::And(forms))
}

/// Returns the form of family V1: an Occupied route has released fewer sections than it has seen,
/// and has seen at most its path. Any other route has both counts 0.
pub(crate) fn v1_consistent_counts_form(alloc: Global, plant: &Plant) -> Result<Form, AllocError>
    ensures { IfOk result (λ form. tree_of form ≡ definitions.v1_consistent_counts_tree plant.now) }
{
    let mut forms = Vec::new(alloc);
    for r in 0..plant.routes() {
        forms.push(counts_of(alloc, plant, r, plant.route(r))?)?;
    }
    Ok(Form::And(forms))
}

/// Adds to `forms`, for each of `sections`, the condition that it is vacant.
pub(crate) fn push_each_section_vacant(
    forms: &mut Vec<Form>,
    plant: &Plant,
    sections: &[u32],
) -> Result<(), AllocError>
    requires { All (λ x. x < length plant.now.sections) sections.now }
    ensures { OnOk result
        (map tree_of forms.new.items
        ≡ map tree_of forms.old.items ++ map (conditions.no_train_at plant.now) sections.now) }
{
    for x in sections {
        forms.push(no_train_at(plant, *x))?;
    }
    Ok(())
}

fn vacant_while_allocating(
    alloc: Global,
    plant: &Plant,
    r: u32,
    route: &Route,
) -> Result<Form, AllocError>
    requires known { r < length plant.now.routes }
    requires route { IsValidRouteOf plant.now route.now }
    ensures { IfOk result
        (λ form. tree_of form
        ≡ parts.implication (conditions.mode_is r Allocating)
        (parts.each_of (definitions.path_vacant plant.now route.now))) }
{
    let mut forms = Vec::new(alloc);
    push_each_section_vacant(&mut forms, plant, route.path.as_slice())?;
    implication(alloc, mode_is(plant, r, Mode::Allocating), Form::And(forms))
}

/// Returns the form of family V4: every path section of an Allocating route is vacant.
pub(crate) fn v4_allocating_paths_vacant_form(
    alloc: Global,
    plant: &Plant,
) -> Result<Form, AllocError>
    ensures { IfOk result (λ form. tree_of form ≡
        definitions.v4_allocating_paths_vacant_tree plant.now) }
{
    let mut forms = Vec::new(alloc);
    for r in 0..plant.routes() {
        forms.push(vacant_while_allocating(alloc, plant, r, plant.route(r))?)?;
    }
    Ok(Form::And(forms))
}

fn is_ready(alloc: Global, plant: &Plant, r: u32, route: &Route) -> Result<Form, AllocError>
    requires known { r < length plant.now.routes }
    requires route { IsValidRouteOf plant.now route.now }
    ensures { IfOk result
        (λ form. tree_of form
        ≡ parts.each_of
        (conditions.mode_is r Locked ∷ definitions.path_vacant plant.now route.now)) }
{
    let mut forms = Vec::new(alloc);
    forms.push(mode_is(plant, r, Mode::Locked))?;
    push_each_section_vacant(&mut forms, plant, route.path.as_slice())?;
    Ok(Form::And(forms))
}

fn push_ready_from(
    alloc: Global,
    forms: &mut Vec<Form>,
    plant: &Plant,
    m: u32,
    r: u32,
) -> Result<(), AllocError>
    requires { r < length plant.now.routes }
    ensures { OnOk result
        (map tree_of forms.new.items
        ≡ map tree_of forms.old.items
        ++ parts.conditions_for_optional_value (slice_get plant.now.routes r)
        (λ route. if route.source == m
        then parts.each_of
        (conditions.mode_is r Locked
        ∷ definitions.path_vacant plant.now route) ∷ [] else [])) }
{
    let route = plant.route(r);
    if route.source == m {
        forms.push(is_ready(alloc, plant, r, route)?)?;
    }
    Ok(())
}

fn opened_for(alloc: Global, plant: &Plant, m: u32) -> Result<Form, AllocError>
    requires { m < length plant.now.boards }
    ensures { IfOk result (λ form. tree_of form ≡ definitions.open_only_for_route plant.now m) }
{
    let mut forms = Vec::new(alloc);
    forms.push(negated(alloc, is_board_aspect(plant, m, Aspect::Open))?)?;
    for r in 0..plant.routes() {
        push_ready_from(alloc, &mut forms, plant, m, r)?;
    }
    Ok(Form::Or(forms))
}

/// Returns the form of family V5: each Open board is the source of a Locked route with a vacant
/// path.
pub(crate) fn v5_open_needs_locked_form(alloc: Global, plant: &Plant) -> Result<Form, AllocError>
    ensures { IfOk result (λ form. tree_of form ≡ definitions.v5_open_needs_locked_tree plant.now) }
{
    let mut forms = Vec::new(alloc);
    for m in 0..plant.boards() {
        forms.push(opened_for(alloc, plant, m)?)?;
    }
    Ok(Form::And(forms))
}

fn push_closed_while_locked(
    alloc: Global,
    forms: &mut Vec<Form>,
    plant: &Plant,
    r: u32,
    boards: &[u32],
) -> Result<(), AllocError>
    requires known { r < length plant.now.routes }
    requires boards { All (λ m. m < length plant.now.boards) boards.now }
    ensures { OnOk result
        (map tree_of forms.new.items
        ≡ map tree_of forms.old.items
        ++ map
        (λ m. parts.implication (conditions.mode_is r Locked)
        (conditions.is_board_aspect plant.now m Closed)) boards.now) }
{
    for m in boards {
        let locked = mode_is(plant, r, Mode::Locked);
        forms.push(implication(alloc, locked, is_board_aspect(plant, *m, Aspect::Closed))?)?;
    }
    Ok(())
}

/// Returns the form of family V9: each protecting board of a Locked route is Closed.
pub(crate) fn v9_protecting_boards_closed_form(
    alloc: Global,
    plant: &Plant,
) -> Result<Form, AllocError>
    ensures { IfOk result (λ form. tree_of form ≡
        definitions.v9_protecting_boards_closed_tree plant.now) }
{
    let mut forms = Vec::new(alloc);
    for r in 0..plant.routes() {
        let boards = plant.route(r).protecting_boards.as_slice();
        push_closed_while_locked(alloc, &mut forms, plant, r, boards)?;
    }
    Ok(Form::And(forms))
}
