ghost use Rattle.std.specs.Prelude.{◌≡◌, ◌<◌, ◌+◌, ◌==◌, ◌++◌, ◌∷◌, [], if◌then◌else◌, length, map, slice_get, IfOk, OnOk};
ghost use Rattle.ilk_ir.specs.Form.{tree_of};
ghost use Rattle.ilk_ir.specs.Tree.{negation};
ghost use Rattle.ilk_plant.specs.Plant.{IsValidRouteOf};
ghost use Rattle.ilk_plant.specs.declared.network.Dir.TheVariants.{Up, Down};
ghost use Rattle.ilk_plant.specs.declared.state.Aspect.TheVariants.{Closed};
ghost use Rattle.ilk_plant.specs.declared.state.Mode.TheVariants.{Occupied};
ghost use Rattle.ilk_layout.specs.declared.values.Occupancy.TheVariants.{Taken};
ghost use Rattle.ilk_model.specs.Holding.{continues_without_board, route_runs_in_direction};
ghost use Rattle.ilk_layout.specs.Conditions as conditions;
ghost use Rattle.ilk_invs.specs.Parts as parts;
ghost use Rattle.ilk_invs.specs.TrainFamilies as definitions;

use crate::held::{is_seen_count_below, route_locked_or_occupied};
use crate::parts::with_one_literal_mark;
use crate::route_families::push_each_section_vacant;
use ilk_ir::Form;
use ilk_layout::{
    Occupancy, is_board_aspect, mode_is, negated, no_train_at, occupancy_is, train_at,
};
use ilk_plant::{Aspect, Dir, Mode, Plant, Route};
use std::alloc::{AllocError, Global};

/// Returns whether section `x` has at least one neighbour in direction `d`, but no board for `d`.
pub(crate) fn continues_without_board(plant: &Plant, d: Dir, x: u32) -> bool
    requires { x < length plant.now.sections }
    ensures { result ≡ continues_without_board plant.now d x }
{
    plant.board_of(x, d).is_none() && plant.neighbour(x, d, 0).is_some()
}

/// Returns whether the source of `route`, and so the route, has direction `d`.
pub(crate) fn route_runs_in_direction(plant: &Plant, d: Dir, route: &Route) -> bool
    requires { IsValidRouteOf plant.now route.now }
    ensures { result ≡ route_runs_in_direction plant.now d route.now }
{
    plant.board(route.source).dir == d
}

fn taken_is(plant: &Plant, x: u32, d: Dir, tail: bool, head: bool) -> Form
    requires { x < length plant.now.sections }
    ensures { tree_of result ≡ conditions.occupancy_is plant.now x (Taken d tail head) }
{
    let taken = Occupancy::Taken { dir: d, tail, head };
    occupancy_is(plant, x, taken)
}

fn head_at(alloc: Global, plant: &Plant, d: Dir, x: u32) -> Result<Form, AllocError>
    requires { x < length plant.now.sections }
    ensures { IfOk result (λ form. tree_of form ≡ definitions.head_at plant.now d x) }
{
    let mut forms = Vec::new(alloc);
    forms.push(taken_is(plant, x, d, false, true))?;
    forms.push(taken_is(plant, x, d, true, true))?;
    Ok(Form::Or(forms))
}

fn vacant_or_up(alloc: Global, plant: &Plant, x: u32) -> Result<Form, AllocError>
    requires { x < length plant.now.sections }
    ensures { IfOk result (λ form. tree_of form ≡ definitions.vacant_or_up plant.now x) }
{
    let mut forms = Vec::new(alloc);
    forms.push(no_train_at(plant, x))?;
    forms.push(taken_is(plant, x, Dir::Up, false, false))?;
    forms.push(taken_is(plant, x, Dir::Up, false, true))?;
    forms.push(taken_is(plant, x, Dir::Up, true, false))?;
    forms.push(taken_is(plant, x, Dir::Up, true, true))?;
    Ok(Form::Or(forms))
}

/// Returns the condition that a train in direction `d` has section `x` in its body.
pub(crate) fn body_at(alloc: Global, plant: &Plant, d: Dir, x: u32) -> Result<Form, AllocError>
    requires { x < length plant.now.sections }
    ensures { IfOk result (λ form. tree_of form ≡ definitions.body_at plant.now d x) }
{
    let either = vacant_or_up(alloc, plant, x)?;
    let mut forms = Vec::new(alloc);
    match d {
        Dir::Up => {
            forms.push(train_at(alloc, plant, x)?)?;
            forms.push(either)?;
        }
        Dir::Down => {
            forms.push(negated(alloc, either)?)?;
            forms.push(negated(alloc, occupancy_is(plant, x, Occupancy::Crash))?)?;
        }
    }
    Ok(Form::And(forms))
}

fn occupied_or_closed(
    alloc: Global,
    plant: &Plant,
    r: u32,
    route: &Route,
) -> Result<Form, AllocError>
    requires known { r < length plant.now.routes }
    requires route { IsValidRouteOf plant.now route.now }
    ensures { IfOk result
        (λ form. tree_of form
        ≡ parts.some_of
        (conditions.mode_is r Occupied
        ∷ conditions.is_board_aspect plant.now route.now.source Closed ∷ [])) }
{
    let mut forms = Vec::new(alloc);
    forms.push(mode_is(plant, r, Mode::Occupied))?;
    forms.push(is_board_aspect(plant, route.source, Aspect::Closed))?;
    Ok(Form::Or(forms))
}

fn occupied_or_locked_source_closed(
    alloc: Global,
    plant: &Plant,
    r: u32,
    route: &Route,
) -> Result<Form, AllocError>
    requires known { r < length plant.now.routes }
    requires route { IsValidRouteOf plant.now route.now }
    ensures { IfOk result (λ form. tree_of form
        ≡ definitions.occupied_or_locked_source_closed plant.now r
        route.now) }
{
    let mut forms = Vec::new(alloc);
    forms.push(route_locked_or_occupied(alloc, plant, r)?)?;
    forms.push(occupied_or_closed(alloc, plant, r, route)?)?;
    with_one_literal_mark(alloc, Form::And(forms))
}

fn push_none_seen_past(
    alloc: Global,
    forms: &mut Vec<Form>,
    plant: &Plant,
    r: u32,
    route: &Route,
    i: usize,
) -> Result<(), AllocError>
    requires known { r < length plant.now.routes }
    requires route { IsValidRouteOf plant.now route.now }
    requires place { i < length route.now.path }
    ensures { OnOk result
        (map tree_of forms.new.items
        ≡ map tree_of forms.old.items ++ definitions.no_section_seen_past r route.now i) }
{
    if i + 1 < route.path.as_slice().len() {
        forms.push(is_seen_count_below(alloc, plant, r, i as u8 + 2)?)?;
    }
    Ok(())
}

fn leads_from(
    alloc: Global,
    plant: &Plant,
    r: u32,
    route: &Route,
    i: usize,
) -> Result<Form, AllocError>
    requires known { r < length plant.now.routes }
    requires route { IsValidRouteOf plant.now route.now }
    requires place { i < length route.now.path }
    ensures { IfOk result (λ form. tree_of form
        ≡ definitions.route_set_and_clear_past plant.now r route.now i) }
{
    let mut forms = Vec::new(alloc);
    forms.push(occupied_or_locked_source_closed(alloc, plant, r, route)?)?;
    push_none_seen_past(alloc, &mut forms, plant, r, route, i)?;
    push_each_section_vacant(&mut forms, plant, &route.path.as_slice()[i + 1..])?;
    Ok(Form::And(forms))
}

fn push_leads_if(
    alloc: Global,
    forms: &mut Vec<Form>,
    plant: &Plant,
    r: u32,
    route: &Route,
    i: usize,
    is_asked: bool,
) -> Result<(), AllocError>
    requires known { r < length plant.now.routes }
    requires route { IsValidRouteOf plant.now route.now }
    requires place { i < length route.now.path }
    ensures { OnOk result
        (map tree_of forms.new.items
        ≡ map tree_of forms.old.items
        ++ (if is_asked then definitions.route_set_and_clear_past plant.now r route.now i ∷ []
        else [])) }
{
    if is_asked {
        forms.push(leads_from(alloc, plant, r, route, i)?)?;
    }
    Ok(())
}

fn push_leads_on_path(
    alloc: Global,
    forms: &mut Vec<Form>,
    plant: &Plant,
    x: u32,
    r: u32,
    route: &Route,
) -> Result<(), AllocError>
    requires known { r < length plant.now.routes }
    requires route { IsValidRouteOf plant.now route.now }
    ensures { OnOk result
        (map tree_of forms.new.items
        ≡ map tree_of forms.old.items
        ++ parts.conditions_of_each_path_index route.now
        (λ i y. if y == x then definitions.route_set_and_clear_past plant.now r route.now i ∷ []
        else [])) }
{
    let path = route.path.as_slice();
    for i in 0..path.len() {
        push_leads_if(alloc, forms, plant, r, route, i, path[i] == x)?;
    }
    Ok(())
}

fn push_leads_at(
    alloc: Global,
    forms: &mut Vec<Form>,
    plant: &Plant,
    d: Dir,
    x: u32,
    r: u32,
) -> Result<(), AllocError>
    requires { r < length plant.now.routes }
    ensures { OnOk result
        (map tree_of forms.new.items
        ≡ map tree_of forms.old.items
        ++ parts.conditions_for_optional_value (slice_get plant.now.routes r)
        (definitions.route_set_for_head_at plant.now d x r)) }
{
    let route = plant.route(r);
    if route_runs_in_direction(plant, d, route) {
        push_leads_on_path(alloc, forms, plant, x, r, route)?;
    }
    Ok(())
}

fn is_led(alloc: Global, plant: &Plant, d: Dir, x: u32) -> Result<Form, AllocError>
    requires { x < length plant.now.sections }
    ensures { IfOk result
        (λ form. tree_of form
        ≡ parts.some_of
        (negation (definitions.head_at plant.now d x)
        ∷ parts.conditions_of_each_route plant.now (definitions.route_set_for_head_at plant.now d
        x))) }
{
    let head = head_at(alloc, plant, d, x)?;
    let mut forms = Vec::new(alloc);
    forms.push(negated(alloc, head)?)?;
    for r in 0..plant.routes() {
        push_leads_at(alloc, &mut forms, plant, d, x, r)?;
    }
    Ok(Form::Or(forms))
}

fn push_led_at(
    alloc: Global,
    forms: &mut Vec<Form>,
    plant: &Plant,
    d: Dir,
    x: u32,
) -> Result<(), AllocError>
    requires { x < length plant.now.sections }
    ensures { OnOk result
        (map tree_of forms.new.items
        ≡ map tree_of forms.old.items ++ definitions.head_has_route_set_at plant.now d x) }
{
    if continues_without_board(plant, d, x) {
        forms.push(is_led(alloc, plant, d, x)?)?;
    }
    Ok(())
}

fn push_led(alloc: Global, forms: &mut Vec<Form>, plant: &Plant, x: u32) -> Result<(), AllocError>
    requires { x < length plant.now.sections }
    ensures { OnOk result
        (map tree_of forms.new.items
        ≡ map tree_of forms.old.items
        ++ (definitions.head_has_route_set_at plant.now Up x
        ++ definitions.head_has_route_set_at plant.now Down x)) }
{
    push_led_at(alloc, forms, plant, Dir::Up, x)?;
    push_led_at(alloc, forms, plant, Dir::Down, x)
}

/// Returns the form of family V7: if a train's head is at a section with a neighbour ahead but no
/// board, some route is set for the train. The route's path ahead is vacant and not seen.
pub(crate) fn v7_heads_have_routes_form(alloc: Global, plant: &Plant) -> Result<Form, AllocError>
    ensures { IfOk result (λ form. tree_of form ≡ definitions.v7_heads_have_routes_tree plant.now) }
{
    let mut forms = Vec::new(alloc);
    for x in 0..plant.sections() {
        push_led(alloc, &mut forms, plant, x)?;
    }
    Ok(Form::And(forms))
}
