ghost use Rattle.std.specs.Prelude.{◌≡◌, ◌<◌, ◌++◌, [], if◌then◌else◌, flat_map, length, map, IfOk, OnOk};
ghost use Rattle.ilk_ir.specs.Form.{tree_of};
ghost use Rattle.ilk_plant.specs.Network.{contains_section};
ghost use Rattle.ilk_plant.specs.Plant.{IsValidRouteOf};
ghost use Rattle.ilk_invs.specs.PointFamily as definitions;

use crate::held::section_retained_by;
use crate::parts::implication;
use ilk_ir::Form;
use ilk_layout::{is_listed_point_commanded, is_listed_point_detected, mode_is};
use ilk_plant::{Listed, Mode, Plant, Route, contains_section};
use std::alloc::{AllocError, Global};

fn push_set_for(
    alloc: Global,
    forms: &mut Vec<Form>,
    plant: &Plant,
    r: u32,
    route: &Route,
    listed: &Listed,
) -> Result<(), AllocError>
    requires known { r < length plant.now.routes }
    requires route { IsValidRouteOf plant.now route.now }
    ensures { OnOk result
        (map tree_of forms.new.items
        ≡ map tree_of forms.old.items
        ++ definitions.point_matches_route_mode plant.now r route.now listed.now) }
{
    let allocating = mode_is(plant, r, Mode::Allocating);
    forms.push(implication(alloc, allocating, is_listed_point_commanded(plant, listed))?)?;
    let retained = section_retained_by(alloc, plant, r, route, listed.point)?;
    forms.push(implication(alloc, retained, is_listed_point_commanded(plant, listed))?)?;
    let retained = section_retained_by(alloc, plant, r, route, listed.point)?;
    forms.push(implication(alloc, retained, is_listed_point_detected(plant, listed))?)?;
    Ok(())
}

fn push_set_if_on_path(
    alloc: Global,
    forms: &mut Vec<Form>,
    plant: &Plant,
    r: u32,
    route: &Route,
    listed: &Listed,
) -> Result<(), AllocError>
    requires known { r < length plant.now.routes }
    requires route { IsValidRouteOf plant.now route.now }
    ensures { OnOk result
        (map tree_of forms.new.items
        ≡ map tree_of forms.old.items
        ++
        (if contains_section listed.now.point route.now.path
        then definitions.point_matches_route_mode plant.now r route.now listed.now else [])) }
{
    if contains_section(&route.path, listed.point) {
        push_set_for(alloc, forms, plant, r, route, listed)?;
    }
    Ok(())
}

fn push_points_set(
    alloc: Global,
    forms: &mut Vec<Form>,
    plant: &Plant,
    r: u32,
    route: &Route,
) -> Result<(), AllocError>
    requires known { r < length plant.now.routes }
    requires route { IsValidRouteOf plant.now route.now }
    ensures { OnOk result
        (map tree_of forms.new.items
        ≡ map tree_of forms.old.items
        ++ flat_map (definitions.point_matches_route_mode plant.now r route.now)
        (definitions.listed_points_on_path route.now)) }
{
    for listed in route.points.as_slice() {
        push_set_if_on_path(alloc, forms, plant, r, route, listed)?;
    }
    Ok(())
}

/// Returns the form of family V6: the listed points on a path are commanded to their positions if
/// the route is Allocating. If it is Locked or Occupied, those not released are also detected
/// there.
pub(crate) fn v6_points_match_modes_form(alloc: Global, plant: &Plant) -> Result<Form, AllocError>
    ensures { IfOk result (λ form. tree_of form
        ≡ definitions.v6_points_match_modes_tree plant.now) }
{
    let mut forms = Vec::new(alloc);
    for r in 0..plant.routes() {
        push_points_set(alloc, &mut forms, plant, r, plant.route(r))?;
    }
    Ok(Form::And(forms))
}
