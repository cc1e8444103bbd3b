ghost use Rattle.std.specs.Prelude.{◌≡◌, ◌<◌, ◌+◌, ◌==◌, ◌++◌, ◌∷◌, [], length, map, if◌then◌else◌, IfOk, OnOk};
ghost use Rattle.std.specs.List.{list_any};
ghost use Rattle.ilk_ir.specs.Form.{tree_of};
ghost use Rattle.ilk_plant.specs.Network.{contains_section};
ghost use Rattle.ilk_plant.specs.Plant.{IsValidRouteOf};
ghost use Rattle.ilk_plant.specs.declared.limits.TheConstants.{MAX_PATH};
ghost use Rattle.ilk_routes.specs.Claims.{sections_outside_path};
ghost use Rattle.ilk_layout.specs.Conditions as conditions;
ghost use Rattle.ilk_invs.specs.Held as definitions;

use crate::parts::with_one_literal_mark;
use ilk_base::has_number;
use ilk_ir::Form;
use ilk_layout::{is_released_count, is_seen_count, mode_is, negated};
use ilk_plant::{Listed, Mode, Plant, Route, Row, contains_section};
use std::alloc::{AllocError, Global};

/// Returns the condition that fewer than `k` path sections of route `r` are seen.
pub(crate) fn is_seen_count_below(
    alloc: Global,
    plant: &Plant,
    r: u32,
    k: u8,
) -> Result<Form, AllocError>
    requires { r < length plant.now.routes }
    ensures { IfOk result (λ form. tree_of form ≡ definitions.is_seen_count_below r k) }
{
    let mut forms = Vec::new(alloc);
    for count in 0..k {
        forms.push(is_seen_count(plant, r, count))?;
    }
    Ok(Form::Or(forms))
}

/// Returns the condition that fewer than `k` path sections of route `r` are released.
pub(crate) fn is_released_count_below(
    alloc: Global,
    plant: &Plant,
    r: u32,
    k: u8,
) -> Result<Form, AllocError>
    requires { r < length plant.now.routes }
    ensures { IfOk result (λ form. tree_of form ≡ definitions.is_released_count_below r k) }
{
    let mut forms = Vec::new(alloc);
    for count in 0..k {
        forms.push(is_released_count(plant, r, count))?;
    }
    Ok(Form::Or(forms))
}

/// Returns the condition that route `r` is Locked or Occupied.
pub(crate) fn route_locked_or_occupied(
    alloc: Global,
    plant: &Plant,
    r: u32,
) -> Result<Form, AllocError>
    requires { r < length plant.now.routes }
    ensures { IfOk result (λ form. tree_of form ≡ definitions.route_locked_or_occupied r) }
{
    let mut forms = Vec::new(alloc);
    forms.push(mode_is(plant, r, Mode::Free))?;
    forms.push(mode_is(plant, r, Mode::Marked))?;
    forms.push(mode_is(plant, r, Mode::Allocating))?;
    negated(alloc, Form::Or(forms))
}

/// Returns the condition that route `r` holds sections: it is neither Free nor Marked.
pub(crate) fn mode_holds_sections(alloc: Global, plant: &Plant, r: u32) -> Result<Form, AllocError>
    requires { r < length plant.now.routes }
    ensures { IfOk result (λ form. tree_of form ≡ definitions.mode_holds_sections r) }
{
    let mut forms = Vec::new(alloc);
    forms.push(mode_is(plant, r, Mode::Free))?;
    forms.push(mode_is(plant, r, Mode::Marked))?;
    negated(alloc, Form::Or(forms))
}

fn push_if_kept(
    forms: &mut Vec<Form>,
    plant: &Plant,
    r: u32,
    count: u8,
    is_kept: bool,
) -> Result<(), AllocError>
    requires { r < length plant.now.routes }
    ensures { OnOk result
        (map tree_of forms.new.items
        ≡ map tree_of forms.old.items
        ++ (if is_kept then conditions.is_released_count r count ∷ [] else [])) }
{
    if is_kept {
        forms.push(is_released_count(plant, r, count))?;
    }
    Ok(())
}

/// Returns the condition that section `x` is on the path of `route`, which is number `r`, and not
/// released.
pub(crate) fn section_on_unreleased_path(
    alloc: Global,
    plant: &Plant,
    r: u32,
    route: &Route,
    x: u32,
) -> Result<Form, AllocError>
    requires known { r < length plant.now.routes }
    requires route { IsValidRouteOf plant.now route.now }
    ensures { IfOk result (λ form. tree_of form ≡
        definitions.section_on_unreleased_path r route.now x) }
{
    let path = route.path.as_slice();
    let mut forms = Vec::new(alloc);
    for count in 0..path.len() + 1 {
        push_if_kept(
            &mut forms,
            plant,
            r,
            count as u8,
            has_number(&path[count..], x),
        )?;
    }
    Ok(Form::Or(forms))
}

fn has_point(points: &Row<Listed>, x: u32) -> bool
    ensures { result ≡ list_any (λ listed. listed.point == x) points.now }
{
    points.as_slice().iter().any(|listed| listed.point == x)
}

/// Returns whether section `x` is in the overlap of `route` or has one of its protecting points.
#[tactic(auto, using(crate::proofs::Sections::beside_route))]
pub(crate) fn is_in_overlap_or_protecting(route: &Route, x: u32) -> bool
    ensures { result ≡ contains_section x (sections_outside_path route.now) }
{
    contains_section(&route.overlap, x) || has_point(&route.protecting_points, x)
}

/// Returns the condition that `route`, which is number `r`, holds section `x`.
pub(crate) fn section_held_by(
    alloc: Global,
    plant: &Plant,
    r: u32,
    route: &Route,
    x: u32,
) -> Result<Form, AllocError>
    requires known { r < length plant.now.routes }
    requires route { IsValidRouteOf plant.now route.now }
    ensures { IfOk result (λ form. tree_of form ≡ definitions.section_held_by r route.now x) }
{
    let holding = mode_holds_sections(alloc, plant, r)?;
    if is_in_overlap_or_protecting(route, x) {
        return Ok(holding);
    }
    let mut forms = Vec::new(alloc);
    forms.push(holding)?;
    forms.push(section_on_unreleased_path(alloc, plant, r, route, x)?)?;
    with_one_literal_mark(alloc, Form::And(forms))
}

/// Returns the condition that route `r` holds section `i` of its path.
pub(crate) fn path_section_held(
    alloc: Global,
    plant: &Plant,
    r: u32,
    i: u8,
) -> Result<Form, AllocError>
    requires known { r < length plant.now.routes }
    requires place { i < MAX_PATH }
    ensures { IfOk result (λ form. tree_of form ≡ definitions.path_section_held r i) }
{
    let mut forms = Vec::new(alloc);
    forms.push(mode_holds_sections(alloc, plant, r)?)?;
    forms.push(is_released_count_below(alloc, plant, r, i + 1)?)?;
    with_one_literal_mark(alloc, Form::And(forms))
}

/// Returns the condition that `route`, which is number `r`, is Locked or Occupied, and section `x`
/// is on its path and not released.
pub(crate) fn section_retained_by(
    alloc: Global,
    plant: &Plant,
    r: u32,
    route: &Route,
    x: u32,
) -> Result<Form, AllocError>
    requires known { r < length plant.now.routes }
    requires route { IsValidRouteOf plant.now route.now }
    ensures { IfOk result (λ form. tree_of form ≡ definitions.section_retained_by r route.now x) }
{
    let mut forms = Vec::new(alloc);
    forms.push(route_locked_or_occupied(alloc, plant, r)?)?;
    forms.push(section_on_unreleased_path(alloc, plant, r, route, x)?)?;
    with_one_literal_mark(alloc, Form::And(forms))
}
