ghost use Rattle.std.specs.Prelude.{◌≡◌, ◌<◌, ◌+◌, ◌++◌, ◌∷◌, [], All, length, map, IfOk, OnOk};
ghost use Rattle.ilk_ir.specs.Form.{tree_of};
ghost use Rattle.ilk_ir.specs.Tree.{negation};
ghost use Rattle.ilk_plant.specs.Plant.{IsValidRouteOf};
ghost use Rattle.ilk_plant.specs.declared.limits.TheConstants.{MAX_PATH};
ghost use Rattle.ilk_plant.specs.declared.state.Hold.TheVariants.{Locked as LockedLock, Used as UsedLock};
ghost use Rattle.ilk_layout.specs.Conditions as conditions;
ghost use Rattle.ilk_invs.specs.Held as held;
ghost use Rattle.ilk_invs.specs.Parts as parts;
ghost use Rattle.ilk_invs.specs.HoldFamilies as definitions;

use crate::held::{is_seen_count_below, mode_holds_sections, path_section_held};
use crate::parts::implication;
use ilk_ir::Form;
use ilk_layout::{lock_is, negated};
use ilk_plant::{Hold, Listed, Plant, Route};
use std::alloc::{AllocError, Global};

fn locked_ahead(alloc: Global, plant: &Plant, r: u32, i: u8, x: u32) -> Result<Form, AllocError>
    requires known { r < length plant.now.routes }
    requires section { x < length plant.now.sections }
    requires place { i < MAX_PATH }
    ensures { IfOk result
        (λ form. tree_of form
        ≡ parts.some_of
        (negation (held.path_section_held r i) ∷ negation (held.is_seen_count_below r (i + 1))
        ∷ conditions.lock_is plant.now x LockedLock ∷ [])) }
{
    let mut forms = Vec::new(alloc);
    forms.push(negated(alloc, path_section_held(alloc, plant, r, i)?)?)?;
    forms.push(negated(alloc, is_seen_count_below(alloc, plant, r, i + 1)?)?)?;
    forms.push(lock_is(plant, x, Hold::Locked))?;
    Ok(Form::Or(forms))
}

fn used_behind(alloc: Global, plant: &Plant, r: u32, i: u8, x: u32) -> Result<Form, AllocError>
    requires known { r < length plant.now.routes }
    requires section { x < length plant.now.sections }
    requires place { i < MAX_PATH }
    ensures { IfOk result
        (λ form. tree_of form
        ≡ parts.some_of
        (negation (held.path_section_held r i) ∷ held.is_seen_count_below r (i + 1)
        ∷ conditions.lock_is plant.now x UsedLock ∷ [])) }
{
    let mut forms = Vec::new(alloc);
    forms.push(negated(alloc, path_section_held(alloc, plant, r, i)?)?)?;
    forms.push(is_seen_count_below(alloc, plant, r, i + 1)?)?;
    forms.push(lock_is(plant, x, Hold::Used))?;
    Ok(Form::Or(forms))
}

fn push_locks_on_path(
    alloc: Global,
    forms: &mut Vec<Form>,
    plant: &Plant,
    r: u32,
    route: &Route,
) -> Result<(), AllocError>
    requires known { r < length plant.now.routes }
    requires route { IsValidRouteOf plant.now route.now }
    ensures { OnOk result
        (map tree_of forms.new.items
        ≡ map tree_of forms.old.items
        ++ parts.conditions_of_each_path_index route.now (definitions.path_lock_matches_seen
        plant.now r)) }
{
    let path = route.path.as_slice();
    for i in 0..path.len() {
        forms.push(locked_ahead(alloc, plant, r, i as u8, path[i])?)?;
        forms.push(used_behind(alloc, plant, r, i as u8, path[i])?)?;
    }
    Ok(())
}

fn locked_if_holding(alloc: Global, plant: &Plant, r: u32, x: u32) -> Result<Form, AllocError>
    requires known { r < length plant.now.routes }
    requires section { x < length plant.now.sections }
    ensures { IfOk result
        (λ form. tree_of form
        ≡ parts.implication (held.mode_holds_sections r) (conditions.lock_is plant.now x
        LockedLock)) }
{
    let holding = mode_holds_sections(alloc, plant, r)?;
    implication(alloc, holding, lock_is(plant, x, Hold::Locked))
}

fn push_locked(
    alloc: Global,
    forms: &mut Vec<Form>,
    plant: &Plant,
    r: u32,
    sections: &[u32],
) -> Result<(), AllocError>
    requires known { r < length plant.now.routes }
    requires sections { All (λ x. x < length plant.now.sections) sections.now }
    ensures { OnOk result
        (map tree_of forms.new.items
        ≡ map tree_of forms.old.items
        ++ map
        (λ x. parts.implication (held.mode_holds_sections r) (conditions.lock_is plant.now x
        LockedLock)) sections.now) }
{
    for x in sections {
        forms.push(locked_if_holding(alloc, plant, r, *x)?)?;
    }
    Ok(())
}

fn push_points_locked(
    alloc: Global,
    forms: &mut Vec<Form>,
    plant: &Plant,
    r: u32,
    points: &[Listed],
) -> Result<(), AllocError>
    requires known { r < length plant.now.routes }
    requires points { All (λ listed. listed.point < length plant.now.sections) points.now }
    ensures { OnOk result
        (map tree_of forms.new.items
        ≡ map tree_of forms.old.items
        ++ map
        (λ x. parts.implication (held.mode_holds_sections r) (conditions.lock_is plant.now x
        LockedLock)) (map (λ listed. listed.point) points.now)) }
{
    for listed in points {
        forms.push(locked_if_holding(alloc, plant, r, listed.point)?)?;
    }
    Ok(())
}

fn push_locks_for(
    alloc: Global,
    forms: &mut Vec<Form>,
    plant: &Plant,
    r: u32,
    route: &Route,
) -> Result<(), AllocError>
    requires known { r < length plant.now.routes }
    requires route { IsValidRouteOf plant.now route.now }
    ensures { OnOk result
        (map tree_of forms.new.items
        ≡ map tree_of forms.old.items
        ++ definitions.held_sections_have_locks plant.now r route.now) }
{
    push_locks_on_path(alloc, forms, plant, r, route)?;
    push_locked(alloc, forms, plant, r, route.overlap.as_slice())?;
    push_points_locked(alloc, forms, plant, r, route.protecting_points.as_slice())?;
    Ok(())
}

/// Returns the form of family V3: a section that a route holds on its path has lock Used if the
/// route has seen it. Every other held section has lock Locked.
pub(crate) fn v3_locks_match_routes_form(alloc: Global, plant: &Plant) -> Result<Form, AllocError>
    ensures { IfOk result (λ form. tree_of form ≡
        definitions.v3_locks_match_routes_tree plant.now) }
{
    let mut forms = Vec::new(alloc);
    for r in 0..plant.routes() {
        push_locks_for(alloc, &mut forms, plant, r, plant.route(r))?;
    }
    Ok(Form::And(forms))
}
