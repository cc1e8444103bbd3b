ghost use Rattle.std.specs.Prelude.{◌≡◌, ◌≤◌, ◌<◌, ◌+◌, ◌-◌, ◌==◌, ◌++◌, ◌∷◌, [], if◌then◌else◌, length, map, IfOk, OnOk};
ghost use Rattle.ilk_ir.specs.Form.{tree_of};
ghost use Rattle.ilk_ir.specs.System.{plain_rule};
ghost use Rattle.ilk_ir.specs.Tree.{any_of, trees_from_list};
ghost use Rattle.ilk_plant.specs.Plant.{IsValidRouteOf};
ghost use Rattle.ilk_plant.specs.declared.limits.TheConstants.{MAX_PATH};
ghost use Rattle.ilk_plant.specs.declared.state.Aspect.TheVariants.{Closed};
ghost use Rattle.ilk_plant.specs.declared.state.Hold.TheVariants.{Free as FreeLock, Locked as LockedLock, Used as UsedLock};
ghost use Rattle.ilk_plant.specs.declared.state.Mode.TheVariants.{Free, Locked, Occupied};
ghost use Rattle.ilk_routes.specs.Claims.{sections_outside_path};
ghost use Rattle.ilk_layout.specs.Conditions as conditions;
ghost use Rattle.ilk_behave.specs.Settings as settings;
ghost use Rattle.ilk_behave.specs.RouteRules as definitions;

use crate::settings::{
    push_rule, push_set_locks, push_set_point_locks, set_board_aspect, set_mode,
    set_released_count, set_section_lock, set_seen_count,
};
use ilk_ir::{Form, Rules, Sets};
use ilk_layout::{is_released_count, is_seen_count, lock_is, mode_is, no_train_at, train_at};
use ilk_plant::{Aspect, Hold, Mode, Plant, Route, Row};
use ilk_routes::last_of;
use std::alloc::{AllocError, Global};

fn route_locked_or_occupied(alloc: Global, plant: &Plant, r: u32) -> Result<Form, AllocError>
    requires { r < length plant.now.routes }
    ensures { IfOk result
        (λ form. tree_of form
        ≡ any_of (trees_from_list
        (conditions.mode_is r Locked ∷ conditions.mode_is r Occupied ∷ []))) }
{
    let mut forms = Vec::new(alloc);
    forms.push(mode_is(plant, r, Mode::Locked))?;
    forms.push(mode_is(plant, r, Mode::Occupied))?;
    Ok(Form::Or(forms))
}

fn sense_forms(alloc: Global, plant: &Plant, r: u32, k: u8, x: u32) -> Result<Vec<Form>, AllocError>
    requires known { r < length plant.now.routes }
    requires section { x < length plant.now.sections }
    ensures { IfOk result (λ forms. map tree_of forms.items
        ≡ any_of (trees_from_list
        (conditions.mode_is r Locked ∷ conditions.mode_is r Occupied ∷ []))
        ∷ conditions.is_seen_count r k
        ∷ conditions.train_at plant.now x
        ∷ conditions.lock_is plant.now x LockedLock
        ∷ []) }
{
    let mut forms = Vec::new(alloc);
    forms.push(route_locked_or_occupied(alloc, plant, r)?)?;
    forms.push(is_seen_count(plant, r, k))?;
    forms.push(train_at(alloc, plant, x)?)?;
    forms.push(lock_is(plant, x, Hold::Locked))?;
    Ok(forms)
}

fn sense_sets(
    alloc: Global,
    plant: &Plant,
    r: u32,
    k: u8,
    x: u32,
    source: u32,
) -> Result<Sets, AllocError>
    requires known { r < length plant.now.routes }
    requires section { x < length plant.now.sections }
    requires source { source < length plant.now.boards }
    requires place { k < MAX_PATH }
    ensures { IfOk result (λ sets. sets ≡ settings.set_section_lock plant.now x UsedLock
        ∷ settings.set_seen_count r (k + 1)
        ∷ settings.set_mode r Occupied
        ∷ (if k == 0 then settings.set_board_aspect plant.now source Closed ∷ [] else [])) }
{
    let mut sets = Row::new(alloc);
    sets.push(set_section_lock(plant, x, Hold::Used))?;
    sets.push(set_seen_count(plant, r, k + 1))?;
    sets.push(set_mode(plant, r, Mode::Occupied))?;
    if k == 0 {
        sets.push(set_board_aspect(plant, source, Aspect::Closed))?;
    }
    Ok(sets)
}

/// Adds to `rules` the rules of the event `sense r`: one for each section of the path of route `r`.
pub(crate) fn push_sense_rules(
    alloc: Global,
    rules: &mut Rules,
    plant: &Plant,
    r: u32,
) -> Result<(), AllocError>
    requires { r < length plant.now.routes }
    ensures { OnOk result
        (map plain_rule rules.new
        ≡ map plain_rule rules.old ++ definitions.rules_of_sense plant.now r) }
{
    let route = plant.route(r);
    let path = route.path.as_slice();
    for k in 0..path.len() {
        let x = path[k];
        let forms = sense_forms(alloc, plant, r, k as u8, x)?;
        let sets = sense_sets(alloc, plant, r, k as u8, x, route.source)?;
        push_rule(rules, forms, sets)?;
    }
    Ok(())
}

fn seen_at_least(alloc: Global, plant: &Plant, r: u32, k: u8, n: u8) -> Result<Form, AllocError>
    requires known { r < length plant.now.routes }
    requires place { k ≤ n }
    requires few { n ≤ MAX_PATH }
    ensures { IfOk result (λ form. tree_of form ≡ definitions.seen_at_least r k n) }
{
    let mut forms = Vec::new(alloc);
    for more in 0..n + 1 - k {
        forms.push(is_seen_count(plant, r, k + more))?;
    }
    Ok(Form::Or(forms))
}

fn release_forms(
    alloc: Global,
    plant: &Plant,
    r: u32,
    k: u8,
    n: u8,
    x: u32,
) -> Result<Vec<Form>, AllocError>
    requires known { r < length plant.now.routes }
    requires section { x < length plant.now.sections }
    requires path { n ≤ MAX_PATH }
    requires place { k + 2 ≤ n }
    ensures { IfOk result (λ forms. map tree_of forms.items ≡ conditions.mode_is r Occupied
        ∷ conditions.is_released_count r k
        ∷ definitions.seen_at_least r (k + 2) n
        ∷ conditions.no_train_at plant.now x
        ∷ conditions.lock_is plant.now x UsedLock
        ∷ []) }
{
    let mut forms = Vec::new(alloc);
    forms.push(mode_is(plant, r, Mode::Occupied))?;
    forms.push(is_released_count(plant, r, k))?;
    forms.push(seen_at_least(alloc, plant, r, k + 2, n)?)?;
    forms.push(no_train_at(plant, x))?;
    forms.push(lock_is(plant, x, Hold::Used))?;
    Ok(forms)
}

fn release_sets(alloc: Global, plant: &Plant, r: u32, k: u8, x: u32) -> Result<Sets, AllocError>
    requires known { r < length plant.now.routes }
    requires section { x < length plant.now.sections }
    requires place { k < MAX_PATH }
    ensures { IfOk result
        (λ sets. sets
        ≡ settings.set_section_lock plant.now x FreeLock ∷ settings.set_released_count r
        (k + 1) ∷ []) }
{
    let mut sets = Row::new(alloc);
    sets.push(set_section_lock(plant, x, Hold::Free))?;
    sets.push(set_released_count(plant, r, k + 1))?;
    Ok(sets)
}

/// Adds to `rules` the rules of the event `release r`: one for each section of the path of route
/// `r` except the last.
pub(crate) fn push_release_rules(
    alloc: Global,
    rules: &mut Rules,
    plant: &Plant,
    r: u32,
) -> Result<(), AllocError>
    requires { r < length plant.now.routes }
    ensures { OnOk result
        (map plain_rule rules.new
        ≡ map plain_rule rules.old ++ definitions.rules_of_release plant.now r) }
{
    let route = plant.route(r);
    let path = route.path.as_slice();
    for k in 0..path.len() - 1 {
        let x = path[k];
        let forms = release_forms(alloc, plant, r, k as u8, route.path.len() as u8, x)?;
        let sets = release_sets(alloc, plant, r, k as u8, x)?;
        push_rule(rules, forms, sets)?;
    }
    Ok(())
}

fn finish_forms(alloc: Global, plant: &Plant, r: u32, n: u8) -> Result<Vec<Form>, AllocError>
    requires known { r < length plant.now.routes }
    requires path { 0 < n }
    ensures { IfOk result
        (λ forms. map tree_of forms.items
        ≡ conditions.mode_is r Occupied ∷ conditions.is_seen_count r n
        ∷ conditions.is_released_count r (n - 1) ∷ []) }
{
    let mut forms = Vec::new(alloc);
    forms.push(mode_is(plant, r, Mode::Occupied))?;
    forms.push(is_seen_count(plant, r, n))?;
    forms.push(is_released_count(plant, r, n - 1))?;
    Ok(forms)
}

fn finish_sets(
    alloc: Global,
    plant: &Plant,
    r: u32,
    route: &Route,
    x: u32,
) -> Result<Sets, AllocError>
    requires known { r < length plant.now.routes }
    requires route { IsValidRouteOf plant.now route.now }
    requires section { x < length plant.now.sections }
    ensures { IfOk result (λ sets. sets
        ≡ settings.set_lock_of_each_section plant.now (x ∷ sections_outside_path route.now) FreeLock
        ++ settings.set_mode r Free
        ∷ settings.set_seen_count r 0
        ∷ settings.set_released_count r 0
        ∷ []) }
{
    let mut sets = Row::new(alloc);
    sets.push(set_section_lock(plant, x, Hold::Free))?;
    push_set_locks(&mut sets, plant, &route.overlap, Hold::Free)?;
    push_set_point_locks(&mut sets, plant, &route.protecting_points, Hold::Free)?;
    sets.push(set_mode(plant, r, Mode::Free))?;
    sets.push(set_seen_count(plant, r, 0))?;
    sets.push(set_released_count(plant, r, 0))?;
    Ok(sets)
}

/// Adds to `rules` the rule of the event `finish r`.
pub(crate) fn push_finish_rules(
    alloc: Global,
    rules: &mut Rules,
    plant: &Plant,
    r: u32,
) -> Result<(), AllocError>
    requires { r < length plant.now.routes }
    ensures { OnOk result
        (map plain_rule rules.new
        ≡ map plain_rule rules.old ++ definitions.rules_of_finish plant.now r) }
{
    let route = plant.route(r);
    let last = last_of(&route.path);
    let forms = finish_forms(alloc, plant, r, route.path.len() as u8)?;
    let sets = finish_sets(alloc, plant, r, route, last)?;
    push_rule(rules, forms, sets)
}
