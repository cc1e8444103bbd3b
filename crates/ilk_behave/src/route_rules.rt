ghost use Rattle.std.specs.Prelude.{◌≡◌, ◌<◌, ◌++◌, ◌∷◌, [], All, if◌then◌else◌, length, map, flat_map, IfOk, OnOk};
ghost use Rattle.ilk_ir.specs.Form.{tree_of};
ghost use Rattle.ilk_ir.specs.System.{plain_rule};
ghost use Rattle.ilk_ir.specs.Tree.{negation};
ghost use Rattle.ilk_plant.specs.Plant.{IsValidRouteOf};
ghost use Rattle.ilk_plant.specs.TableRules.{sections_locked_for};
ghost use Rattle.ilk_plant.specs.declared.state.Aspect.TheVariants.{Closed};
ghost use Rattle.ilk_plant.specs.declared.state.Hold.TheVariants.{Free as FreeLock, Locked as LockedLock};
ghost use Rattle.ilk_plant.specs.declared.state.Mode.TheVariants.{Free, Marked, Allocating, Locked};
ghost use Rattle.ilk_routes.specs.Claims.{required_points};
ghost use Rattle.ilk_layout.specs.Conditions as conditions;
ghost use Rattle.ilk_behave.specs.Guards as guards;
ghost use Rattle.ilk_behave.specs.Settings as settings;
ghost use Rattle.ilk_behave.specs.RouteRules as definitions;

use crate::guards::{
    push_detected_as_listed, push_free_and_vacant, push_none_alloc_or_locked,
    push_points_free_vacant,
};
use crate::settings::{
    push_commands_as_listed, push_rule, push_set_locks, push_set_point_locks, set_board_aspect,
    set_mode,
};
use ilk_ir::{Form, Rules, Sets};
use ilk_layout::{is_board_aspect, mode_is, negated};
use ilk_plant::{Aspect, Hold, Mode, Plant, Route, Row};
use ilk_routes::is_protecting_board;
use std::alloc::{AllocError, Global};

/// Adds to `rules` the rule of the event `mark r`.
pub(crate) fn push_mark_rules(
    alloc: Global,
    rules: &mut Rules,
    plant: &Plant,
    r: u32,
) -> Result<(), AllocError>
    requires { r < length plant.now.routes }
    ensures { OnOk result
        (map plain_rule rules.new
        ≡ map plain_rule rules.old ++ definitions.rules_of_mark plant.now r) }
{
    let _ = plant.route(r);
    let mut forms = Vec::new(alloc);
    forms.push(mode_is(plant, r, Mode::Free))?;
    let mut sets = Row::new(alloc);
    sets.push(set_mode(plant, r, Mode::Marked))?;
    push_rule(rules, forms, sets)
}

fn allocate_forms(
    alloc: Global,
    plant: &Plant,
    r: u32,
    route: &Route,
) -> Result<Vec<Form>, AllocError>
    requires known { r < length plant.now.routes }
    requires route { IsValidRouteOf plant.now route.now }
    ensures { IfOk result
        (λ forms. map tree_of forms.items
        ≡ conditions.mode_is r Marked
        ∷ flat_map guards.neither_allocating_nor_locked route.now.conflicts
        ++ flat_map (guards.free_and_vacant_at plant.now) (sections_locked_for route.now)) }
{
    let mut forms = Vec::new(alloc);
    forms.push(mode_is(plant, r, Mode::Marked))?;
    push_none_alloc_or_locked(alloc, &mut forms, plant, &route.conflicts)?;
    push_free_and_vacant(&mut forms, plant, &route.path)?;
    push_free_and_vacant(&mut forms, plant, &route.overlap)?;
    push_points_free_vacant(&mut forms, plant, &route.protecting_points)?;
    Ok(forms)
}

fn push_all_locks(
    sets: &mut Sets,
    plant: &Plant,
    route: &Route,
    hold: Hold,
) -> Result<(), AllocError>
    requires { IsValidRouteOf plant.now route.now }
    ensures { OnOk result
        (sets.new
        ≡ sets.old ++ settings.set_lock_of_each_section plant.now
        (sections_locked_for route.now) hold) }
{
    push_set_locks(sets, plant, &route.path, hold)?;
    push_set_locks(sets, plant, &route.overlap, hold)?;
    push_set_point_locks(sets, plant, &route.protecting_points, hold)
}

fn allocate_sets(alloc: Global, plant: &Plant, r: u32, route: &Route) -> Result<Sets, AllocError>
    requires known { r < length plant.now.routes }
    requires route { IsValidRouteOf plant.now route.now }
    ensures { IfOk result
        (λ sets. sets
        ≡ settings.set_mode r Allocating
        ∷ settings.set_lock_of_each_section plant.now (sections_locked_for route.now) LockedLock
        ++ flat_map (settings.command_listed_point plant.now) (required_points route.now)) }
{
    let mut sets = Row::new(alloc);
    sets.push(set_mode(plant, r, Mode::Allocating))?;
    push_all_locks(&mut sets, plant, route, Hold::Locked)?;
    push_commands_as_listed(&mut sets, plant, &route.points)?;
    push_commands_as_listed(&mut sets, plant, &route.protecting_points)?;
    Ok(sets)
}

/// Adds to `rules` the rule of the event `allocate r`.
pub(crate) fn push_allocate_rules(
    alloc: Global,
    rules: &mut Rules,
    plant: &Plant,
    r: u32,
) -> Result<(), AllocError>
    requires { r < length plant.now.routes }
    ensures { OnOk result
        (map plain_rule rules.new
        ≡ map plain_rule rules.old ++ definitions.rules_of_allocate plant.now r) }
{
    let route = plant.route(r);
    let forms = allocate_forms(alloc, plant, r, route)?;
    let sets = allocate_sets(alloc, plant, r, route)?;
    push_rule(rules, forms, sets)
}

fn push_closed(forms: &mut Vec<Form>, plant: &Plant, boards: &Row<u32>) -> Result<(), AllocError>
    requires { All (λ m. m < length plant.now.boards) boards.now }
    ensures { OnOk result
        (map tree_of forms.new.items
        ≡ map tree_of forms.old.items
        ++ map (λ m. conditions.is_board_aspect plant.now m Closed) boards.now) }
{
    for m in boards.as_slice() {
        forms.push(is_board_aspect(plant, *m, Aspect::Closed))?;
    }
    Ok(())
}

fn push_not_locked_if(
    alloc: Global,
    forms: &mut Vec<Form>,
    plant: &Plant,
    q: u32,
    is_asked: bool,
) -> Result<(), AllocError>
    requires { q < length plant.now.routes }
    ensures { OnOk result
        (map tree_of forms.new.items
        ≡ map tree_of forms.old.items
        ++ (if is_asked then negation (conditions.mode_is q Locked) ∷ [] else [])) }
{
    if is_asked {
        forms.push(negated(alloc, mode_is(plant, q, Mode::Locked))?)?;
    }
    Ok(())
}

fn push_no_protector_locked(
    alloc: Global,
    forms: &mut Vec<Form>,
    plant: &Plant,
    m: u32,
) -> Result<(), AllocError>
    ensures { OnOk result
        (map tree_of forms.new.items
        ≡ map tree_of forms.old.items
        ++ map (λ q. negation (conditions.mode_is q Locked))
        (definitions.routes_protected_by plant.now m)) }
{
    for q in 0..plant.routes() {
        push_not_locked_if(alloc, forms, plant, q, is_protecting_board(plant, q, m))?;
    }
    Ok(())
}

fn lock_forms(alloc: Global, plant: &Plant, r: u32, route: &Route) -> Result<Vec<Form>, AllocError>
    requires known { r < length plant.now.routes }
    requires route { IsValidRouteOf plant.now route.now }
    ensures { IfOk result (λ forms. map tree_of forms.items ≡ conditions.mode_is r Allocating
        ∷ map (conditions.is_listed_point_detected plant.now) (required_points route.now)
        ++ map (λ m. conditions.is_board_aspect plant.now m Closed) route.now.protecting_boards
        ++ map (λ q. negation (conditions.mode_is q Locked))
        (definitions.routes_protected_by plant.now route.now.source)) }
{
    let mut forms = Vec::new(alloc);
    forms.push(mode_is(plant, r, Mode::Allocating))?;
    push_detected_as_listed(&mut forms, plant, &route.points)?;
    push_detected_as_listed(&mut forms, plant, &route.protecting_points)?;
    push_closed(&mut forms, plant, &route.protecting_boards)?;
    push_no_protector_locked(alloc, &mut forms, plant, route.source)?;
    Ok(forms)
}

/// Adds to `rules` the rule of the event `lock r`.
pub(crate) fn push_lock_rules(
    alloc: Global,
    rules: &mut Rules,
    plant: &Plant,
    r: u32,
) -> Result<(), AllocError>
    requires { r < length plant.now.routes }
    ensures { OnOk result
        (map plain_rule rules.new
        ≡ map plain_rule rules.old ++ definitions.rules_of_lock plant.now r) }
{
    let route = plant.route(r);
    let forms = lock_forms(alloc, plant, r, route)?;
    let mut sets = Row::new(alloc);
    sets.push(set_mode(plant, r, Mode::Locked))?;
    sets.push(set_board_aspect(plant, route.source, Aspect::Open))?;
    push_rule(rules, forms, sets)
}

fn push_cancel_marked(
    alloc: Global,
    rules: &mut Rules,
    plant: &Plant,
    r: u32,
) -> Result<(), AllocError>
    requires { r < length plant.now.routes }
    ensures { OnOk result
        (map plain_rule rules.new
        ≡ map plain_rule rules.old
        ++ settings.rule (conditions.mode_is r Marked ∷ [])
        (settings.set_mode r Free ∷ []) ∷ []) }
{
    let mut forms = Vec::new(alloc);
    forms.push(mode_is(plant, r, Mode::Marked))?;
    let mut sets = Row::new(alloc);
    sets.push(set_mode(plant, r, Mode::Free))?;
    push_rule(rules, forms, sets)
}

fn push_cancel_allocating(
    alloc: Global,
    rules: &mut Rules,
    plant: &Plant,
    r: u32,
    route: &Route,
) -> Result<(), AllocError>
    requires known { r < length plant.now.routes }
    requires route { IsValidRouteOf plant.now route.now }
    ensures { OnOk result
        (map plain_rule rules.new
        ≡ map plain_rule rules.old
        ++ settings.rule (conditions.mode_is r Allocating ∷ [])
        (settings.set_mode r Free
        ∷ settings.set_lock_of_each_section plant.now (sections_locked_for route.now)
        FreeLock) ∷ []) }
{
    let mut forms = Vec::new(alloc);
    forms.push(mode_is(plant, r, Mode::Allocating))?;
    let mut sets = Row::new(alloc);
    sets.push(set_mode(plant, r, Mode::Free))?;
    push_all_locks(&mut sets, plant, route, Hold::Free)?;
    push_rule(rules, forms, sets)
}

/// Adds to `rules` the rules of the event `cancel r`: one if `r` is Marked, one if it is
/// Allocating.
pub(crate) fn push_cancel_rules(
    alloc: Global,
    rules: &mut Rules,
    plant: &Plant,
    r: u32,
) -> Result<(), AllocError>
    requires { r < length plant.now.routes }
    ensures { OnOk result
        (map plain_rule rules.new
        ≡ map plain_rule rules.old ++ definitions.rules_of_cancel plant.now r) }
{
    push_cancel_marked(alloc, rules, plant, r)?;
    push_cancel_allocating(alloc, rules, plant, r, plant.route(r))
}
