//! The families of the invariant that concern single routes with their points and boards: V1, V3 to
//! V6 and V9.
ghost use Rattle.std.specs.Prelude.{◌≡◌, ◌==◌, ◌&&◌, ◌||◌, true, if◌then◌else◌, length, map, nat_le, nat_lt, not};
ghost use Rattle.std.specs.List.{list_all};
ghost use Rattle.ilk_plant.specs.Shape.{HasShape};
ghost use Rattle.ilk_plant.specs.State.{has_lock_state};
ghost use Rattle.ilk_plant.specs.declared.state.Aspect.TheVariants.{Open, Closed};
ghost use Rattle.ilk_plant.specs.declared.state.Hold.TheVariants.{Locked as LockedLock};
ghost use Rattle.ilk_plant.specs.declared.state.Mode.TheVariants.{Allocating, Locked, Occupied};
ghost use Rattle.ilk_routes.specs.Boards.{has_aspect};
ghost use Rattle.ilk_routes.specs.Claims.{sections_outside_path};
ghost use Rattle.ilk_routes.specs.Modes.{same_mode};
ghost use Rattle.ilk_model.specs.Commanded.{is_point_commanded_as_listed};
ghost use Rattle.ilk_model.specs.Families.{has_required_locks, is_point_commanded_if_allocating, meets_v1_consistent_counts, meets_v3_locks_match_routes, meets_v4_allocating_paths_vacant, meets_v5_open_needs_locked, meets_v6_points_match_modes, meets_v9_protecting_boards_closed, is_point_set_if_locked_or_occupied, required_path_section_lock};
ghost use Rattle.ilk_model.specs.Holding.{all_path_indices_pass_test, is_holding_state, is_vacant, any_route_passes_test};

use crate::holding::{all_vacant, is_holding_state, is_kept_on_path, is_locked_or_occupied};
use ilk_plant::{
    Aspect, Hold, Listed, Mode, Plant, Route, RouteState, Row, State, contains_section,
    has_lock_state, point_number_at,
};
use ilk_routes::{all_boards_closed, has_aspect, is_point_detected_as_listed};

// Returns whether the counts of a route fit its mode. If it is Occupied, fewer sections are
// released than seen, and at most the whole path is seen. Otherwise both counts are 0.
fn counts_fit_mode(route: &Route, now: RouteState) -> bool
    ensures { result ≡ (if same_mode now.mode Occupied
        then nat_lt now.rel now.seen && nat_le now.seen (length route.now.path)
        else now.seen == 0 && now.rel == 0) }
{
    if now.mode == Mode::Occupied {
        now.rel < now.seen && now.seen as u64 <= route.path.len()
    } else {
        now.seen == 0 && now.rel == 0
    }
}

pub(crate) fn meets_v1_consistent_counts(plant: &Plant, s: &State) -> bool
    requires { HasShape plant.now s.now }
    ensures { result ≡ meets_v1_consistent_counts plant.now s.now }
{
    (0..plant.routes()).all(|r| counts_fit_mode(plant.route(r), *s.routes.at(r as u64)))
}

fn lock_on_path(now: RouteState, i: u64) -> Hold
    ensures { result ≡ required_path_section_lock now i }
{
    if i < now.seen as u64 {
        Hold::Used
    } else {
        Hold::Locked
    }
}

fn path_has_its_locks(s: &State, route: &Route, now: RouteState) -> bool
    ensures { result
        ≡ all_path_indices_pass_test route.now
        (λ i x. not (nat_le now.rel i) || has_lock_state s.now x
        (required_path_section_lock now i)) }
{
    route.path.as_slice().iter().enumerate().all(|(i, x)| i < now.rel as usize
        || has_lock_state(s, *x, lock_on_path(now, i as u64)))
}

fn all_locked(s: &State, sections: &Row<u32>) -> bool
    ensures { result ≡ list_all (λ x. has_lock_state s.now x LockedLock) sections.now }
{
    sections
        .as_slice()
        .iter()
        .all(|x| has_lock_state(s, *x, Hold::Locked))
}

fn all_points_locked(s: &State, points: &Row<Listed>) -> bool
    ensures { result
        ≡ list_all (λ x. has_lock_state s.now x LockedLock)
        (map (λ listed. listed.point) points.now) }
{
    points
        .as_slice()
        .iter()
        .map(|listed| listed.point)
        .all(|x| has_lock_state(s, x, Hold::Locked))
}

fn all_beside_locked(s: &State, route: &Route) -> bool
    ensures { result ≡ list_all (λ x. has_lock_state s.now x LockedLock)
        (sections_outside_path route.now) }
{
    all_locked(s, &route.overlap) && all_points_locked(s, &route.protecting_points)
}

fn has_its_locks(s: &State, route: &Route, now: RouteState) -> bool
    ensures { result ≡ has_required_locks s.now route.now now }
{
    path_has_its_locks(s, route, now) && all_beside_locked(s, route)
}

fn held_have_their_locks(s: &State, route: &Route, now: RouteState) -> bool
    ensures { result ≡ (if is_holding_state now then has_required_locks s.now route.now
        now else true) }
{
    !is_holding_state(now) || has_its_locks(s, route, now)
}

pub(crate) fn meets_v3_locks_match_routes(plant: &Plant, s: &State) -> bool
    requires { HasShape plant.now s.now }
    ensures { result ≡ meets_v3_locks_match_routes plant.now s.now }
{
    (0..plant.routes()).all(|r| held_have_their_locks(s, plant.route(r), *s.routes.at(r as u64)))
}

fn is_vacant_while_allocating(s: &State, route: &Route, now: RouteState) -> bool
    ensures { result
        ≡
        (if same_mode now.mode Allocating then list_all (is_vacant s.now) route.now.path
        else true) }
{
    now.mode != Mode::Allocating || all_vacant(s, route.path.as_slice())
}

pub(crate) fn meets_v4_allocating_paths_vacant(plant: &Plant, s: &State) -> bool
    requires { HasShape plant.now s.now }
    ensures { result ≡ meets_v4_allocating_paths_vacant plant.now s.now }
{
    (0..plant.routes()).all(|r| {
        is_vacant_while_allocating(s, plant.route(r), *s.routes.at(r as u64))
    })
}

fn lets_open(s: &State, m: u32, route: &Route, now: RouteState) -> bool
    ensures { result
        ≡
        ((route.now.source == m) && same_mode now.mode Locked
        && list_all (is_vacant s.now) route.now.path) }
{
    route.source == m && now.mode == Mode::Locked && all_vacant(s, route.path.as_slice())
}

fn may_be_open(plant: &Plant, s: &State, m: u32) -> bool
    requires { HasShape plant.now s.now }
    ensures { result
        ≡ any_route_passes_test plant.now s.now
        (λ route now. (route.source == m) && same_mode now.mode Locked
        && list_all (is_vacant s.now) route.path) }
{
    (0..plant.routes()).any(|r| lets_open(s, m, plant.route(r), *s.routes.at(r as u64)))
}

fn is_rightly_open(plant: &Plant, s: &State, m: u32) -> bool
    requires { HasShape plant.now s.now }
    ensures { result ≡ (if has_aspect s.now m Open
        then any_route_passes_test plant.now s.now
        (λ route now. (route.source == m) && same_mode now.mode Locked
        && list_all (is_vacant s.now) route.path)
        else true) }
{
    !has_aspect(s, m, Aspect::Open) || may_be_open(plant, s, m)
}

pub(crate) fn meets_v5_open_needs_locked(plant: &Plant, s: &State) -> bool
    requires { HasShape plant.now s.now }
    ensures { result ≡ meets_v5_open_needs_locked plant.now s.now }
{
    (0..plant.boards()).all(|m| is_rightly_open(plant, s, m))
}

fn is_point_commanded_as_listed(plant: &Plant, s: &State, listed: &Listed) -> bool
    ensures { result ≡ is_point_commanded_as_listed plant.now s.now listed.now }
{
    match point_number_at(plant, listed.point) {
        Some(n) => match s.points.as_slice().get(n as usize) {
            Some(point) => point.to == listed.at,
            None => false,
        },
        None => false,
    }
}

fn is_point_commanded_if_allocating(
    plant: &Plant,
    s: &State,
    route: &Route,
    now: RouteState,
    listed: &Listed,
) -> bool
    ensures { result ≡ is_point_commanded_if_allocating plant.now s.now route.now now listed.now }
{
    if now.mode == Mode::Allocating && contains_section(&route.path, listed.point) {
        is_point_commanded_as_listed(plant, s, listed)
    } else {
        true
    }
}

fn lies_for(plant: &Plant, s: &State, route: &Route, now: RouteState, listed: &Listed) -> bool
    ensures { result ≡ is_point_set_if_locked_or_occupied plant.now s.now route.now now listed.now }
{
    if is_locked_or_occupied(now) && is_kept_on_path(route, now, listed.point) {
        is_point_commanded_as_listed(plant, s, listed)
            && is_point_detected_as_listed(plant, s, listed)
    } else {
        true
    }
}

fn points_fit_mode(plant: &Plant, s: &State, route: &Route, now: RouteState) -> bool
    ensures { result
        ≡ list_all
        (λ listed. is_point_commanded_if_allocating plant.now s.now route.now now listed
        && is_point_set_if_locked_or_occupied plant.now s.now route.now now listed)
        route.now.points }
{
    route.points.as_slice().iter().all(|listed| {
        is_point_commanded_if_allocating(plant, s, route, now, listed)
            && lies_for(plant, s, route, now, listed)
    })
}

pub(crate) fn meets_v6_points_match_modes(plant: &Plant, s: &State) -> bool
    requires { HasShape plant.now s.now }
    ensures { result ≡ meets_v6_points_match_modes plant.now s.now }
{
    (0..plant.routes()).all(|r| {
        points_fit_mode(plant, s, plant.route(r), *s.routes.at(r as u64))
    })
}

fn is_protected(s: &State, route: &Route, now: RouteState) -> bool
    ensures { result
        ≡
        (if same_mode now.mode Locked
        then list_all (λ m. has_aspect s.now m Closed) route.now.protecting_boards
        else true) }
{
    now.mode != Mode::Locked || all_boards_closed(s, &route.protecting_boards)
}

pub(crate) fn meets_v9_protecting_boards_closed(plant: &Plant, s: &State) -> bool
    requires { HasShape plant.now s.now }
    ensures { result ≡ meets_v9_protecting_boards_closed plant.now s.now }
{
    (0..plant.routes()).all(|r| is_protected(s, plant.route(r), *s.routes.at(r as u64)))
}
