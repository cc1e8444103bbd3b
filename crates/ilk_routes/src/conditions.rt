ghost use Rattle.std.specs.Prelude.{◌≡◌, ◌≤◌, ◌<◌, ◌-◌, ◌&&◌, ◌==◌, Some, length, map, slice_get};
ghost use Rattle.ilk_plant.specs.Plant.{IsValidRouteOf};
ghost use Rattle.ilk_plant.specs.Shape.{HasShape};
ghost use Rattle.std.specs.List.{list_any, list_all};
ghost use Rattle.ilk_plant.specs.Network.{last_of};
ghost use Rattle.ilk_plant.specs.State.{is_unlocked_and_vacant};
ghost use Rattle.ilk_plant.specs.declared.state.Aspect.TheVariants.{Closed};
ghost use Rattle.ilk_plant.specs.declared.state.Mode.TheVariants.{Locked};
ghost use Rattle.ilk_routes.specs.Boards.{has_aspect, is_protecting_locked_route, is_protecting_board};
ghost use Rattle.ilk_plant.specs.TableRules.{sections_locked_for};
ghost use Rattle.ilk_routes.specs.Claims.{required_points};
ghost use Rattle.ilk_routes.specs.Lies.{is_lie_moving, lie_from_position, is_point_detected_as_listed, is_lie_at_position};
ghost use Rattle.ilk_routes.specs.Modes.{has_mode, is_allocating_or_locked};
ghost use Rattle.ilk_routes.specs.Routes.{can_allocate_if_marked, can_lock_if_allocating};

use ilk_base::has_number;
use ilk_plant::{
    Aspect, Lie, Listed, Mode, Plant, Position, Route, RouteState, Row, State,
    detected_position_in_state, is_unlocked_and_vacant,
};

/// Returns whether route `r` is in mode `mode`.
pub(crate) fn has_mode(s: &State, r: u32, mode: Mode) -> bool
    ensures { result ≡ has_mode s.now r mode }
{
    match s.routes.as_slice().get(r as usize) {
        Some(now) => now.mode == mode,
        None => false,
    }
}

/// Returns whether route `r` is Allocating or Locked.
pub(crate) fn is_allocating_or_locked(s: &State, r: u32) -> bool
    ensures { result ≡ is_allocating_or_locked s.now r }
{
    has_mode(s, r, Mode::Allocating) || has_mode(s, r, Mode::Locked)
}

fn any_claimed(s: &State, routes: &Row<u32>) -> bool
    ensures { result ≡ list_any (is_allocating_or_locked s.now) routes.now }
{
    routes
        .as_slice()
        .iter()
        .any(|r| is_allocating_or_locked(s, *r))
}

fn all_clear(s: &State, sections: &Row<u32>) -> bool
    ensures { result ≡ list_all (is_unlocked_and_vacant s.now) sections.now }
{
    sections
        .as_slice()
        .iter()
        .all(|x| is_unlocked_and_vacant(s, *x))
}

fn all_points_clear(s: &State, points: &Row<Listed>) -> bool
    ensures { result ≡ list_all (is_unlocked_and_vacant s.now)
        (map (λ listed. listed.point) points.now) }
{
    points
        .as_slice()
        .iter()
        .map(|listed| listed.point)
        .all(|x| is_unlocked_and_vacant(s, x))
}

fn all_claimed_clear(s: &State, route: &Route) -> bool
    ensures { result ≡ list_all (is_unlocked_and_vacant s.now) (sections_locked_for route.now) }
{
    all_clear(s, &route.path)
        && all_clear(s, &route.overlap)
        && all_points_clear(s, &route.protecting_points)
}

/// Returns whether no route that `route` lists as a conflict is Allocating or Locked, and each
/// section of its path, overlap and protecting points has lock Free and is vacant.
pub(crate) fn can_allocate_if_marked(s: &State, route: &Route) -> bool
    ensures { result ≡ can_allocate_if_marked s.now route.now }
{
    !any_claimed(s, &route.conflicts) && all_claimed_clear(s, route)
}

/// Returns the last number of `sections`, which must not be empty.
pub fn last_of(sections: &Row<u32>) -> u32
    requires { 0 < length sections.now }
    ensures last { last_of sections.now ≡ Some result }
    ensures at_end { slice_get sections.now (length sections.now - 1) ≡ Some result }
{
    *sections.at(sections.len() - 1)
}

/// Returns whether the detected position `lie` is moving.
pub(crate) fn is_lie_moving(lie: Lie) -> bool
    ensures { result ≡ is_lie_moving lie }
{
    lie == Lie::Moving
}

/// Returns the detected position, plus or minus, that equals `position`.
pub fn lie_from_position(position: Position) -> Lie
    ensures { result ≡ lie_from_position position }
{
    match position {
        Position::Plus => Lie::Plus,
        Position::Minus => Lie::Minus,
    }
}

/// Returns whether the detected position `lie` equals `position`; a moving point is in no position.
pub(crate) fn is_lie_at_position(lie: Lie, position: Position) -> bool
    ensures { result ≡ is_lie_at_position lie position }
{
    lie == lie_from_position(position)
}

/// Returns whether the point in `listed` is detected in the position listed there.
pub fn is_point_detected_as_listed(plant: &Plant, s: &State, listed: &Listed) -> bool
    ensures { result ≡ is_point_detected_as_listed plant.now s.now listed.now }
{
    match detected_position_in_state(plant, s, listed.point) {
        Some(lie) => is_lie_at_position(lie, listed.at),
        None => false,
    }
}

fn all_lie_as_listed(plant: &Plant, s: &State, points: &Row<Listed>) -> bool
    ensures { result ≡ list_all (is_point_detected_as_listed plant.now s.now) points.now }
{
    points
        .as_slice()
        .iter()
        .all(|listed| is_point_detected_as_listed(plant, s, listed))
}

fn all_wanted_lie(plant: &Plant, s: &State, route: &Route) -> bool
    ensures { result ≡ list_all (is_point_detected_as_listed plant.now s.now)
        (required_points route.now) }
{
    all_lie_as_listed(plant, s, &route.points)
        && all_lie_as_listed(plant, s, &route.protecting_points)
}

/// Returns whether the aspect of board `m` is `aspect`.
pub fn has_aspect(s: &State, m: u32, aspect: Aspect) -> bool
    ensures { result ≡ has_aspect s.now m aspect }
{
    match s.boards.as_slice().get(m as usize) {
        Some(now) => *now == aspect,
        None => false,
    }
}

/// Returns whether all `boards` are Closed.
pub fn all_boards_closed(s: &State, boards: &Row<u32>) -> bool
    ensures { result ≡ list_all (λ m. has_aspect s.now m Closed) boards.now }
{
    boards
        .as_slice()
        .iter()
        .all(|m| has_aspect(s, *m, Aspect::Closed))
}

/// Returns whether board `m` is a protecting board of route `q`.
pub fn is_protecting_board(plant: &Plant, q: u32, m: u32) -> bool
    ensures { result ≡ is_protecting_board plant.now q m }
{
    q < plant.routes() && has_number(plant.route(q).protecting_boards.as_slice(), m)
}

fn is_locked_by(plant: &Plant, s: &State, q: u32, m: u32) -> bool
    ensures { result ≡ (has_mode s.now q Locked && is_protecting_board plant.now q m) }
{
    has_mode(s, q, Mode::Locked) && is_protecting_board(plant, q, m)
}

fn is_protecting(plant: &Plant, s: &State, m: u32) -> bool
    ensures { result ≡ is_protecting_locked_route plant.now s.now m }
{
    (0..plant.routes()).any(|q| is_locked_by(plant, s, q, m))
}

/// Returns whether the listed and protecting points of `route` are in position, its protecting
/// boards are Closed, and no Locked route has its source as a protecting board.
pub(crate) fn can_lock_if_allocating(plant: &Plant, s: &State, route: &Route) -> bool
    ensures { result ≡ can_lock_if_allocating plant.now s.now route.now }
{
    all_wanted_lie(plant, s, route)
        && all_boards_closed(s, &route.protecting_boards)
        && !is_protecting(plant, s, route.source)
}

/// Returns route `r` and its state in `s`, whose counts are at most the length of its path.
pub(crate) fn route_and_state<'a>(plant: &'a Plant, s: &State, r: u32) -> (&'a Route, RouteState)
    requires shape { HasShape plant.now s.now }
    requires known { r < length plant.now.routes }
    ensures route { slice_get plant.now.routes r ≡ Some result.0.now }
    ensures of { IsValidRouteOf plant.now result.0.now }
    ensures state { slice_get s.now.routes r ≡ Some result.1 }
    ensures seen { result.1.seen ≤ length result.0.now.path }
    ensures rel { result.1.rel ≤ length result.0.now.path }
{
    (plant.route(r), *s.routes.at(r as u64))
}
