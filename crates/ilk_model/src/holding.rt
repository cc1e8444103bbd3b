//! Tests for the families of the invariant: sections that a route holds, and sections that a train
//! may leave without passing a board.
ghost use Rattle.std.specs.Prelude.{◌≡◌};
ghost use Rattle.std.specs.List.{list_all};
ghost use Rattle.ilk_model.specs.Holding.{is_holding_state, is_unreleased_on_path, is_locked_or_occupied, continues_without_board, is_vacant, route_runs_in_direction};

use ilk_plant::{Dir, Mode, Plant, Route, RouteState, State, occupied};

/// Returns whether each of the sections is vacant.
pub(crate) fn all_vacant(s: &State, sections: &[u32]) -> bool
    ensures { result ≡ list_all (is_vacant s.now) sections.now }
{
    sections.iter().all(|x| !occupied(s, *x))
}

pub(crate) fn is_locked_or_occupied(now: RouteState) -> bool
    ensures { result ≡ is_locked_or_occupied now }
{
    now.mode == Mode::Locked || now.mode == Mode::Occupied
}

pub(crate) fn is_holding_state(now: RouteState) -> bool
    ensures { result ≡ is_holding_state now }
{
    now.mode == Mode::Allocating || is_locked_or_occupied(now)
}

/// Returns whether section `x` is on the route's path and not released.
pub(crate) fn is_kept_on_path(route: &Route, now: RouteState, x: u32) -> bool
    ensures { result ≡ is_unreleased_on_path route.now now x }
{
    route
        .path
        .as_slice()
        .iter()
        .enumerate()
        .any(|(i, y)| now.rel as usize <= i && *y == x)
}

/// Returns whether the route, and so its source, has direction `d`.
pub(crate) fn runs_in(plant: &Plant, d: Dir, route: &Route) -> bool
    ensures { result ≡ route_runs_in_direction plant.now d route.now }
{
    route.source < plant.boards() && plant.board(route.source).dir == d
}

/// Returns whether section `x` has a neighbour in direction `d`, but no board for `d`.
pub(crate) fn is_plain(plant: &Plant, d: Dir, x: u32) -> bool
    ensures { result ≡ continues_without_board plant.now d x }
{
    if x >= plant.sections() {
        return false;
    }
    let section = plant.section(x);
    section.board_on(d).is_none() && section.nth_neighbour_on(d, 0).is_some()
}
