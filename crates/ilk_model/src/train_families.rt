//! The families of the invariant that concern trains: V7 and V8.
ghost use Rattle.std.specs.Prelude.{◌≡◌, ◌+◌, ◌==◌, ◌&&◌, ◌||◌, true, drop, if◌then◌else◌, nat_le};
ghost use Rattle.std.specs.List.{list_all};
ghost use Rattle.ilk_plant.specs.Network.{last_of};
ghost use Rattle.ilk_base.specs.Option.{is_some_and};
ghost use Rattle.ilk_plant.specs.Shape.{HasShape};
ghost use Rattle.ilk_plant.specs.declared.state.Aspect.TheVariants.{Closed};
ghost use Rattle.ilk_plant.specs.declared.state.Mode.TheVariants.{Locked, Occupied};
ghost use Rattle.ilk_routes.specs.Boards.{has_aspect};
ghost use Rattle.ilk_routes.specs.Modes.{same_mode};
ghost use Rattle.ilk_model.specs.Families.{is_unreleased_on_some_route, head_is_led_by_route, meets_v7_heads_have_routes, meets_v8_bodies_have_routes};
ghost use Rattle.ilk_model.specs.Holding.{is_unreleased_on_path, is_locked_or_occupied, continues_without_board, is_vacant, route_runs_in_direction, any_path_index_passes_test};

use crate::holding::{all_vacant, is_kept_on_path, is_locked_or_occupied, is_plain, runs_in};
use ilk_plant::{Aspect, Dir, Mode, Plant, Route, RouteState, State, Train};
use ilk_routes::has_aspect;

fn may_lead(s: &State, route: &Route, now: RouteState) -> bool
    ensures { result
        ≡
        (same_mode now.mode Occupied
        || (same_mode now.mode Locked && has_aspect s.now route.now.source Closed)) }
{
    now.mode == Mode::Occupied
        || now.mode == Mode::Locked && has_aspect(s, route.source, Aspect::Closed)
}

fn leads(plant: &Plant, s: &State, d: Dir, x: u32, route: &Route, now: RouteState) -> bool
    ensures { result ≡ any_path_index_passes_test route.now (λ i y. (y == x)
        && route_runs_in_direction plant.now d route.now
        &&
        (same_mode now.mode Occupied
        || (same_mode now.mode Locked && has_aspect s.now route.now.source Closed))
        && nat_le now.seen (i + 1)
        && list_all (is_vacant s.now) (drop (i + 1) route.now.path)) }
{
    let path = route.path.as_slice();
    for (i, y) in path.iter().enumerate() {
        if *y == x
            && runs_in(plant, d, route)
            && may_lead(s, route, now)
            && now.seen as usize <= i + 1
            && all_vacant(s, &path[i + 1..])
        {
            return true;
        }
    }
    false
}

fn is_led(plant: &Plant, s: &State, d: Dir, x: u32) -> bool
    requires { HasShape plant.now s.now }
    ensures { result ≡ head_is_led_by_route plant.now s.now d x }
{
    (0..plant.routes()).any(|r| leads(plant, s, d, x, plant.route(r), *s.routes.at(r as u64)))
}

#[tactic(auto, using(ilk_base::proofs::Lists::last_item))]
fn head_of(train: &Train) -> Option<u32>
    ensures { result ≡ last_of train.now.body }
{
    train.body.as_slice().last().copied()
}

fn head_is_led(plant: &Plant, s: &State, train: &Train) -> bool
    requires { HasShape plant.now s.now }
    ensures { result
        ≡ is_some_and (last_of train.now.body)
        (λ x. if continues_without_board plant.now train.now.dir x
        then head_is_led_by_route plant.now s.now train.now.dir x else true) }
{
    match head_of(train) {
        Some(x) => !is_plain(plant, train.dir, x) || is_led(plant, s, train.dir, x),
        None => false,
    }
}

pub(crate) fn meets_v7_heads_have_routes(plant: &Plant, s: &State) -> bool
    requires { HasShape plant.now s.now }
    ensures { result ≡ meets_v7_heads_have_routes plant.now s.now }
{
    s.trains
        .as_slice()
        .iter()
        .all(|train| head_is_led(plant, s, train))
}

fn keeps_for(plant: &Plant, d: Dir, x: u32, route: &Route, now: RouteState) -> bool
    ensures { result
        ≡
        (route_runs_in_direction plant.now d route.now && is_locked_or_occupied now
        && is_unreleased_on_path route.now now x) }
{
    runs_in(plant, d, route) && is_locked_or_occupied(now) && is_kept_on_path(route, now, x)
}

fn is_kept_for(plant: &Plant, s: &State, d: Dir, x: u32) -> bool
    requires { HasShape plant.now s.now }
    ensures { result ≡ is_unreleased_on_some_route plant.now s.now d x }
{
    (0..plant.routes()).any(|r| keeps_for(plant, d, x, plant.route(r), *s.routes.at(r as u64)))
}

fn is_kept_if_plain(plant: &Plant, s: &State, d: Dir, x: u32) -> bool
    requires { HasShape plant.now s.now }
    ensures { result ≡ (if continues_without_board plant.now d x then is_unreleased_on_some_route
        plant.now s.now d x else true) }
{
    !is_plain(plant, d, x) || is_kept_for(plant, s, d, x)
}

fn body_is_kept(plant: &Plant, s: &State, train: &Train) -> bool
    requires { HasShape plant.now s.now }
    ensures { result
        ≡ list_all
        (λ x. if continues_without_board plant.now train.now.dir x
        then is_unreleased_on_some_route plant.now s.now train.now.dir x else true) train.now.body }
{
    let d = train.dir;
    train
        .body
        .as_slice()
        .iter()
        .all(|x| is_kept_if_plain(plant, s, d, *x))
}

pub(crate) fn meets_v8_bodies_have_routes(plant: &Plant, s: &State) -> bool
    requires { HasShape plant.now s.now }
    ensures { result ≡ meets_v8_bodies_have_routes plant.now s.now }
{
    s.trains
        .as_slice()
        .iter()
        .all(|train| body_is_kept(plant, s, train))
}
