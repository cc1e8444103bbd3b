ghost use Rattle.std.specs.Prelude.{◌≡◌, is_some, unwrap_or};
ghost use Rattle.ilk_plant.specs.Shape.{HasShape};
ghost use Rattle.ilk_routes.specs.Routes.{after_allocate, after_cancel, after_finish, after_lock, after_mark, after_release, after_sense};

use crate::changes::{command_route_points, set_locks_outside_path, set_route_locks};
use crate::conditions::{can_allocate_if_marked, can_lock_if_allocating, last_of, route_and_state};
use ilk_plant::{Aspect, Hold, Mode, Plant, RouteState, State, has_lock_state, occupied};

fn mark(plant: &Plant, s: &mut State, r: u32) -> bool
    requires { HasShape plant.now s.old }
    ensures answer { result ≡ is_some (after_mark plant.now s.old r) }
    ensures next { s.new ≡ unwrap_or (after_mark plant.now s.old r) s.old }
{
    if r >= plant.routes() || s.routes.at(r as u64).mode != Mode::Free {
        return false;
    }
    s.routes.at_mut(r as u64).mode = Mode::Marked;
    true
}

fn allocate(plant: &Plant, s: &mut State, r: u32) -> bool
    requires { HasShape plant.now s.old }
    ensures answer { result ≡ is_some (after_allocate plant.now s.old r) }
    ensures next { s.new ≡ unwrap_or (after_allocate plant.now s.old r) s.old }
{
    if r >= plant.routes() {
        return false;
    }
    let route = plant.route(r);
    if s.routes.at(r as u64).mode != Mode::Marked || !can_allocate_if_marked(s, route) {
        return false;
    }
    s.routes.at_mut(r as u64).mode = Mode::Allocating;
    set_route_locks(&mut s.locks, route, Hold::Locked);
    command_route_points(plant, &mut s.points, route);
    true
}

fn lock(plant: &Plant, s: &mut State, r: u32) -> bool
    requires { HasShape plant.now s.old }
    ensures answer { result ≡ is_some (after_lock plant.now s.old r) }
    ensures next { s.new ≡ unwrap_or (after_lock plant.now s.old r) s.old }
{
    if r >= plant.routes() {
        return false;
    }
    let route = plant.route(r);
    let mode = s.routes.at(r as u64).mode;
    if mode != Mode::Allocating || !can_lock_if_allocating(plant, s, route) {
        return false;
    }
    s.routes.at_mut(r as u64).mode = Mode::Locked;
    *s.boards.at_mut(route.source as u64) = Aspect::Open;
    true
}

fn sense(plant: &Plant, s: &mut State, r: u32) -> bool
    requires { HasShape plant.now s.old }
    ensures answer { result ≡ is_some (after_sense plant.now s.old r) }
    ensures next { s.new ≡ unwrap_or (after_sense plant.now s.old r) s.old }
{
    if r >= plant.routes() {
        return false;
    }
    let (route, now) = route_and_state(plant, s, r);
    let seen = now.seen as u64;
    if seen >= route.path.len() || (now.mode != Mode::Locked && now.mode != Mode::Occupied) {
        return false;
    }
    let x = *route.path.at(seen);
    if !occupied(s, x) || !has_lock_state(s, x, Hold::Locked) {
        return false;
    }
    *s.locks.at_mut(x as u64) = Hold::Used;
    if seen == 0 {
        *s.boards.at_mut(route.source as u64) = Aspect::Closed;
    }
    let next = s.routes.at_mut(r as u64);
    next.mode = Mode::Occupied;
    next.seen += 1;
    true
}

fn release(plant: &Plant, s: &mut State, r: u32) -> bool
    requires { HasShape plant.now s.old }
    ensures answer { result ≡ is_some (after_release plant.now s.old r) }
    ensures next { s.new ≡ unwrap_or (after_release plant.now s.old r) s.old }
{
    if r >= plant.routes() {
        return false;
    }
    let (route, now) = route_and_state(plant, s, r);
    let rel = now.rel as u64;
    if now.mode != Mode::Occupied || rel >= route.path.len() || rel + 2 > now.seen as u64 {
        return false;
    }
    let x = *route.path.at(rel);
    if occupied(s, x) || !has_lock_state(s, x, Hold::Used) {
        return false;
    }
    *s.locks.at_mut(x as u64) = Hold::Free;
    s.routes.at_mut(r as u64).rel += 1;
    true
}

fn finish(plant: &Plant, s: &mut State, r: u32) -> bool
    requires { HasShape plant.now s.old }
    ensures answer { result ≡ is_some (after_finish plant.now s.old r) }
    ensures next { s.new ≡ unwrap_or (after_finish plant.now s.old r) s.old }
{
    if r >= plant.routes() {
        return false;
    }
    let (route, now) = route_and_state(plant, s, r);
    let length = route.path.len();
    if now.mode != Mode::Occupied || now.seen as u64 != length || now.rel as u64 + 1 != length {
        return false;
    }
    let last = last_of(&route.path);
    *s.locks.at_mut(last as u64) = Hold::Free;
    set_locks_outside_path(&mut s.locks, route, Hold::Free);
    *s.routes.at_mut(r as u64) = RouteState {
        mode: Mode::Free,
        seen: 0,
        rel: 0,
    };
    true
}

fn cancel(plant: &Plant, s: &mut State, r: u32) -> bool
    requires { HasShape plant.now s.old }
    ensures answer { result ≡ is_some (after_cancel plant.now s.old r) }
    ensures next { s.new ≡ unwrap_or (after_cancel plant.now s.old r) s.old }
{
    if r >= plant.routes() {
        return false;
    }
    let mode = s.routes.at(r as u64).mode;
    if mode != Mode::Marked && mode != Mode::Allocating {
        return false;
    }
    if mode == Mode::Allocating {
        set_route_locks(&mut s.locks, plant.route(r), Hold::Free);
    }
    s.routes.at_mut(r as u64).mode = Mode::Free;
    true
}

/// Marks route `r` (route request): it becomes Marked.
///
/// Returns `true` if and only if `r` is a Free route. Otherwise `s` doesn't change.
pub fn step_mark(plant: &Plant, s: &mut State, r: u32) -> bool
    requires { HasShape plant.now s.old }
    ensures answer { result ≡ is_some (after_mark plant.now s.old r) }
    ensures next { s.new ≡ unwrap_or (after_mark plant.now s.old r) s.old }
    ensures shape { HasShape plant.now s.new }
{
    mark(plant, s, r)
}

/// Allocates route `r`: it becomes Allocating, the locks of its path, overlap and protecting points
/// become Locked, and its listed and protecting points are commanded.
///
/// Returns `true` if and only if `r` is a Marked route and the following holds; otherwise `s`
/// doesn't change. No route that it lists as a conflict is Allocating or Locked. Every section of
/// its path, overlap and protecting points has lock Free and is vacant.
pub fn step_allocate(plant: &Plant, s: &mut State, r: u32) -> bool
    requires { HasShape plant.now s.old }
    ensures answer { result ≡ is_some (after_allocate plant.now s.old r) }
    ensures next { s.new ≡ unwrap_or (after_allocate plant.now s.old r) s.old }
    ensures shape { HasShape plant.now s.new }
{
    allocate(plant, s, r)
}

/// Locks route `r`: it becomes Locked, and its source board opens.
///
/// Returns `true` if and only if `r` is an Allocating route and the following holds; otherwise `s`
/// doesn't change. Its listed and protecting points are in position, and its protecting boards are
/// Closed. No Locked route has its source as a protecting board.
pub fn step_lock(plant: &Plant, s: &mut State, r: u32) -> bool
    requires { HasShape plant.now s.old }
    ensures answer { result ≡ is_some (after_lock plant.now s.old r) }
    ensures next { s.new ≡ unwrap_or (after_lock plant.now s.old r) s.old }
    ensures shape { HasShape plant.now s.new }
{
    lock(plant, s, r)
}

/// Senses that a train has entered the next path section of route `r`: the section's lock becomes
/// Used, `seen` grows by 1, and the route becomes Occupied. With the first section, its source
/// board closes.
///
/// Returns `true` if and only if `r` is a Locked or Occupied route, and the path section at index
/// `seen` exists, is occupied and has lock Locked. Otherwise `s` doesn't change.
pub fn step_sense(plant: &Plant, s: &mut State, r: u32) -> bool
    requires { HasShape plant.now s.old }
    ensures answer { result ≡ is_some (after_sense plant.now s.old r) }
    ensures next { s.new ≡ unwrap_or (after_sense plant.now s.old r) s.old }
    ensures shape { HasShape plant.now s.new }
{
    sense(plant, s, r)
}

/// Releases the next path section of route `r` behind a train: the section's lock becomes Free, and
/// `rel` grows by 1.
///
/// Returns `true` if and only if `r` is an Occupied route, `rel + 2` is at most `seen`, and the
/// path section at index `rel` is vacant and has lock Used. Otherwise `s` doesn't change.
pub fn step_release(plant: &Plant, s: &mut State, r: u32) -> bool
    requires { HasShape plant.now s.old }
    ensures answer { result ≡ is_some (after_release plant.now s.old r) }
    ensures next { s.new ≡ unwrap_or (after_release plant.now s.old r) s.old }
    ensures shape { HasShape plant.now s.new }
{
    release(plant, s, r)
}

/// Finishes route `r`: the locks of its last path section, overlap and protecting points become
/// Free, `seen` and `rel` become 0, and the route becomes Free.
///
/// Returns `true` if and only if `r` is an Occupied route, and `seen` and `rel + 1` both equal the
/// length of its path. Otherwise `s` doesn't change.
pub fn step_finish(plant: &Plant, s: &mut State, r: u32) -> bool
    requires { HasShape plant.now s.old }
    ensures answer { result ≡ is_some (after_finish plant.now s.old r) }
    ensures next { s.new ≡ unwrap_or (after_finish plant.now s.old r) s.old }
    ensures shape { HasShape plant.now s.new }
{
    finish(plant, s, r)
}

/// Cancels route `r`: it becomes Free. If it was Allocating, the locks of its path, overlap and
/// protecting points become Free. Its points keep their commanded positions.
///
/// Returns `true` if and only if `r` is a Marked or Allocating route. Otherwise `s` doesn't change.
pub fn step_cancel(plant: &Plant, s: &mut State, r: u32) -> bool
    requires { HasShape plant.now s.old }
    ensures answer { result ≡ is_some (after_cancel plant.now s.old r) }
    ensures next { s.new ≡ unwrap_or (after_cancel plant.now s.old r) s.old }
    ensures shape { HasShape plant.now s.new }
{
    cancel(plant, s, r)
}
