ghost use Rattle.std.specs.Prelude.{◌≡◌, ◌<◌, [], ◌∷◌, All, length, map};
ghost use Rattle.ilk_plant.specs.Plant.{point_count};
ghost use Rattle.ilk_plant.specs.TableRules.{sections_locked_for};
ghost use Rattle.ilk_routes.specs.Claims.{sections_outside_path, required_points};
ghost use Rattle.ilk_routes.specs.Lies.{with_commands};
ghost use Rattle.ilk_routes.specs.Locks.{with_locks};

use ilk_plant::{Hold, Listed, Plant, PointState, Route, Row};

/// Makes `hold` the lock of each of `sections`.
pub(crate) fn set_section_locks(locks: &mut Row<Hold>, sections: &Row<u32>, hold: Hold)
    requires { All (λ x. x < length locks.old) sections.now }
    ensures long { length locks.new ≡ length locks.old }
    ensures locks { locks.new ≡ with_locks locks.old sections.now hold }
{
    for x in sections.as_slice() {
        *locks.at_mut(*x as u64) = hold;
    }
}

fn give_point_locks(locks: &mut Row<Hold>, points: &Row<Listed>, hold: Hold)
    requires { All (λ listed. listed.point < length locks.old) points.now }
    ensures long { length locks.new ≡ length locks.old }
    ensures locks { locks.new
        ≡ with_locks locks.old (map (λ listed. listed.point) points.now) hold }
{
    for listed in points.as_slice() {
        *locks.at_mut(listed.point as u64) = hold;
    }
}

/// Makes `hold` the lock of each section of the route's overlap and protecting points.
pub(crate) fn set_locks_outside_path(locks: &mut Row<Hold>, route: &Route, hold: Hold)
    requires overlap { All (λ x. x < length locks.old) route.now.overlap }
    requires protecting { All (λ listed. listed.point < length locks.old)
        route.now.protecting_points }
    ensures long { length locks.new ≡ length locks.old }
    ensures locks { locks.new ≡ with_locks locks.old (sections_outside_path route.now) hold }
{
    set_section_locks(locks, &route.overlap, hold);
    give_point_locks(locks, &route.protecting_points, hold);
}

/// Makes `hold` the lock of each section of the route's path, overlap and protecting points.
pub(crate) fn set_route_locks(locks: &mut Row<Hold>, route: &Route, hold: Hold)
    requires path { All (λ x. x < length locks.old) route.now.path }
    requires overlap { All (λ x. x < length locks.old) route.now.overlap }
    requires protecting { All (λ listed. listed.point < length locks.old)
        route.now.protecting_points }
    ensures long { length locks.new ≡ length locks.old }
    ensures locks { locks.new ≡ with_locks locks.old (sections_locked_for route.now) hold }
{
    set_section_locks(locks, &route.path, hold);
    set_section_locks(locks, &route.overlap, hold);
    give_point_locks(locks, &route.protecting_points, hold);
}

fn command_point(plant: &Plant, points: &mut Row<PointState>, listed: &Listed)
    requires known { listed.now.point < length plant.now.sections }
    requires points { length points.old ≡ point_count plant.now }
    ensures long { length points.new ≡ length points.old }
    ensures points { points.new ≡ with_commands plant.now points.old (listed.now ∷ []) }
{
    if let Some(n) = plant.point_number(listed.point) {
        points.at_mut(n as u64).to = listed.at;
    }
}

/// Makes the listed position of each of `listed_points` the commanded position of that point.
pub(crate) fn command_points(
    plant: &Plant,
    points: &mut Row<PointState>,
    listed_points: &Row<Listed>,
)
    requires known { All (λ listed. listed.point < length plant.now.sections) listed_points.now }
    requires points { length points.old ≡ point_count plant.now }
    ensures long { length points.new ≡ length points.old }
    ensures points { points.new ≡ with_commands plant.now points.old listed_points.now }
{
    for listed in listed_points.as_slice() {
        command_point(plant, points, listed);
    }
}

/// Commands each listed or protecting point of the route to the position that the route requires.
pub(crate) fn command_route_points(plant: &Plant, points: &mut Row<PointState>, route: &Route)
    requires listed { All (λ listed. listed.point < length plant.now.sections) route.now.points }
    requires protecting { All (λ listed. listed.point < length plant.now.sections)
        route.now.protecting_points }
    requires points { length points.old ≡ point_count plant.now }
    ensures { points.new ≡ with_commands plant.now points.old (required_points route.now) }
{
    command_points(plant, points, &route.points);
    command_points(plant, points, &route.protecting_points);
}
