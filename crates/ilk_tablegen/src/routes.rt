ghost use Rattle.std.specs.Prelude.{◌≡◌, ◌==◌, ◌&&◌, ◌≤◌, IfOk, length, map, not};
ghost use Rattle.ilk_plant.specs.declared.limits.TheConstants.{MAX_ROUTES};
ghost use Rattle.ilk_tablegen.specs.Flags.{any_section_flagged, conflicts_by_flags, path_membership_flags, paths_of_ways, route_by_flags};
ghost use Rattle.ilk_tablegen.specs.Routes.{destination_of, network_routes};
ghost use Rattle.ilk_tablegen.specs.Ways.{all_ways};

use crate::flags::{any_section_flagged, path_membership_flags};
use crate::points::points_along;
use crate::ways::{WayFromBoard, last_section};
use ilk_plant::{Plant, Route, Row};
use std::alloc::{AllocError, Global};

fn path_flags(
    alloc: Global,
    count: u32,
    ways: &Row<WayFromBoard>,
) -> Result<Row<Row<bool>>, AllocError>
    ensures { IfOk result (λ flags. flags ≡
        map (path_membership_flags count) (paths_of_ways ways.now)) }
{
    let mut flags = Row::new(alloc);
    for way in ways.as_slice() {
        flags.push(path_membership_flags(alloc, count, way.path.as_slice())?)?;
    }
    Ok(flags)
}

fn is_conflict(n: u32, k: u32, other: &Row<bool>, path: &[u32]) -> bool
    ensures { result ≡ (not (k == n) && any_section_flagged other.now path.now) }
{
    k != n && any_section_flagged(other.as_slice(), path)
}

fn conflicts_by_flags(
    alloc: Global,
    flags: &Row<Row<bool>>,
    n: u32,
    path: &[u32],
) -> Result<Row<u32>, AllocError>
    requires { length flags.now ≤ MAX_ROUTES }
    ensures { IfOk result (λ conflicts. conflicts ≡ conflicts_by_flags flags.now n path.now) }
{
    let mut conflicts = Row::new(alloc);
    for (k, other) in flags.as_slice().iter().enumerate() {
        let shares = is_conflict(n, k as u32, other, path);
        conflicts.push_if(shares, k as u32)?;
    }
    Ok(conflicts)
}

fn destination_of(plant: &Plant, way: &WayFromBoard) -> Option<u32>
    ensures { result ≡ destination_of plant.now way.now }
{
    match last_section(way) {
        Some(x) if x < plant.sections() => plant.board_of(x, way.from.dir),
        _ => None,
    }
}

// Creates the route of way `n`. `flags` has the sections of each way.
fn route_of_way(
    alloc: Global,
    plant: &Plant,
    flags: &Row<Row<bool>>,
    n: u32,
    way: &WayFromBoard,
) -> Result<Route, AllocError>
    requires { length flags.now ≤ MAX_ROUTES }
    ensures { IfOk result (λ route. route ≡ route_by_flags plant.now flags.now n way.now) }
{
    Ok(Route {
        source: way.source,
        destination: destination_of(plant, way),
        path: way.path.copy()?,
        overlap: Row::new(alloc),
        points: points_along(alloc, plant, way.from.section, way.path.as_slice())?,
        conflicts: conflicts_by_flags(alloc, flags, n, way.path.as_slice())?,
        protecting_points: Row::new(alloc),
        protecting_boards: Row::new(alloc),
    })
}

/// Creates the routes of the network: one for each of `ways`, in order.
pub(crate) fn routes_of_ways(
    alloc: Global,
    plant: &Plant,
    ways: &Row<WayFromBoard>,
) -> Result<Row<Route>, AllocError>
    requires all { ways.now ≡ all_ways plant.now }
    requires few { length ways.now ≤ MAX_ROUTES }
    ensures exact { IfOk result (λ routes. routes ≡ network_routes plant.now) }
    ensures few { IfOk result (λ routes. length routes ≤ MAX_ROUTES) }
{
    plant.prove_is_plant();
    let flags = path_flags(alloc, plant.sections(), ways)?;
    let mut routes = Row::new(alloc);
    for (n, way) in ways.as_slice().iter().enumerate() {
        routes.push(route_of_way(alloc, plant, &flags, n as u32, way)?)?;
    }
    Ok(routes)
}
