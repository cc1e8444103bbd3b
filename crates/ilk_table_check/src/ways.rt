ghost use Rattle.std.specs.Prelude.{◌≡◌, ◌==◌, slice_get, take, ◌∷◌, ◌||◌, not};
ghost use Rattle.std.specs.List.{list_all, list_any};
ghost use Rattle.std.specs.Option.{option_copied};
ghost use Rattle.ilk_plant.specs.Network.{contains_section, last_of};
ghost use Rattle.ilk_base.specs.Option.{is_some_and};
ghost use Rattle.ilk_plant.specs.TableRules.{nonprotecting_points_of};
ghost use Rattle.ilk_plant.specs.Plant.{is_point_section};
ghost use Rattle.ilk_plant.specs.ColumnRules.{has_no_board, destination_is_first_board, is_leg_at_position, is_listed_towards_any_section, overlap_is_connected, path_destination_is_first_board, is_path_connected_from_source, path_and_overlap_points_listed, points_listed_along_sections, ends_at_destination_or_border};

use crate::twice::any_names;
use ilk_plant::{Board, Dir, Listed, Plant, Position, Route, Row, Section, is_leg_at_position};

fn section_at(plant: &Plant, x: u32) -> Option<&Section>
    ensures { option_copied result ≡ slice_get plant.now.sections x }
{
    if x < plant.sections() {
        Some(plant.section(x))
    } else {
        None
    }
}

fn source_of(plant: &Plant, route: &Route) -> Option<Board>
    ensures { result ≡ slice_get plant.now.boards route.now.source }
{
    if route.source < plant.boards() {
        Some(*plant.board(route.source))
    } else {
        None
    }
}

/// Returns whether each path section is next to the one before, in the route's direction. The first
/// must be next to the source's section.
pub(crate) fn is_path_connected_from_source(plant: &Plant, route: &Route) -> bool
    ensures { result ≡ is_path_connected_from_source plant.now route.now }
{
    match source_of(plant, route) {
        Some(source) => plant.is_connected_chain(source.dir, source.section, route.path.as_slice()),
        None => false,
    }
}

fn has_no_board(plant: &Plant, d: Dir, x: u32) -> bool
    ensures { result ≡ has_no_board plant.now d x }
{
    match section_at(plant, x) {
        Some(section) => section.board_on(d).is_none(),
        None => true,
    }
}

fn ends_path(plant: &Plant, d: Dir, destination: Option<u32>, x: u32) -> bool
    ensures { result ≡ ends_at_destination_or_border plant.now d destination x }
{
    match (destination, section_at(plant, x)) {
        (Some(m), Some(section)) => section.board_on(d) == Some(m),
        (Some(_), None) => false,
        (None, Some(section)) => section.nth_neighbour_on(d, 0).is_none(),
        (None, None) => true,
    }
}

fn have_no_board(plant: &Plant, d: Dir, sections: &[u32]) -> bool
    ensures { result ≡ list_all (has_no_board plant.now d) sections.now }
{
    sections.iter().all(|x| has_no_board(plant, d, *x))
}

fn destination_is_first_board(
    plant: &Plant,
    d: Dir,
    destination: Option<u32>,
    path: &Row<u32>,
) -> bool
    ensures { result ≡ destination_is_first_board plant.now d destination path.now }
{
    match path.as_slice() {
        [before @ .., last] => {
            have_no_board(plant, d, before) && ends_path(plant, d, destination, *last)
        }
        [] => false,
    }
}

/// Returns whether no path section before the last has a board in the route's direction, and the
/// last has the destination. Without a destination, the last section must have no neighbour in that
/// direction.
pub(crate) fn path_destination_is_first_board(plant: &Plant, route: &Route) -> bool
    ensures { result ≡ path_destination_is_first_board plant.now route.now }
{
    match source_of(plant, route) {
        Some(source) => destination_is_first_board(
            plant,
            source.dir,
            route.destination,
            &route.path,
        ),
        None => false,
    }
}

fn is_point_section(plant: &Plant, x: u32) -> bool
    ensures { result ≡ is_point_section plant.now x }
{
    match section_at(plant, x) {
        Some(section) => section.is_point(),
        None => false,
    }
}

fn leads_along(plant: &Plant, x: u32, at: Position, before: u32, rest: &[u32]) -> bool
    ensures { result
        ≡ list_any (λ y. is_some_and (slice_get plant.now.sections x) (is_leg_at_position at y))
        (before ∷ take 1 rest.now) }
{
    is_leg_at_position(plant, x, at, before)
        || match rest {
            [after, ..] => is_leg_at_position(plant, x, at, *after),
            [] => false,
        }
}

fn is_listed_towards_any_section(
    plant: &Plant,
    points: &Row<Listed>,
    before: u32,
    rest: &[u32],
    x: u32,
) -> bool
    ensures { result ≡ is_listed_towards_any_section plant.now points.now
        (before ∷ take 1 rest.now) x }
{
    points.as_slice().iter().any(|listed| listed.point == x
        && leads_along(plant, x, listed.at, before, rest))
}

fn leads_through(plant: &Plant, points: &Row<Listed>, before: u32, rest: &[u32], x: u32) -> bool
    ensures { result
        ≡
        (not (is_point_section plant.now x)
        || is_listed_towards_any_section plant.now points.now (before ∷ take 1 rest.now) x) }
{
    !is_point_section(plant, x) || is_listed_towards_any_section(plant, points, before, rest, x)
}

fn points_listed_along_sections(
    plant: &Plant,
    points: &Row<Listed>,
    start: u32,
    path: &Row<u32>,
) -> bool
    ensures { result ≡ points_listed_along_sections plant.now points.now start path.now }
{
    let path = path.as_slice();
    let mut before = start;
    for (i, x) in path.iter().enumerate() {
        if !leads_through(plant, points, before, &path[i + 1..], *x) {
            return false;
        }
        before = *x;
    }
    true
}

fn is_listed_if_point(plant: &Plant, route: &Route, x: u32) -> bool
    ensures { result ≡ (not (is_point_section plant.now x) || contains_section x
        (nonprotecting_points_of route.now)) }
{
    !is_point_section(plant, x) || any_names(route.points.as_slice(), x)
}

fn overlap_points_are_listed(plant: &Plant, route: &Route) -> bool
    ensures { result
        ≡ list_all
        (λ x. not (is_point_section plant.now x)
        || contains_section x (nonprotecting_points_of route.now))
        route.now.overlap }
{
    let overlap = route.overlap.as_slice();
    overlap.iter().all(|x| is_listed_if_point(plant, route, *x))
}

/// Returns whether the route lists each point of its path, in the position that leads to the
/// section before or after it, and each point of its overlap.
pub(crate) fn path_and_overlap_points_listed(plant: &Plant, route: &Route) -> bool
    ensures { result ≡ path_and_overlap_points_listed plant.now route.now }
{
    match source_of(plant, route) {
        Some(source) => {
            points_listed_along_sections(plant, &route.points, source.section, &route.path)
                && overlap_points_are_listed(plant, route)
        }
        None => false,
    }
}

#[tactic(auto, using(crate::proofs::Last::last_at))]
fn last_of(sections: &[u32]) -> Option<u32>
    ensures { result ≡ last_of sections.now }
{
    match sections {
        [.., last] => Some(*last),
        [] => None,
    }
}

/// Returns whether each overlap section is next to the one before, in the route's direction. The
/// first must be next to the path's last section.
pub(crate) fn overlap_is_connected(plant: &Plant, route: &Route) -> bool
    ensures { result ≡ overlap_is_connected plant.now route.now }
{
    match (source_of(plant, route), last_of(route.path.as_slice())) {
        (Some(source), Some(last)) => plant.is_connected_chain(
            source.dir,
            last,
            route.overlap.as_slice(),
        ),
        _ => false,
    }
}
