//! Relations between routes, and between routes and sections.
ghost use Rattle.std.specs.Prelude.{◌≡◌, ◌==◌, map};
ghost use Rattle.std.specs.List.{list_any};
ghost use Rattle.ilk_base.specs.Option.{is_some_and};
ghost use Rattle.ilk_plant.specs.Network.{contains_section};
ghost use Rattle.ilk_plant.specs.TableRules.{sections_locked_for, path_and_overlap_of};
ghost use Rattle.ilk_routes.specs.Claims.{required_points};
ghost use Rattle.ilk_drive.specs.Awakening.{neighbours_of, route_affects_allocation_or_locking, is_source_board_on_section, numbered_route_has_element_on, source_is_protecting_board_of, route_may_affect_by_number, routes_lock_common_section, is_board_on_section, requires_point};

use ilk_base::has_number;
use ilk_plant::{Dir, Listed, Plant, Route, Row, Section, contains_section};

fn has_point(entries: &Row<Listed>, x: u32) -> bool
    ensures { result ≡ list_any (λ listed. listed.point == x) entries.now }
{
    entries.as_slice().iter().any(|listed| listed.point == x)
}

#[tactic(auto, using(crate::proofs::Held::any_mapped))]
fn is_point_of(entries: &Row<Listed>, x: u32) -> bool
    ensures { result ≡ contains_section x (map (λ listed. listed.point) entries.now) }
{
    has_point(entries, x)
}

fn is_on_way(route: &Route, x: u32) -> bool
    ensures { result ≡ contains_section x (path_and_overlap_of route.now) }
{
    contains_section(&route.path, x) || contains_section(&route.overlap, x)
}

fn locks(route: &Route, x: u32) -> bool
    ensures { result ≡ contains_section x (sections_locked_for route.now) }
{
    is_on_way(route, x) || is_point_of(&route.protecting_points, x)
}

fn locks_any(route: &Route, sections: &Row<u32>) -> bool
    ensures { result ≡ list_any (λ x.
        contains_section x (sections_locked_for route.now)) sections.now }
{
    sections.as_slice().iter().any(|x| locks(route, *x))
}

fn locks_any_entry(route: &Route, entries: &Row<Listed>) -> bool
    ensures { result
        ≡ list_any (λ listed. contains_section listed.point (sections_locked_for route.now))
        entries.now }
{
    entries
        .as_slice()
        .iter()
        .any(|listed| locks(route, listed.point))
}

#[tactic(auto, using(crate::proofs::Held::any_mapped))]
fn locks_any_point(route: &Route, entries: &Row<Listed>) -> bool
    ensures { result
        ≡ list_any (λ x. contains_section x (sections_locked_for route.now))
        (map (λ listed. listed.point) entries.now) }
{
    locks_any_entry(route, entries)
}

fn shares_way(a: &Route, b: &Route) -> bool
    ensures { result
        ≡ list_any (λ x. contains_section x (sections_locked_for b.now))
        (path_and_overlap_of a.now) }
{
    locks_any(b, &a.path) || locks_any(b, &a.overlap)
}

fn routes_lock_common_section(a: &Route, b: &Route) -> bool
    ensures { result ≡ routes_lock_common_section a.now b.now }
{
    shares_way(a, b) || locks_any_point(b, &a.protecting_points)
}

fn is_guarded_by(a: &Route, b: &Route) -> bool
    ensures { result ≡ source_is_protecting_board_of a.now b.now }
{
    has_number(b.protecting_boards.as_slice(), a.source)
}

fn bears_on(r: u32, route: &Route, other: &Route) -> bool
    ensures { result ≡ route_affects_allocation_or_locking r route.now other.now }
{
    has_number(other.conflicts.as_slice(), r)
        || (routes_lock_common_section(route, other)
            || (is_guarded_by(route, other) || is_guarded_by(other, route)))
}

pub(crate) fn route_may_affect_by_number(plant: &Plant, r: u32, q: u32) -> bool
    ensures { result ≡ route_may_affect_by_number plant.now r q }
{
    if r >= plant.routes() || q >= plant.routes() {
        return false;
    }
    bears_on(r, plant.route(r), plant.route(q))
}

fn stands_at(plant: &Plant, x: u32, m: u32) -> bool
    ensures { result ≡ is_board_on_section plant.now x m }
{
    m < plant.boards() && plant.board(m).section == x
}

fn any_stands_at(plant: &Plant, boards: &Row<u32>, x: u32) -> bool
    ensures { result ≡ list_any (is_board_on_section plant.now x) boards.now }
{
    boards.as_slice().iter().any(|m| stands_at(plant, x, *m))
}

fn wants(route: &Route, x: u32) -> bool
    ensures { result ≡ list_any (λ listed. listed.point == x) (required_points route.now) }
{
    has_point(&route.points, x) || has_point(&route.protecting_points, x)
}

// Returns whether section `x` is locked for route `q`, or has a point that it requires or one of
// its protecting boards.
pub(crate) fn numbered_route_has_element_on(plant: &Plant, x: u32, q: u32) -> bool
    ensures { result ≡ numbered_route_has_element_on plant.now x q }
{
    if q >= plant.routes() {
        return false;
    }
    let route = plant.route(q);
    locks(route, x) || (wants(route, x) || any_stands_at(plant, &route.protecting_boards, x))
}

pub(crate) fn requires_point(plant: &Plant, r: u32, x: u32) -> bool
    ensures { result ≡ requires_point plant.now r x }
{
    r < plant.routes() && wants(plant.route(r), x)
}

pub(crate) fn is_source_board_on_section(plant: &Plant, r: u32, x: u32) -> bool
    ensures { result ≡ is_source_board_on_section plant.now r x }
{
    r < plant.routes() && stands_at(plant, x, plant.route(r).source)
}

pub(crate) fn is_neighbour(plant: &Plant, x: u32, y: u32) -> bool
    ensures { result ≡ contains_section y (neighbours_of plant.now x) }
{
    if x >= plant.sections() {
        return false;
    }
    match *plant.section(x) {
        Section::Linear { down, up, .. } => down == Some(y) || up == Some(y),
        Section::Point {
            stem,
            plus,
            minus,
            faces,
        } => match faces {
            Dir::Up => stem == y || (plus == y || minus == y),
            Dir::Down => plus == y || (minus == y || stem == y),
        },
    }
}

fn is_concerned_if(plant: &Plant, x: Option<u32>, q: u32) -> bool
    ensures { result ≡ is_some_and x (λ y. numbered_route_has_element_on plant.now y q) }
{
    match x {
        Some(x) => numbered_route_has_element_on(plant, x, q),
        None => false,
    }
}

pub(crate) fn depends_on_neighbour(plant: &Plant, x: u32, q: u32) -> bool
    ensures { result ≡ list_any (λ y. numbered_route_has_element_on plant.now y q)
        (neighbours_of plant.now x) }
{
    if x >= plant.sections() {
        return false;
    }
    match *plant.section(x) {
        Section::Linear { down, up, .. } => {
            is_concerned_if(plant, down, q) || is_concerned_if(plant, up, q)
        }
        Section::Point {
            stem,
            plus,
            minus,
            faces,
        } => match faces {
            Dir::Up => {
                numbered_route_has_element_on(plant, stem, q)
                    || (numbered_route_has_element_on(plant, plus, q)
                        || numbered_route_has_element_on(plant, minus, q))
            }
            Dir::Down => {
                numbered_route_has_element_on(plant, plus, q)
                    || (numbered_route_has_element_on(plant, minus, q)
                        || numbered_route_has_element_on(plant, stem, q))
            }
        },
    }
}
