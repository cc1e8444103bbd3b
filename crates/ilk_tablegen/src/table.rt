ghost use Rattle.std.specs.Prelude.{◌≡◌, ◌≤◌, IfOk, length, map};
ghost use Rattle.ilk_plant.specs.declared.limits.TheConstants.{MAX_ROUTES};
ghost use Rattle.ilk_tablegen.specs.Table.{nth_name_or_empty, listed_point_draft, route_draft, table_draft, route_name, generation_result};

use crate::endless::first_board_with_overlong_way;
use crate::names::{board_name, optional_board_name, section_name};
use crate::routes::routes_of_ways;
use crate::walks::Walks;
use crate::ways::all_ways_within_route_limit;
use ilk_plant::{Listed, ListedDraft, Plant, Route, RouteDraft, Row, TableDraft, Text};
use std::alloc::{AllocError, Global};

fn route_name(alloc: Global, n: u32) -> Result<Text, AllocError>
    ensures { IfOk result (λ name. name ≡ route_name n) }
{
    Ok(Text::of(format!(in alloc; "g{n}")?))
}

fn section_names(alloc: Global, plant: &Plant, sections: &[u32]) -> Result<Row<Text>, AllocError>
    ensures { IfOk result (λ names. names
        ≡ map (nth_name_or_empty plant.now.section_names) sections.now) }
{
    let mut names = Row::new(alloc);
    for x in sections {
        names.push(section_name(alloc, plant, *x)?)?;
    }
    Ok(names)
}

fn board_names(alloc: Global, plant: &Plant, boards: &[u32]) -> Result<Row<Text>, AllocError>
    ensures { IfOk result (λ names. names
        ≡ map (nth_name_or_empty plant.now.board_names) boards.now) }
{
    let mut names = Row::new(alloc);
    for m in boards {
        names.push(board_name(alloc, plant, *m)?)?;
    }
    Ok(names)
}

fn route_names(alloc: Global, routes: &[u32]) -> Result<Row<Text>, AllocError>
    ensures { IfOk result (λ names. names ≡ map route_name routes.now) }
{
    let mut names = Row::new(alloc);
    for n in routes {
        names.push(route_name(alloc, *n)?)?;
    }
    Ok(names)
}

fn named_points(
    alloc: Global,
    plant: &Plant,
    points: &[Listed],
) -> Result<Row<ListedDraft>, AllocError>
    ensures { IfOk result (λ drafts. drafts ≡ map (listed_point_draft plant.now) points.now) }
{
    let mut drafts = Row::new(alloc);
    for listed in points {
        drafts.push(ListedDraft {
            point: section_name(alloc, plant, listed.point)?,
            at: listed.at,
        })?;
    }
    Ok(drafts)
}

fn route_draft(
    alloc: Global,
    plant: &Plant,
    n: u32,
    route: &Route,
) -> Result<RouteDraft, AllocError>
    ensures { IfOk result (λ draft. draft ≡ route_draft plant.now n route.now) }
{
    Ok(RouteDraft {
        name: route_name(alloc, n)?,
        source: board_name(alloc, plant, route.source)?,
        destination: optional_board_name(alloc, plant, route.destination)?,
        path: section_names(alloc, plant, route.path.as_slice())?,
        overlap: section_names(alloc, plant, route.overlap.as_slice())?,
        points: named_points(alloc, plant, route.points.as_slice())?,
        conflicts: route_names(alloc, route.conflicts.as_slice())?,
        protecting_points: named_points(alloc, plant, route.protecting_points.as_slice())?,
        protecting_boards: board_names(alloc, plant, route.protecting_boards.as_slice())?,
    })
}

fn table_draft(alloc: Global, plant: &Plant, routes: &Row<Route>) -> Result<TableDraft, AllocError>
    requires { length routes.now ≤ MAX_ROUTES }
    ensures { IfOk result (λ table. table ≡ table_draft plant.now routes.now) }
{
    let mut drafts = Row::new(alloc);
    for (n, route) in routes.as_slice().iter().enumerate() {
        drafts.push(route_draft(alloc, plant, n as u32, route)?)?;
    }
    Ok(TableDraft { routes: drafts })
}

/// Returns the interlocking table generated for the plant's network, independent of the plant's
/// routes. It has one route for each way from a board to the next board for its direction, or to
/// the end of the track.
///
/// The routes are in the order of the boards, then of the sections on the way. From the stem of a
/// point, the plus leg comes first. Route `n` is named `g` and `n` in decimal. It lists each point
/// of its path in the position along the path. Its conflicts are all other routes with which it
/// shares a section. It has no overlap, protecting points or protecting boards.
///
/// Returns `TooLong` with the first board, if any, from which some `MAX_PATH` sections lead on
/// without the end of a way. Otherwise it returns `TooMany` if there are more than `MAX_ROUTES`
/// ways. Fails only if memory runs out.
pub fn routes_of(alloc: Global, plant: &Plant) -> Result<Walks, AllocError>
    ensures { IfOk result (λ found. found ≡ generation_result plant.now) }
{
    if let Some(board) = first_board_with_overlong_way(alloc, plant)? {
        return Ok(Walks::TooLong { board });
    }
    match all_ways_within_route_limit(alloc, plant)? {
        Some(ways) => {
            let routes = routes_of_ways(alloc, plant, &ways)?;
            Ok(Walks::Routes(table_draft(alloc, plant, &routes)?))
        }
        None => Ok(Walks::TooMany),
    }
}
