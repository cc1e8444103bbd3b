//! The interlocking table: the routes of the stations. The conflicts are constants in the code, as
//! in `WrittenRoutes`; they are proved to be the routes that share a path section.

ghost use Rattle.std.specs.Prelude.{◌≡◌, ◌≤◌, ◌∷◌, ◌++◌, [], IfOk, OnOk};
ghost use Rattle.ilk_gen.specs.StationRoutes as stations;
ghost use Rattle.ilk_gen.specs.WrittenRoutes as written;
ghost use Rattle.ilk_gen.specs.declared.making.TheConstants.{MAX_STATIONS};

use crate::names::{
    down_board_name_of_section, down_end_point_name, line, line_down_board, line_up_board,
    route_name, track_name, up_board_name_of_section, up_end_point_name,
};
use ilk_plant::{ListedDraft, Position, RouteDraft, Row, TableDraft, Text};
use std::alloc::{AllocError, Global};

fn path_of(alloc: Global, first: &Text, last: &Text) -> Result<Row<Text>, AllocError>
    ensures { IfOk result (λ path. path ≡ first.now ∷ last.now ∷ []) }
{
    let mut path = Row::new(alloc);
    path.push(first.copy()?)?;
    path.push(last.copy()?)?;
    Ok(path)
}

fn listed(alloc: Global, point: &Text, at: Position) -> Result<Row<ListedDraft>, AllocError>
    ensures { IfOk result (λ points. points ≡ record { point = point.now; at = at } ∷ []) }
{
    let mut points = Row::new(alloc);
    let point = point.copy()?;
    points.push(ListedDraft { point, at })?;
    Ok(points)
}

// The name and the boards of a route.
#[derive(Drop)]
struct Ends {
    name: Text,
    source: Text,
    destination: Option<Text>,
}

fn over_point(
    alloc: Global,
    ends: Ends,
    point: &Text,
    at: Position,
    behind: &Text,
    conflicts: Row<Text>,
) -> Result<RouteDraft, AllocError>
    ensures { IfOk result
        (λ route. route
        ≡ written.route_with_given_conflicts conflicts
        (stations.route_over_point ends.name ends.source ends.destination point.now at
        behind.now)) }
{
    let path = path_of(alloc, point, behind)?;
    let points = listed(alloc, point, at)?;
    let Ends {
        name,
        source,
        destination,
    } = ends;
    Ok(RouteDraft {
        name,
        source,
        destination,
        path,
        overlap: Row::new(alloc),
        points,
        conflicts,
        protecting_points: Row::new(alloc),
        protecting_boards: Row::new(alloc),
    })
}

fn up_into(
    alloc: Global,
    j: u32,
    k: u32,
    at: Position,
    conflicts: Row<Text>,
) -> Result<RouteDraft, AllocError>
    requires { 1 ≤ j }
    ensures { IfOk result (λ route. route
        ≡ written.route_with_given_conflicts conflicts (stations.up_route_into j k at)) }
{
    let below = line(alloc, j - 1)?;
    let point = down_end_point_name(alloc, j)?;
    let track_name = track_name(alloc, j, at)?;
    let name = route_name(alloc, j, k)?;
    let source = up_board_name_of_section(alloc, &below)?;
    let destination = Some(up_board_name_of_section(alloc, &track_name)?);
    let ends = Ends {
        name,
        source,
        destination,
    };
    over_point(alloc, ends, &point, at, &track_name, conflicts)
}

fn up_out_of(
    alloc: Global,
    n: u32,
    j: u32,
    k: u32,
    at: Position,
    conflicts: Row<Text>,
) -> Result<RouteDraft, AllocError>
    ensures { IfOk result
        (λ route. route ≡ written.route_with_given_conflicts conflicts
        (stations.up_route_out_of n j k at)) }
{
    let above = line(alloc, j)?;
    let point = up_end_point_name(alloc, j)?;
    let track_name = track_name(alloc, j, at)?;
    let name = route_name(alloc, j, k)?;
    let source = up_board_name_of_section(alloc, &track_name)?;
    let destination = line_up_board(alloc, n, j)?;
    let ends = Ends {
        name,
        source,
        destination,
    };
    over_point(alloc, ends, &point, at, &above, conflicts)
}

fn down_into(
    alloc: Global,
    j: u32,
    k: u32,
    at: Position,
    conflicts: Row<Text>,
) -> Result<RouteDraft, AllocError>
    ensures { IfOk result (λ route. route
        ≡ written.route_with_given_conflicts conflicts (stations.down_route_into j k at)) }
{
    let above = line(alloc, j)?;
    let point = up_end_point_name(alloc, j)?;
    let track_name = track_name(alloc, j, at)?;
    let name = route_name(alloc, j, k)?;
    let source = down_board_name_of_section(alloc, &above)?;
    let destination = Some(down_board_name_of_section(alloc, &track_name)?);
    let ends = Ends {
        name,
        source,
        destination,
    };
    over_point(alloc, ends, &point, at, &track_name, conflicts)
}

fn down_out_of(
    alloc: Global,
    j: u32,
    k: u32,
    at: Position,
    conflicts: Row<Text>,
) -> Result<RouteDraft, AllocError>
    requires { 1 ≤ j }
    ensures { IfOk result
        (λ route. route ≡ written.route_with_given_conflicts conflicts
        (stations.down_route_out_of j k at)) }
{
    let below = line(alloc, j - 1)?;
    let point = down_end_point_name(alloc, j)?;
    let track_name = track_name(alloc, j, at)?;
    let name = route_name(alloc, j, k)?;
    let source = down_board_name_of_section(alloc, &track_name)?;
    let destination = line_down_board(alloc, j - 1)?;
    let ends = Ends {
        name,
        source,
        destination,
    };
    over_point(alloc, ends, &point, at, &below, conflicts)
}

fn push_names(
    alloc: Global,
    j: u32,
    numbers: &[u32],
    names: &mut Row<Text>,
) -> Result<(), AllocError>
    ensures { OnOk result (names.new ≡ names.old ++ written.station_route_names j numbers.now) }
{
    for k in numbers {
        names.push(route_name(alloc, j, *k)?)?;
    }
    Ok(())
}

fn names_of(alloc: Global, j: u32, own: &[u32]) -> Result<Row<Text>, AllocError>
    ensures { IfOk result (λ names. names ≡ written.station_route_names j own.now) }
{
    let mut names = Row::new(alloc);
    push_names(alloc, j, own, &mut names)?;
    Ok(names)
}

fn names_up_out(alloc: Global, n: u32, j: u32, own: &[u32]) -> Result<Row<Text>, AllocError>
    ensures { IfOk result (λ names. names ≡ written.conflicts_up_out_of n j own.now) }
{
    let mut names = names_of(alloc, j, own)?;
    if j < n {
        push_names(alloc, j + 1, &[7, 8], &mut names)?;
    }
    Ok(names)
}

fn names_down_out(alloc: Global, j: u32, own: &[u32]) -> Result<Row<Text>, AllocError>
    ensures { IfOk result (λ names. names ≡ written.conflicts_down_out_of j own.now) }
{
    let mut names = Row::new(alloc);
    if 1 < j {
        push_names(alloc, j - 1, &[3, 4], &mut names)?;
    }
    push_names(alloc, j, own, &mut names)?;
    Ok(names)
}

fn push_station(
    alloc: Global,
    n: u32,
    j: u32,
    routes: &mut Row<RouteDraft>,
) -> Result<(), AllocError>
    requires { 1 ≤ j }
    ensures { OnOk result (routes.new ≡ routes.old ++ written.station_routes_with_conflicts n j) }
{
    let (plus, minus) = (Position::Plus, Position::Minus);
    routes.push(up_into(alloc, j, 1, plus, names_of(alloc, j, &[2, 5, 7, 8])?)?)?;
    routes.push(up_into(alloc, j, 2, minus, names_of(alloc, j, &[1, 6, 7, 8])?)?)?;
    routes.push(up_out_of(alloc, n, j, 3, plus, names_up_out(alloc, n, j, &[4, 5, 6])?)?)?;
    routes.push(up_out_of(
        alloc,
        n,
        j,
        4,
        minus,
        names_up_out(alloc, n, j, &[3, 5, 6])?,
    )?)?;
    routes.push(down_into(alloc, j, 5, plus, names_of(alloc, j, &[1, 3, 4, 6])?)?)?;
    routes.push(down_into(alloc, j, 6, minus, names_of(alloc, j, &[2, 3, 4, 5])?)?)?;
    routes.push(down_out_of(alloc, j, 7, plus, names_down_out(alloc, j, &[1, 2, 8])?)?)?;
    routes.push(down_out_of(alloc, j, 8, minus, names_down_out(alloc, j, &[1, 2, 7])?)?)
}

fn push_routes(alloc: Global, n: u32, routes: &mut Row<RouteDraft>) -> Result<(), AllocError>
    ensures { OnOk result (routes.new ≡ routes.old ++ written.all_explicit_routes n) }
{
    for i in 0..n {
        push_station(alloc, n, i + 1, routes)?;
    }
    Ok(())
}

/// Creates the interlocking table of `n` stations.
pub(crate) fn stations_table(alloc: Global, n: u32) -> Result<TableDraft, AllocError>
    requires some { 1 ≤ n }
    requires few { n ≤ MAX_STATIONS }
    ensures { IfOk result (λ table. table ≡ stations.stations_table n) }
{
    let mut routes = Row::new(alloc);
    push_routes(alloc, n, &mut routes)?;
    Ok(TableDraft { routes })
}
