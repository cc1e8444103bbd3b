//! Names of sections, boards and routes.

ghost use Rattle.std.specs.Prelude.{◌≡◌, ◌<◌, IfOk};
ghost use Rattle.ilk_gen.specs.StationRoutes as routes;
ghost use Rattle.ilk_gen.specs.Stations as stations;

use ilk_plant::{Position, Text};
use std::alloc::{AllocError, Global};

pub(crate) fn line(alloc: Global, j: u32) -> Result<Text, AllocError>
    ensures { IfOk result (λ name. name ≡ stations.line j) }
{
    Ok(Text::of(format!(in alloc; "l{j}")?))
}

pub(crate) fn down_end_point_name(alloc: Global, j: u32) -> Result<Text, AllocError>
    ensures { IfOk result (λ name. name ≡ stations.down_end_point_name j) }
{
    Ok(Text::of(format!(in alloc; "p{j}")?))
}

pub(crate) fn track_name(alloc: Global, j: u32, at: Position) -> Result<Text, AllocError>
    ensures { IfOk result (λ name. name ≡ stations.track_name j at) }
{
    match at {
        Position::Plus => Ok(Text::of(format!(in alloc; "t{j}")?)),
        Position::Minus => Ok(Text::of(format!(in alloc; "u{j}")?)),
    }
}

pub(crate) fn up_end_point_name(alloc: Global, j: u32) -> Result<Text, AllocError>
    ensures { IfOk result (λ name. name ≡ stations.up_end_point_name j) }
{
    Ok(Text::of(format!(in alloc; "q{j}")?))
}

pub(crate) fn up_board_name_of_section(alloc: Global, section: &Text) -> Result<Text, AllocError>
    ensures { IfOk result (λ name. name ≡ stations.up_board_name_of_section section.now) }
{
    let section = section.as_str();
    Ok(Text::of(format!(in alloc; "{section}U")?))
}

pub(crate) fn down_board_name_of_section(alloc: Global, section: &Text) -> Result<Text, AllocError>
    ensures { IfOk result (λ name. name ≡ stations.down_board_name_of_section section.now) }
{
    let section = section.as_str();
    Ok(Text::of(format!(in alloc; "{section}D")?))
}

pub(crate) fn line_up_board(alloc: Global, n: u32, j: u32) -> Result<Option<Text>, AllocError>
    ensures { IfOk result (λ name. name ≡ stations.line_up_board n j) }
{
    if j < n {
        let line = line(alloc, j)?;
        Ok(Some(up_board_name_of_section(alloc, &line)?))
    } else {
        Ok(None)
    }
}

pub(crate) fn line_down_board(alloc: Global, j: u32) -> Result<Option<Text>, AllocError>
    ensures { IfOk result (λ name. name ≡ stations.line_down_board j) }
{
    if 0 < j {
        let line = line(alloc, j)?;
        Ok(Some(down_board_name_of_section(alloc, &line)?))
    } else {
        Ok(None)
    }
}

pub(crate) fn point_below(alloc: Global, j: u32) -> Result<Option<Text>, AllocError>
    ensures { IfOk result (λ name. name ≡ stations.line_down_neighbour j) }
{
    if 0 < j {
        Ok(Some(up_end_point_name(alloc, j)?))
    } else {
        Ok(None)
    }
}

pub(crate) fn point_above(alloc: Global, n: u32, j: u32) -> Result<Option<Text>, AllocError>
    ensures { IfOk result (λ name. name ≡ stations.line_up_neighbour n j) }
{
    if j < n {
        Ok(Some(down_end_point_name(alloc, j + 1)?))
    } else {
        Ok(None)
    }
}

pub(crate) fn route_name(alloc: Global, j: u32, k: u32) -> Result<Text, AllocError>
    ensures { IfOk result (λ name. name ≡ routes.route_name j k) }
{
    Ok(Text::of(format!(in alloc; "s{j}r{k}")?))
}
