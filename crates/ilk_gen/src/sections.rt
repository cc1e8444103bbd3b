//! The network: the sections of the stations.

ghost use Rattle.std.specs.Prelude.{◌≡◌, ◌≤◌, ◌++◌, IfOk, OnOk};
ghost use Rattle.ilk_gen.specs.Stations as stations;

use crate::names::{
    down_board_name_of_section, down_end_point_name, line, line_down_board, line_up_board,
    point_above, point_below, track_name, up_board_name_of_section, up_end_point_name,
};
use ilk_plant::{Dir, KindDraft, NetDraft, Position, Row, SectionDraft};
use std::alloc::{AllocError, Global};

fn line_section(alloc: Global, n: u32, j: u32) -> Result<SectionDraft, AllocError>
    ensures { IfOk result (λ section. section ≡ stations.line_section n j) }
{
    let name = line(alloc, j)?;
    let down = point_below(alloc, j)?;
    let up = point_above(alloc, n, j)?;
    let board_down = line_down_board(alloc, j)?;
    let board_up = line_up_board(alloc, n, j)?;
    let kind = KindDraft::Linear {
        down,
        up,
        board_down,
        board_up,
    };
    Ok(SectionDraft { name, kind })
}

fn track_section(alloc: Global, j: u32, at: Position) -> Result<SectionDraft, AllocError>
    ensures { IfOk result (λ section. section ≡ stations.track_section j at) }
{
    let name = track_name(alloc, j, at)?;
    let down = down_end_point_name(alloc, j)?;
    let up = up_end_point_name(alloc, j)?;
    let board_down = down_board_name_of_section(alloc, &name)?;
    let board_up = up_board_name_of_section(alloc, &name)?;
    let kind = KindDraft::Linear {
        down: Some(down),
        up: Some(up),
        board_down: Some(board_down),
        board_up: Some(board_up),
    };
    Ok(SectionDraft { name, kind })
}

fn down_end_point_section(alloc: Global, j: u32) -> Result<SectionDraft, AllocError>
    requires { 1 ≤ j }
    ensures { IfOk result (λ section. section ≡ stations.down_end_point_section j) }
{
    let name = down_end_point_name(alloc, j)?;
    let stem = line(alloc, j - 1)?;
    let plus = track_name(alloc, j, Position::Plus)?;
    let minus = track_name(alloc, j, Position::Minus)?;
    let kind = KindDraft::Point {
        stem,
        plus,
        minus,
        faces: Dir::Up,
    };
    Ok(SectionDraft { name, kind })
}

fn up_end_point_section(alloc: Global, j: u32) -> Result<SectionDraft, AllocError>
    ensures { IfOk result (λ section. section ≡ stations.up_end_point_section j) }
{
    let name = up_end_point_name(alloc, j)?;
    let stem = line(alloc, j)?;
    let plus = track_name(alloc, j, Position::Plus)?;
    let minus = track_name(alloc, j, Position::Minus)?;
    let kind = KindDraft::Point {
        stem,
        plus,
        minus,
        faces: Dir::Down,
    };
    Ok(SectionDraft { name, kind })
}

fn push_station(
    alloc: Global,
    n: u32,
    j: u32,
    sections: &mut Row<SectionDraft>,
) -> Result<(), AllocError>
    requires { 1 ≤ j }
    ensures { OnOk result
        (sections.new ≡ sections.old ++ stations.sections_of_station_and_line_above n j) }
{
    sections.push(down_end_point_section(alloc, j)?)?;
    sections.push(track_section(alloc, j, Position::Plus)?)?;
    sections.push(track_section(alloc, j, Position::Minus)?)?;
    sections.push(up_end_point_section(alloc, j)?)?;
    sections.push(line_section(alloc, n, j)?)
}

fn push_stations(alloc: Global, n: u32, sections: &mut Row<SectionDraft>) -> Result<(), AllocError>
    ensures { OnOk result (sections.new ≡ sections.old ++ stations.all_station_sections n) }
{
    for i in 0..n {
        push_station(alloc, n, i + 1, sections)?;
    }
    Ok(())
}

/// Creates the network of `n` stations.
pub(crate) fn stations_net(alloc: Global, n: u32) -> Result<NetDraft, AllocError>
    ensures { IfOk result (λ net. net ≡ stations.stations_net n) }
{
    let mut sections = Row::new(alloc);
    sections.push(line_section(alloc, n, 0)?)?;
    push_stations(alloc, n, &mut sections)?;
    Ok(NetDraft { sections })
}
