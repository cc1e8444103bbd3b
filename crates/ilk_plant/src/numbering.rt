ghost use Rattle.std.specs.Prelude.{◌≡◌, ◌≤◌, ◌<◌, ◌++◌, IfOk, OnOk, length, map};
ghost use Rattle.ilk_plant.specs.Draft.{boards_of_sections_from, boards_on, names_of_boards, names_of_routes, names_of_sections, number_or_len, numbered_point, numbered_route, numbered_section, section_board_if_named};
ghost use Rattle.ilk_plant.specs.declared.limits.TheConstants.{MAX_BOARDS, MAX_SECTIONS, MAX_ROUTES};

use crate::names::Names;
use crate::{
    Board, Dir, KindDraft, Listed, ListedDraft, Route, RouteDraft, Row, Section, SectionDraft, Text,
};
use std::alloc::{AllocError, Global};

/// Returns the names of `sections`, in order.
pub(crate) fn section_names(
    alloc: Global,
    sections: &Row<SectionDraft>,
) -> Result<Names, AllocError>
    requires { length sections.now ≤ MAX_SECTIONS }
    ensures { IfOk result (λ names. names ≡ names_of_sections sections.now) }
{
    let mut names = Row::new(alloc);
    for section in sections.as_slice() {
        names.push(section.name.copy()?)?;
    }
    Names::from_names(alloc, names)
}

/// Returns the names of `routes`, in order.
pub(crate) fn route_names(alloc: Global, routes: &Row<RouteDraft>) -> Result<Names, AllocError>
    requires { length routes.now ≤ MAX_ROUTES }
    ensures { IfOk result (λ names. names ≡ names_of_routes routes.now) }
{
    let mut names = Row::new(alloc);
    for route in routes.as_slice() {
        names.push(route.name.copy()?)?;
    }
    Names::from_names(alloc, names)
}

/// Boards and, in the same order, their names.
#[derive(Drop)]
pub(crate) struct NamedBoards {
    pub names: Row<Text>,
    pub boards: Row<Board>,
}

// Adds the board of section `x` for direction `dir`, if one is named.
fn push_board(
    alloc: Global,
    made: &mut NamedBoards,
    x: u32,
    dir: Dir,
    name: &Option<Text>,
) -> Result<(), AllocError>
    ensures names { OnOk result
        (made.new.names
        ≡ made.old.names ++ map (λ named. named.name) (section_board_if_named x dir name.now)) }
    ensures boards { OnOk result
        (made.new.boards
        ≡ made.old.boards ++ map (λ named. named.board) (section_board_if_named x dir name.now)) }
{
    if let Some(name) = name {
        made.names.push(name.copy()?)?;
        made.boards.push(Board { section: x, dir })?;
    }
    Ok(())
}

// Adds the boards of section `x`, first the one for direction down.
fn push_boards(
    alloc: Global,
    made: &mut NamedBoards,
    x: u32,
    kind: &KindDraft,
) -> Result<(), AllocError>
    ensures names { OnOk result
        (made.new.names ≡ made.old.names ++ map (λ named. named.name) (boards_on x kind.now)) }
    ensures boards { OnOk result
        (made.new.boards ≡ made.old.boards ++ map (λ named. named.board) (boards_on x kind.now)) }
{
    if let KindDraft::Linear {
        board_down,
        board_up,
        ..
    } = kind
    {
        push_board(alloc, made, x, Dir::Down, board_down)?;
        push_board(alloc, made, x, Dir::Up, board_up)?;
    }
    Ok(())
}

/// Returns the boards on `sections`, in numerical order, with their names.
pub(crate) fn named_boards(
    alloc: Global,
    sections: &Row<SectionDraft>,
) -> Result<NamedBoards, AllocError>
    requires { length sections.now ≤ MAX_SECTIONS }
    ensures names { IfOk result (λ made. made.names ≡ names_of_boards sections.now) }
    ensures boards { IfOk result
        (λ made. made.boards ≡ map (λ named.
        named.board) (boards_of_sections_from 0 sections.now)) }
    ensures few { IfOk result (λ made. length made.names ≤ MAX_BOARDS) }
{
    let mut made = NamedBoards {
        names: Row::new(alloc),
        boards: Row::new(alloc),
    };
    for (i, section) in sections.as_slice().iter().enumerate() {
        push_boards(alloc, &mut made, i as u32, &section.kind)?;
    }
    Ok(made)
}

fn numbers_of(alloc: Global, names: &Names, wanted: &Row<Text>) -> Result<Row<u32>, AllocError>
    ensures { IfOk result (λ numbers. numbers ≡ map (number_or_len names.now) wanted.now) }
{
    let mut numbers = Row::new(alloc);
    for name in wanted.as_slice() {
        numbers.push(names.number_or_len(name))?;
    }
    Ok(numbers)
}

fn numbered_section(sections: &Names, boards: &Names, kind: &KindDraft) -> Section
    ensures { result ≡ numbered_section sections.now boards.now kind.now }
{
    match kind {
        KindDraft::Linear {
            down,
            up,
            board_down,
            board_up,
        } => Section::Linear {
            down: sections.number_or_len_if_named(down),
            up: sections.number_or_len_if_named(up),
            board_down: boards.number_or_len_if_named(board_down),
            board_up: boards.number_or_len_if_named(board_up),
        },
        KindDraft::Point {
            stem,
            plus,
            minus,
            faces,
        } => Section::Point {
            stem: sections.number_or_len(stem),
            plus: sections.number_or_len(plus),
            minus: sections.number_or_len(minus),
            faces: *faces,
        },
    }
}

/// Returns `sections` with numbers in place of the names of neighbours and boards.
pub(crate) fn numbered_sections(
    alloc: Global,
    section_names: &Names,
    board_names: &Names,
    sections: &Row<SectionDraft>,
) -> Result<Row<Section>, AllocError>
    ensures { IfOk result
        (λ made. made
        ≡ map (λ section. numbered_section section_names.now board_names.now section.kind)
        sections.now) }
{
    let mut made = Row::new(alloc);
    for section in sections.as_slice() {
        made.push(numbered_section(section_names, board_names, &section.kind))?;
    }
    Ok(made)
}

fn numbered_points(
    alloc: Global,
    section_names: &Names,
    points: &Row<ListedDraft>,
) -> Result<Row<Listed>, AllocError>
    ensures { IfOk result (λ made. made ≡ map (numbered_point section_names.now) points.now) }
{
    let mut made = Row::new(alloc);
    for listed in points.as_slice() {
        made.push(Listed {
            point: section_names.number_or_len(&listed.point),
            at: listed.at,
        })?;
    }
    Ok(made)
}

fn numbered_route(
    alloc: Global,
    section_names: &Names,
    board_names: &Names,
    route_names: &Names,
    route: &RouteDraft,
) -> Result<Route, AllocError>
    ensures { IfOk result
        (λ made. made
        ≡ numbered_route section_names.now board_names.now route_names.now route.now) }
{
    Ok(Route {
        source: board_names.number_or_len(&route.source),
        destination: board_names.number_or_len_if_named(&route.destination),
        path: numbers_of(alloc, section_names, &route.path)?,
        overlap: numbers_of(alloc, section_names, &route.overlap)?,
        points: numbered_points(alloc, section_names, &route.points)?,
        conflicts: numbers_of(alloc, route_names, &route.conflicts)?,
        protecting_points: numbered_points(alloc, section_names, &route.protecting_points)?,
        protecting_boards: numbers_of(alloc, board_names, &route.protecting_boards)?,
    })
}

/// Returns `routes` with numbers in place of the names of sections, boards and routes.
pub(crate) fn numbered_routes(
    alloc: Global,
    section_names: &Names,
    board_names: &Names,
    route_names: &Names,
    routes: &Row<RouteDraft>,
) -> Result<Row<Route>, AllocError>
    ensures { IfOk result
        (λ made. made
        ≡ map (numbered_route section_names.now board_names.now route_names.now) routes.now) }
{
    let mut made = Row::new(alloc);
    for route in routes.as_slice() {
        made.push(numbered_route(alloc, section_names, board_names, route_names, route)?)?;
    }
    Ok(made)
}
