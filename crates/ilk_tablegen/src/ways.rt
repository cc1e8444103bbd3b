ghost use Rattle.std.specs.Prelude.{◌≡◌, ◌++◌, ◌<◌, All, IfOk, OnOk, None, flat_map, length, map, nat_lt, option_to_list};
ghost use Rattle.ilk_plant.specs.Network.{last_of};
ghost use Rattle.ilk_tablegen.specs.Rounds.{empty_way_per_board, all_ways_within_route_limit, last_section_or_start, is_finished_way, extensions_of_way_or_itself, extended_way};
ghost use Rattle.ilk_tablegen.specs.Ways.{first_board_with_overlong_way};
ghost use Rattle.ilk_plant.specs.declared.limits.TheConstants.{MAX_ROUTES};

use crate::ends::way_ends_at_section;
use ilk_plant::{Board, MAX_PATH, MAX_ROUTES, Plant, Row};
use std::alloc::{AllocError, Global};

/// A way (candidate route path) from board `from`, whose number is `source`: the sections listed so
/// far.
#[derive(Drop)]
pub(crate) struct WayFromBoard {
    pub source: u32,
    pub from: Board,
    pub path: Row<u32>,
}

/// Returns the last section of `way`, or `None` if it has no section yet.
#[tactic(auto, using(ilk_base::proofs::Lists::last_item))]
pub(crate) fn last_section(way: &WayFromBoard) -> Option<u32>
    ensures { result ≡ last_of way.now.path }
{
    way.path.as_slice().last().copied()
}

fn head_of(way: &WayFromBoard) -> u32
    ensures { result ≡ last_section_or_start way.now }
{
    match last_section(way) {
        Some(x) => x,
        None => way.from.section,
    }
}

fn is_ended(plant: &Plant, way: &WayFromBoard) -> bool
    requires { last_section_or_start way.now < length plant.now.sections }
    ensures { result ≡ is_finished_way plant.now way.now }
{
    way.path.len() != 0 && way_ends_at_section(plant, way.from.dir, head_of(way))
}

fn way_over(alloc: Global, way: &WayFromBoard, y: u32) -> Result<WayFromBoard, AllocError>
    ensures { IfOk result (λ made. made ≡ extended_way way.now y) }
{
    let mut path = way.path.copy()?;
    path.push(y)?;
    Ok(WayFromBoard {
        source: way.source,
        from: way.from,
        path,
    })
}

fn push_over(
    alloc: Global,
    made: &mut Row<WayFromBoard>,
    way: &WayFromBoard,
    next: Option<u32>,
) -> Result<(), AllocError>
    ensures { OnOk result (made.new ≡ made.old
        ++ map (extended_way way.now) (option_to_list next)) }
{
    if let Some(y) = next {
        made.push(way_over(alloc, way, y)?)?;
    }
    Ok(())
}

fn push_longer(
    alloc: Global,
    plant: &Plant,
    made: &mut Row<WayFromBoard>,
    way: &WayFromBoard,
) -> Result<(), AllocError>
    requires { last_section_or_start way.now < length plant.now.sections }
    ensures { OnOk result (made.new ≡ made.old ++ extensions_of_way_or_itself plant.now way.now) }
{
    if is_ended(plant, way) {
        made.push(WayFromBoard {
            source: way.source,
            from: way.from,
            path: way.path.copy()?,
        })
    } else {
        let x = head_of(way);
        push_over(alloc, made, way, plant.neighbour(x, way.from.dir, 0))?;
        push_over(alloc, made, way, plant.neighbour(x, way.from.dir, 1))
    }
}

// Lengthens each way that hasn't ended by one section, over all legs that it can take.
fn all_longer(
    alloc: Global,
    plant: &Plant,
    ways: &Row<WayFromBoard>,
) -> Result<Row<WayFromBoard>, AllocError>
    requires { All (λ way. last_section_or_start way < length plant.now.sections) ways.now }
    ensures { IfOk result (λ made. made
        ≡ flat_map (extensions_of_way_or_itself plant.now) ways.now) }
{
    let mut made = Row::new(alloc);
    for way in ways.as_slice() {
        push_longer(alloc, plant, &mut made, way)?;
    }
    Ok(made)
}

fn begun_ways(alloc: Global, plant: &Plant) -> Result<Row<WayFromBoard>, AllocError>
    ensures { IfOk result (λ ways. ways ≡ empty_way_per_board plant.now) }
{
    let mut ways = Row::new(alloc);
    for m in 0..plant.boards() {
        ways.push(WayFromBoard {
            source: m,
            from: *plant.board(m),
            path: Row::new(alloc),
        })?;
    }
    Ok(ways)
}

fn are_too_many(ways: &Row<WayFromBoard>) -> bool
    ensures { result ≡ nat_lt MAX_ROUTES (length ways.now) }
{
    ways.len() > MAX_ROUTES
}

/// Returns the ways of the network. Each has to end within `MAX_PATH` sections. Returns `None` if
/// there are more than `MAX_ROUTES`.
pub(crate) fn all_ways_within_route_limit(
    alloc: Global,
    plant: &Plant,
) -> Result<Option<Row<WayFromBoard>>, AllocError>
    requires { first_board_with_overlong_way plant.now ≡ None }
    ensures { IfOk result (λ ways. ways ≡ all_ways_within_route_limit plant.now) }
{
    plant.prove_is_plant();
    let mut ways = begun_ways(alloc, plant)?;
    for _i in 0..MAX_PATH {
        ways = all_longer(alloc, plant, &ways)?;
        if are_too_many(&ways) {
            return Ok(None);
        }
    }
    Ok(Some(ways))
}
