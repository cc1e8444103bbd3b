ghost use Rattle.std.specs.Prelude.{◌≡◌, IfOk, OnOk};
ghost use Rattle.std.specs.List.{range_with_len};
ghost use Rattle.ilk_lines.specs.Answers.{PrefixMatchesUnlessOutOfMemory, parsed_prefix_from_parts};
ghost use Rattle.ilk_lines.specs.Reading.{item_values_from_lines, parsed_prefix, indices_of_list};
ghost use Rattle.ilk_plant.specs.Shape.{HasShape};
ghost use Rattle.ilk_replay.specs.StateLine.{board_from_line, lock_from_line, point_from_line, route_from_line, train_from_line};
ghost use Rattle.ilk_replay.specs.StateTold.{all_point_sections, full_state_from_lines};
ghost use Rattle.ilk_replay.specs.Reading.{StateReadMatchesDefinition};

use crate::state_line::{
    board_from_line, lock_from_line, point_from_line, route_from_line, train_from_line,
};
use ilk_lines::{LineFault, Lines, read_one_line_per_item, read_while_some};
use ilk_plant::{Aspect, Hold, Plant, PointState, RouteState, Row, State, Train};
use std::alloc::{AllocError, Global};

#[tactic(auto, using(crate::proofs::Items::numbered_more))]
fn numbers_below(alloc: Global, count: u32) -> Result<Row<u32>, AllocError>
    ensures { IfOk result (λ numbers. numbers ≡ range_with_len 0 count) }
{
    let mut numbers = Row::new(alloc);
    for n in 0..count {
        numbers.push(n)?;
    }
    Ok(numbers)
}

#[tactic(auto, using(crate::proofs::Items::listed_more, crate::proofs::Items::listed_same))]
/// Returns the numbers of the point sections, in order.
pub(crate) fn all_point_sections(alloc: Global, plant: &Plant) -> Result<Row<u32>, AllocError>
    ensures { IfOk result (λ numbers. numbers ≡ all_point_sections plant.now) }
{
    let mut numbers = Row::new(alloc);
    for x in 0..plant.sections() {
        if plant.section(x).is_point() {
            numbers.push(x)?;
        }
    }
    Ok(numbers)
}

fn read_routes(
    alloc: Global,
    plant: &Plant,
    lines: &mut Lines,
) -> Result<Row<RouteState>, LineFault>
    ensures told { PrefixMatchesUnlessOutOfMemory
        (item_values_from_lines (route_from_line plant.now) (indices_of_list plant.now.routes)
        lines.old.number
        lines.old.lines) lines.new result }
    ensures after { OnOk result (lines.new.after ≡ lines.old.after) }
{
    let routes = numbers_below(alloc, plant.routes())?;
    read_one_line_per_item(
        alloc,
        lines,
        routes.as_slice(),
        |r, line| route_from_line(plant, r, line),
    )
}

fn read_points(
    alloc: Global,
    plant: &Plant,
    lines: &mut Lines,
) -> Result<Row<PointState>, LineFault>
    ensures told { PrefixMatchesUnlessOutOfMemory
        (item_values_from_lines (point_from_line plant.now)
        (all_point_sections plant.now) lines.old.number
        lines.old.lines) lines.new result }
    ensures after { OnOk result (lines.new.after ≡ lines.old.after) }
{
    let points = all_point_sections(alloc, plant)?;
    read_one_line_per_item(
        alloc,
        lines,
        points.as_slice(),
        |x, line| point_from_line(plant, x, line),
    )
}

fn read_boards(alloc: Global, plant: &Plant, lines: &mut Lines) -> Result<Row<Aspect>, LineFault>
    ensures told { PrefixMatchesUnlessOutOfMemory
        (item_values_from_lines (board_from_line plant.now) (indices_of_list plant.now.boards)
        lines.old.number
        lines.old.lines) lines.new result }
    ensures after { OnOk result (lines.new.after ≡ lines.old.after) }
{
    let boards = numbers_below(alloc, plant.boards())?;
    read_one_line_per_item(
        alloc,
        lines,
        boards.as_slice(),
        |m, line| board_from_line(plant, m, line),
    )
}

fn read_locks(alloc: Global, plant: &Plant, lines: &mut Lines) -> Result<Row<Hold>, LineFault>
    ensures told { PrefixMatchesUnlessOutOfMemory
        (item_values_from_lines (lock_from_line plant.now) (indices_of_list plant.now.sections)
        lines.old.number
        lines.old.lines) lines.new result }
    ensures after { OnOk result (lines.new.after ≡ lines.old.after) }
{
    let sections = numbers_below(alloc, plant.sections())?;
    read_one_line_per_item(
        alloc,
        lines,
        sections.as_slice(),
        |x, line| lock_from_line(plant, x, line),
    )
}

fn read_trains(alloc: Global, plant: &Plant, lines: &mut Lines) -> Result<Row<Train>, AllocError>
    ensures told { IfOk result
        (λ trains. parsed_prefix (train_from_line plant.now) lines.old.number lines.old.lines
        ≡ parsed_prefix_from_parts trains lines.new) }
    ensures after { lines.new.after ≡ lines.old.after }
{
    read_while_some(alloc, lines, |line| train_from_line(alloc, plant, line))
}

/// Reads a state, from line 3 up to the line `events`.
pub(crate) fn read_state(
    alloc: Global,
    plant: &Plant,
    lines: &mut Lines,
) -> Result<State, LineFault>
    requires { lines.old.number ≡ 3 }
    ensures told { StateReadMatchesDefinition (full_state_from_lines plant.now lines.old.lines)
        lines.new result }
    ensures after { OnOk result (lines.new.after ≡ lines.old.after) }
    ensures shape { IfOk result (HasShape plant.now) }
{
    plant.prove_is_plant();
    let routes = read_routes(alloc, plant, lines)?;
    let points = read_points(alloc, plant, lines)?;
    let boards = read_boards(alloc, plant, lines)?;
    let locks = read_locks(alloc, plant, lines)?;
    let trains = read_trains(alloc, plant, lines)?;
    lines.expect_line(b"events")?;
    Ok(State {
        routes,
        points,
        boards,
        locks,
        trains,
    })
}
