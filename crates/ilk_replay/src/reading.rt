ghost use Rattle.std.specs.Prelude.{◌≡◌, IfOk, OnOk};
ghost use Rattle.ilk_lines.specs.Answers.{ResultMatchesUnlessOutOfMemory, parsed_prefix_from_parts};
ghost use Rattle.ilk_lines.specs.Lines.{unterminated_tail, lines_of};
ghost use Rattle.ilk_lines.specs.Reading.{parsed_prefix};
ghost use Rattle.ilk_plant.specs.Shape.{HasShape};
ghost use Rattle.ilk_replay.specs.EventLine.{event_from_line};
ghost use Rattle.ilk_replay.specs.Reading.{BeginningReadMatchesDefinition};
ghost use Rattle.ilk_replay.specs.Shaped.{HasShapeIfRead};
ghost use Rattle.ilk_replay.specs.Told.{beginning_from_lines, events_from_lines, run_from_text, run_from_lines};

use crate::event_line::event_from_line;
use crate::state_reading::read_state;
use crate::{Tale, Told};
use ilk_lines::{LineFault, Lines, read_while_some};
use ilk_model::Event;
use ilk_plant::{Plant, Row, State, start_state};
use std::alloc::{AllocError, Global};

fn read_event_lines(
    alloc: Global,
    plant: &Plant,
    lines: &mut Lines,
) -> Result<Row<Event>, AllocError>
    ensures told { IfOk result
        (λ events. parsed_prefix (event_from_line plant.now) lines.old.number lines.old.lines
        ≡ parsed_prefix_from_parts events lines.new) }
    ensures after { lines.new.after ≡ lines.old.after }
{
    read_while_some(alloc, lines, |line| Ok(event_from_line(plant, line)))
}

fn read_events(alloc: Global, plant: &Plant, lines: &mut Lines) -> Result<Row<Event>, LineFault>
    ensures { ResultMatchesUnlessOutOfMemory
        (events_from_lines plant.now lines.old.number lines.old.lines lines.old.after) result }
{
    let events = read_event_lines(alloc, plant, lines)?;
    lines.expect_line(b"end")?;
    lines.expect_end_of_text()?;
    Ok(events)
}

// Reads the beginning of a run, from line 2 on: its first state, and whether the text says `start`.
fn read_beginning(
    alloc: Global,
    plant: &Plant,
    lines: &mut Lines,
) -> Result<(State, bool), LineFault>
    requires { lines.old.number ≡ 2 }
    ensures told { BeginningReadMatchesDefinition (beginning_from_lines plant.now lines.old.lines)
        lines.new
        result }
    ensures after { OnOk result (lines.new.after ≡ lines.old.after) }
    ensures shape { IfOk result (λ begun. HasShape plant.now begun.0) }
{
    let line = lines.require_line()?;
    if line == b"start".as_slice() {
        let first = start_state(alloc, plant)?;
        return Ok((first, true));
    }
    if line == b"state".as_slice() {
        let first = read_state(alloc, plant, lines)?;
        return Ok((first, false));
    }
    Err(LineFault::BadLine(2))
}

fn read_told(alloc: Global, plant: &Plant, text: &[u8]) -> Result<Told, LineFault>
    ensures told { ResultMatchesUnlessOutOfMemory (run_from_lines plant.now (lines_of text.now)
        (unterminated_tail text.now))
        result }
    ensures shape { IfOk result (λ told. HasShape plant.now told.first) }
{
    let mut lines = Lines::from_text(text);
    lines.expect_line(b"run 1")?;
    let (first, from_start) = read_beginning(alloc, plant, &mut lines)?;
    let events = read_events(alloc, plant, &mut lines)?;
    Ok(Told {
        first,
        from_start,
        events,
    })
}

/// Reads a run text for `plant`. Returns its run, whose first state is well-formed, or the number
/// of its first bad line, from 1. Fails only if memory runs out.
pub fn read_run(alloc: Global, plant: &Plant, text: &[u8]) -> Result<Tale, AllocError>
    ensures tale { IfOk result (λ tale. tale ≡ run_from_text plant.now text.now) }
    ensures shape { IfOk result (HasShapeIfRead plant.now) }
{
    match read_told(alloc, plant, text) {
        Ok(told) => Ok(Tale::Told(told)),
        Err(LineFault::BadLine(line)) => Ok(Tale::Bad { line }),
        Err(LineFault::OutOfMemory) => Err(AllocError),
    }
}
