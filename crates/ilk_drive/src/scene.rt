ghost use Rattle.std.specs.Prelude.{◌≡◌, IfOk};
ghost use Rattle.ilk_lines.specs.Answers.{ResultMatchesUnlessOutOfMemory};
ghost use Rattle.ilk_lines.specs.Lines.{unterminated_tail, lines_of};
ghost use Rattle.ilk_drive.specs.CommandLine.{command_from_line};
ghost use Rattle.ilk_drive.specs.Scene.{HasOnlyCommandsIfRead, commands_from_lines, scene_from_text};

use crate::command_line::command_from_line;
use ilk_lines::{LineFault, Lines, read_while_some};
use ilk_model::Event;
use ilk_plant::{Plant, Row};
use std::alloc::{AllocError, Global};

/// The result of reading a scenario's text: its commands, or its first bad line.
#[derive(Drop)]
pub enum Scene {
    /// The commands, in order: each an entry, or the request or cancellation of a route.
    Scene(Row<Event>),
    /// The number of the first bad line, from 1.
    Bad { line: u64 },
}

fn read_commands(alloc: Global, plant: &Plant, text: &[u8]) -> Result<Row<Event>, LineFault>
    ensures { ResultMatchesUnlessOutOfMemory (commands_from_lines plant.now (lines_of text.now)
        (unterminated_tail text.now))
        result }
{
    let mut lines = Lines::from_text(text);
    lines.expect_line(b"drive 1")?;
    let commands = read_while_some(alloc, &mut lines, |line| Ok(command_from_line(plant, line)))?;
    lines.expect_line(b"end")?;
    lines.expect_end_of_text()?;
    Ok(commands)
}

/// Reads the text of a scenario for `plant`. Returns its commands in order, or the number of its
/// first bad line, from 1. Fails only if memory runs out.
pub fn read_scene(alloc: Global, plant: &Plant, text: &[u8]) -> Result<Scene, AllocError>
    ensures scene { IfOk result (λ scene. scene ≡ scene_from_text plant.now text.now) }
    ensures commands { IfOk result HasOnlyCommandsIfRead }
{
    match read_commands(alloc, plant, text) {
        Ok(commands) => Ok(Scene::Scene(commands)),
        Err(LineFault::BadLine(line)) => Ok(Scene::Bad { line }),
        Err(LineFault::OutOfMemory) => Err(AllocError),
    }
}
