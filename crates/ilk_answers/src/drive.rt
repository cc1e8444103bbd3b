ghost use Rattle.std.specs.Prelude.{◌≡◌, List, [], IfOk, IsTrue};
ghost use Rattle.ilk_drive.specs.Drive.{IsDriveOf};
ghost use Rattle.ilk_model.specs.declared.event.Event.{Event};
ghost use Rattle.ilk_answers.specs.Drives.{AnswersScenarioText, driven_reply, drive_end_status};
ghost use Rattle.ilk_answers.specs.Status.{is_fault_free_command_status};

use crate::report::{drive_end_and_length_line, first_bad_line_message};
use crate::run_text::run_text_from_start;
use crate::{Reply, Status};
use ilk_drive::{Driven, Rest, Scene, drive, drive_texts_replay_same_outcome, read_scene};
use ilk_plant::Plant;
use std::alloc::{AllocError, Global};

fn drive_end_status(rest: Rest) -> Status
    ensures { result ≡ drive_end_status rest }
{
    match rest {
        Rest::Driven => Status::Good,
        Rest::Stuck { .. } => Status::Rejected,
        Rest::Hazard(_) => Status::Unsafe,
    }
}

fn driven_reply(alloc: Global, plant: &Plant, driven: Driven) -> Result<Reply, AllocError>
    requires { (scene : List Event) × IsDriveOf plant.now scene driven }
    ensures reply { IfOk result (λ made. made ≡ driven_reply plant.now driven) }
    ensures planned { IfOk result
        (λ made. IsTrue (is_fault_free_command_status made.status) × (made.certificate ≡ [])) }
{
    drive_texts_replay_same_outcome(plant);
    let Driven { rest, events } = driven;
    let mut report = drive_end_and_length_line(alloc, plant, rest, events.len())?.into_bytes();
    let run = run_text_from_start(alloc, plant, events)?;
    report.extend_from_slice(run.as_slice())?;
    Ok(Reply::from_status_and_report_bytes(alloc, drive_end_status(rest), report))
}

/// Returns the reply of `drive` to the scenario `text`: how the simulation ended and its run, or
/// the first bad line.
pub(crate) fn drive_reply(alloc: Global, plant: &Plant, text: &[u8]) -> Result<Reply, AllocError>
    ensures reply { IfOk result (AnswersScenarioText plant.now text.now) }
    ensures planned { IfOk result
        (λ made. IsTrue (is_fault_free_command_status made.status) × (made.certificate ≡ [])) }
{
    match read_scene(alloc, plant, text)? {
        Scene::Bad { line } => {
            let line = first_bad_line_message(alloc, line)?;
            Ok(Reply::with_report(alloc, Status::Rejected, line))
        }
        Scene::Scene(commands) => {
            let driven = drive(alloc, plant, &commands)?;
            driven_reply(alloc, plant, driven)
        }
    }
}
