ghost use Rattle.std.specs.Prelude.{◌≡◌, [], IfOk, IsTrue};
ghost use Rattle.ilk_answers.specs.Answer.{replay_outcome_reply, replay_or_bad_line_reply};
ghost use Rattle.ilk_answers.specs.Status.{is_fault_free_command_status};
ghost use Rattle.ilk_replay.specs.Told.{run_from_text};

use crate::report::{first_bad_line_message, first_non_run_event_message, hazard_line};
use crate::{Reply, Status};
use ilk_plant::Plant;
use ilk_replay::{Seen, Tale, read_run, replay};
use std::alloc::{AllocError, Global};

fn replay_outcome_reply(alloc: Global, plant: &Plant, seen: Seen) -> Result<Reply, AllocError>
    ensures reply { IfOk result (λ made. made ≡ replay_outcome_reply plant.now seen) }
    ensures planned { IfOk result
        (λ made. IsTrue (is_fault_free_command_status made.status) × (made.certificate ≡ [])) }
{
    match seen {
        Seen::NotARun { at } => {
            let line = first_non_run_event_message(alloc, at)?;
            Ok(Reply::with_report(alloc, Status::Rejected, line))
        }
        Seen::NoHazard => {
            let line = String::from_str(alloc, "no hazard\n")?;
            Ok(Reply::with_report(alloc, Status::Rejected, line))
        }
        Seen::Hazard(at) => {
            let line = hazard_line(alloc, plant, at)?;
            Ok(Reply::with_report(alloc, Status::Good, line))
        }
    }
}

/// Returns the reply of `replay` to the run text `text`: its hazard, or why it is rejected.
pub(crate) fn replay_reply(alloc: Global, plant: &Plant, text: &[u8]) -> Result<Reply, AllocError>
    ensures reply { IfOk result (λ made. made
        ≡ replay_or_bad_line_reply plant.now (run_from_text plant.now text.now)) }
    ensures planned { IfOk result
        (λ made. IsTrue (is_fault_free_command_status made.status) × (made.certificate ≡ [])) }
{
    match read_run(alloc, plant, text)? {
        Tale::Bad { line } => {
            let line = first_bad_line_message(alloc, line)?;
            Ok(Reply::with_report(alloc, Status::Rejected, line))
        }
        Tale::Told(told) => {
            let seen = replay(alloc, plant, told.first, &told.events)?;
            replay_outcome_reply(alloc, plant, seen)
        }
    }
}
