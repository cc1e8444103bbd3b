ghost use Rattle.std.specs.Prelude.{◌≡◌, ℕ, List, true, false, IfErr, IfOk, IsTrue, Ok, Err, Some, is_ok};
ghost use Rattle.ilk_answers.specs.Besides.{AnswersForSomeExtraInput};
ghost use Rattle.ilk_answers.specs.Reply.{HasAllowedStatusAndCertificate};
ghost use Rattle.ilk_top.specs.Handled.{SourceReadAndFaultCounted};
ghost use Rattle.ilk_words.specs.Limits.{within_conf_option_limits, within_extra_option_limits};
ghost use Rattle.ilk_words.specs.Plan.{extra_limit, limit_if_extra, may_certify};

use crate::no_reply::NoReply;
use crate::pieces::feed_whole_source_to_reader;
use ilk_answers::{ExtraInputReader, Reply, answer, answer_on_plant_without_extra};
use ilk_io::{ReadError, Source};
use ilk_plant::Plant;
use ilk_words::{ConfCommand, ExtraCommand};
use std::alloc::Global;

fn unless_failed<T: Drop>(read: Result<(), ReadError>, into: T) -> Result<T, ReadError>
    ensures kept { IfOk result (λ kept. (kept ≡ into) × (read ≡ Ok tt)) }
    ensures failed { IfErr result (λ error. read ≡ Err error) }
{
    match read {
        Ok(()) => Ok(into),
        Err(error) => Err(error),
    }
}

fn reply_to_extra<D: Source>(
    alloc: Global,
    command: ExtraCommand,
    plant: &Plant,
    extra: &mut D,
) -> Result<Reply, NoReply>
    requires { IsTrue (within_extra_option_limits command) }
    ensures reply { IfOk result (λ made. (file : List ℕ) →
        AnswersForSomeExtraInput (ConfCommand.WithExtra file command) (Ok plant.now)
        (D.left extra.old) made) }
    ensures planned { IfOk result (HasAllowedStatusAndCertificate false) }
    ensures handled { SourceReadAndFaultCounted D.left D.faults (Some true)
        (Some (extra_limit command))
        (result ≡ Err NoReply.ReadFault) (is_ok result) extra.old extra.new }
{
    let limit = command.limit();
    let mut reader = ExtraInputReader::new(alloc, command, plant)?;
    let read = feed_whole_source_to_reader(extra, limit, &mut reader);
    match unless_failed(read, reader) {
        Ok(reader) => Ok(answer(alloc, plant, reader)?),
        Err(ReadError::TooLong) => Ok(Reply::too_long(alloc)?),
        Err(ReadError::Failed) => Err(NoReply::ReadFault),
        Err(ReadError::OutOfMemory) => Err(NoReply::OutOfMemory),
    }
}

/// Returns the reply of `command` on `plant`. If the command has an extra input, reads it from
/// `extra` to its end, in pieces; if that is too long, the reply is a refusal. Fails with
/// `ReadFault` at the first call of `extra` that fails.
pub(crate) fn read_extra_and_reply<D: Source>(
    alloc: Global,
    command: &ConfCommand,
    plant: &Plant,
    extra: &mut D,
) -> Result<Reply, NoReply>
    requires { IsTrue (within_conf_option_limits command.now) }
    ensures reply { IfOk result (AnswersForSomeExtraInput command.now (Ok plant.now)
        (D.left extra.old)) }
    ensures planned { IfOk result (HasAllowedStatusAndCertificate (may_certify command.now)) }
    ensures handled { SourceReadAndFaultCounted D.left D.faults (Some true)
        (limit_if_extra command.now)
        (result ≡ Err NoReply.ReadFault) (is_ok result) extra.old extra.new }
{
    match command {
        ConfCommand::Plain(command) => Ok(answer_on_plant_without_extra(alloc, command, plant)?),
        ConfCommand::WithExtra { command, .. } => reply_to_extra(alloc, *command, plant, extra),
    }
}
