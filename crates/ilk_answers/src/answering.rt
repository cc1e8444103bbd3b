ghost use Rattle.std.specs.Prelude.{◌^◌, ◌<◌, ℕ, List, false, IfOk, IsTrue, length};
ghost use Rattle.ilk_answers.specs.Answer.{AnswersConfCommandWithoutExtra, AnswersExtraCommand, AnswersMakeOrDemo};
ghost use Rattle.ilk_answers.specs.Reader.{ReaderHasReadExtraInput, has_query_within_limits};
ghost use Rattle.ilk_answers.specs.Reply.{HasAllowedStatusAndCertificate};
ghost use Rattle.ilk_words.specs.Limits.{within_demo_option_limits, within_plain_option_limits, within_station_limits};
ghost use Rattle.ilk_words.specs.Plan.{may_certify, may_certify_stations};
ghost use Rattle.ilk_words.specs.declared.command.ExtraCommand.{ExtraCommand};

use crate::audit::audit_reply;
use crate::drive::drive_reply;
use crate::export::export_reply;
use crate::made::{demo_verdict_reply, stations_conf_reply};
use crate::replay::replay_reply;
use crate::rup::query_rup_reply;
use crate::table::table_reply;
use crate::verify::verify_reply;
use crate::{ExtraInputReader, Reply, Status};
use ilk_plant::Plant;
use ilk_words::{ConfCommand, ConfCommandWithoutExtra, StationsCommand};
use std::alloc::{AllocError, Global};

/// Returns the reply of `command` on `plant`, for a command that reads only a configuration.
pub fn answer_on_plant_without_extra(
    alloc: Global,
    command: &ConfCommandWithoutExtra,
    plant: &Plant,
) -> Result<Reply, AllocError>
    requires { IsTrue (within_plain_option_limits command.now) }
    ensures reply { IfOk result (AnswersConfCommandWithoutExtra command.now plant.now) }
    ensures planned { IfOk result
        (HasAllowedStatusAndCertificate (may_certify (ConfCommand.Plain command.now))) }
{
    match command {
        ConfCommandWithoutExtra::Check => {
            let line = String::from_str(alloc, "clean\n")?;
            Ok(Reply::with_report(alloc, Status::Good, line))
        }
        ConfCommandWithoutExtra::Verify {
            depth,
            conflicts,
            ..
        } => verify_reply(alloc, plant, *depth, *conflicts),
        ConfCommandWithoutExtra::Table => table_reply(alloc, plant),
        ConfCommandWithoutExtra::Export { query, number } => export_reply(
            alloc, plant, *query, *number,
        ),
    }
}

/// Returns the reply on `plant` and on the bytes that `reader` was fed, for the command for which
/// `reader` was made.
pub fn answer(
    alloc: Global,
    plant: &Plant,
    reader: ExtraInputReader<'_>,
) -> Result<Reply, AllocError>
    requires { IsTrue (has_query_within_limits reader) }
    ensures reply { IfOk result
        (λ made. (command : ExtraCommand) (bytes : List ℕ) →
        ReaderHasReadExtraInput command plant.now reader.entry bytes →
        length bytes < 2 ^ 40 → AnswersExtraCommand command plant.now bytes made) }
    ensures planned { IfOk result (HasAllowedStatusAndCertificate false) }
{
    match reader {
        ExtraInputReader::Certificate(audit) => audit_reply(alloc, plant, audit),
        ExtraInputReader::Run(text) => replay_reply(alloc, plant, text.as_slice()),
        ExtraInputReader::Refutation {
            query,
            number,
            text,
        } => query_rup_reply(alloc, plant, query, number, text.as_slice()),
        ExtraInputReader::Scenario(text) => drive_reply(alloc, plant, text.as_slice()),
    }
}

/// Returns the reply of `make` or `demo`, on a generated line of `stations` stations.
pub fn answer_without_conf(
    alloc: Global,
    stations: u32,
    command: &StationsCommand,
) -> Result<Reply, AllocError>
    requires stations { IsTrue (within_station_limits stations) }
    requires options { IsTrue (within_demo_option_limits command.now) }
    ensures reply { IfOk result (AnswersMakeOrDemo stations command.now) }
    ensures planned { IfOk result
        (HasAllowedStatusAndCertificate (may_certify_stations command.now)) }
{
    match command {
        StationsCommand::Make => stations_conf_reply(alloc, stations),
        StationsCommand::Demo {
            depth,
            conflicts,
            ..
        } => demo_verdict_reply(alloc, stations, *depth, *conflicts),
    }
}
