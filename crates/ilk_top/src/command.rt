ghost use Rattle.std.specs.Prelude.{◌≡◌, ◌≢◌, IfOk, IsTrue, Err, Some, [], is_ok};
ghost use Rattle.ilk_answers.specs.Answer.{IsAnswerTo};
ghost use Rattle.ilk_answers.specs.Reply.{HasAllowedStatusAndCertificate};
ghost use Rattle.ilk_answers.specs.Status.{had_reply_to_write, is_fault_free_command_status};
ghost use Rattle.ilk_answers.specs.Strict.{ReplyHasStrictGuarantees};
ghost use Rattle.ilk_top.specs.Handled.{SourcesAndSinksHandled, SinksFitStatus, SourcesReadAndFaultsCounted};
ghost use Rattle.ilk_top.specs.Outside.{WritesAnswer};
ghost use Rattle.ilk_words.specs.Limits.{within_conf_option_limits, within_option_limits};
ghost use Rattle.ilk_words.specs.Plan.{may_certify, plan_of};

use crate::conf_stage::read_plant_or_refusals;
use crate::extra_stage::read_extra_and_reply;
use crate::no_reply::NoReply;
use crate::writing::write_pending_output;
use ilk_answers::{Reply, Status, answer_without_conf, refuse};
use ilk_io::{Sink, Source};
use ilk_words::{ColumnRuleMode, Command, ConfCommand};
use std::alloc::Global;

fn conf_reply<C: Source, D: Source>(
    alloc: Global,
    columns: ColumnRuleMode,
    command: &ConfCommand,
    conf: &mut C,
    extra: &mut D,
) -> Result<Reply, NoReply>
    requires { IsTrue (within_conf_option_limits command.now) }
    ensures reply { IfOk result (IsAnswerTo (Some (Command.Conf columns command.now))
        (C.left conf.old) (D.left extra.old)) }
    ensures strict { IfOk result (ReplyHasStrictGuarantees (Some (Command.Conf columns command.now))
        (C.left conf.old) (D.left extra.old)) }
    ensures planned { IfOk result (HasAllowedStatusAndCertificate (may_certify command.now)) }
    ensures handled { SourcesReadAndFaultsCounted C.left C.faults D.left D.faults
        (plan_of (Command.Conf columns command.now)) (result ≡ Err NoReply.ReadFault)
        (is_ok result) conf.old conf.new extra.old extra.new }
{
    let stages = command.stages(columns);
    match read_plant_or_refusals(alloc, stages, conf)? {
        Ok(plant) => {
            plant.prove_is_plant();
            plant.prove_sound_acyclic_drafts();
            let reply = read_extra_and_reply(alloc, command, &plant, extra);
            drop(plant);
            reply
        }
        Err(refusals) => {
            let reply = refuse(alloc, command, &refusals);
            drop(refusals);
            Ok(reply?)
        }
    }
}

fn command_reply<C: Source, D: Source>(
    alloc: Global,
    command: &Command,
    conf: &mut C,
    extra: &mut D,
) -> Result<Reply, NoReply>
    requires { IsTrue (within_option_limits command.now) }
    ensures reply { IfOk result
        (IsAnswerTo (Some command.now) (C.left conf.old) (D.left extra.old)) }
    ensures strict { IfOk result
        (ReplyHasStrictGuarantees (Some command.now) (C.left conf.old) (D.left extra.old)) }
    ensures planned { IfOk result (HasAllowedStatusAndCertificate (plan_of command.now).certifies) }
    ensures handled { SourcesReadAndFaultsCounted C.left C.faults D.left D.faults
        (plan_of command.now)
        (result ≡ Err NoReply.ReadFault) (is_ok result) conf.old conf.new extra.old extra.new }
{
    match command {
        Command::Conf { columns, command } => conf_reply(alloc, *columns, command, conf, extra),
        Command::Stations { stations, command } => Ok(answer_without_conf(
            alloc, *stations, command,
        )?),
    }
}

// Writes the certificate of a reply, then its report. Returns `WriteFault` at the first call that
// fails.
fn tell<O: Sink, L: Sink>(reply: Reply, out: &mut O, cert: &mut L) -> Status
    requires { IsTrue (is_fault_free_command_status reply.status) }
    ensures answer { WritesAnswer (λ made. made ≡ reply) L.written L.faults O.written O.faults
        result
        cert.old cert.new out.old out.new }
    ensures told { IsTrue (had_reply_to_write result) }
    ensures handled { SinksFitStatus O.faults L.faults (reply.certificate ≡ []) result out.old
        out.new cert.old cert.new }
{
    let Reply {
        status,
        mut report,
        mut certificate,
    } = reply;
    let certified = write_pending_output(cert, &mut certificate);
    drop(certificate);
    if certified.is_err() {
        drop(report);
        return Status::WriteFault;
    }
    let told = write_pending_output(out, &mut report);
    drop(report);
    match told {
        Ok(()) => status,
        Err(_) => Status::WriteFault,
    }
}

/// Executes one command over these sources and sinks, and returns its status. Its contract is that
/// of `run`, for this command.
pub(crate) fn perform<C: Source, D: Source, O: Sink, L: Sink>(
    alloc: Global,
    command: &Command,
    conf: &mut C,
    extra: &mut D,
    out: &mut O,
    cert: &mut L,
) -> Status
    requires { IsTrue (within_option_limits command.now) }
    ensures answer { WritesAnswer (IsAnswerTo (Some command.now) (C.left conf.old)
        (D.left extra.old))
        L.written L.faults O.written O.faults result cert.old cert.new out.old out.new }
    ensures strict { WritesAnswer
        (ReplyHasStrictGuarantees (Some command.now) (C.left conf.old) (D.left extra.old)) L.written
        L.faults O.written O.faults result cert.old cert.new out.old out.new }
    ensures handled { SourcesAndSinksHandled C.left C.faults D.left D.faults O.faults L.faults
        (plan_of command.now) result conf.old conf.new extra.old extra.new out.old out.new
        cert.old cert.new }
    ensures no_usage { result ≢ Status.Usage }
{
    match command_reply(alloc, command, conf, extra) {
        Ok(reply) => tell(reply, out, cert),
        Err(NoReply::ReadFault) => Status::ReadFault,
        Err(NoReply::OutOfMemory) => Status::OutOfMemory,
    }
}
