ghost use Rattle.std.specs.Prelude.{◌≡◌, ◌++◌, false, IfOk, string_bytes};
ghost use Rattle.ilk_answers.specs.Answer.{refusal_lines_of_broken_rules, refused_conf_reply};
ghost use Rattle.ilk_answers.specs.Refusal.{refusal_line};
ghost use Rattle.ilk_answers.specs.Reply.{HasAllowedStatusAndCertificate};

use crate::refusal_text::refusal_line;
use crate::{Refusal, Refusals, Reply, Status};
use ilk_words::{ConfCommand, ConfCommandWithoutExtra};
use std::alloc::{AllocError, Global};

fn refusal_lines(alloc: Global, refusals: &Refusals) -> Result<String, AllocError>
    ensures { IfOk result
        (λ lines. string_bytes lines
        ≡ refusal_line refusals.now.first ++ refusal_lines_of_broken_rules refusals.now.rest) }
{
    let mut lines = refusal_line(alloc, refusals.first)?;
    for broken in refusals.rest.as_slice() {
        let line = refusal_line(alloc, Refusal::Rule(*broken))?;
        lines.push_str(line.as_str())?;
    }
    Ok(lines)
}

/// Returns the reply of `command` to a refused configuration: `check` lists all refusals, every
/// other command only the first.
pub fn refuse(
    alloc: Global,
    command: &ConfCommand,
    refusals: &Refusals,
) -> Result<Reply, AllocError>
    ensures reply { IfOk result (λ made. made ≡
        refused_conf_reply command.now refusals.now) }
    ensures planned { IfOk result (HasAllowedStatusAndCertificate false) }
{
    match command {
        ConfCommand::Plain(ConfCommandWithoutExtra::Check) => {
            let lines = refusal_lines(alloc, refusals)?;
            Ok(Reply::with_report(alloc, Status::Refused, lines))
        }
        _ => Reply::refused(alloc, refusals.first),
    }
}
