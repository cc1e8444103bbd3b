ghost use Rattle.std.specs.Prelude.{ℕ, ◌≡◌, ◌≢◌, ◌⊎◌, ◌↔◌, ◌++◌, Some, None, IfSome, List, true, false, map, string_bytes};
ghost use Rattle.ilk_answers.specs.Answer.{IsAnswerTo, is_extra_reached_if_exposed, max_conf_bytes_if_read, command_plan_or_empty};
ghost use Rattle.ilk_answers.specs.Status.{had_reply_to_write};
ghost use Rattle.ilk_answers.specs.Strict.{LinesHaveBeginnings, HasSafePlantDespiteColumns, ReplyHasTableOfConf, IsCleanAndKeepsInvariant, IsStrictlyCleanWithPlant, SaysSafeAtOneOrSpent, DriveReportsNoHazard, harmless_refusal_beginnings};
ghost use Rattle.ilk_io.specs.Faults.{CountedOneFault};
ghost use Rattle.ilk_plant.specs.Plant.{PlantLists};
ghost use Rattle.ilk_top.specs.Outside.{ReadIfLimitGivenElseUnchanged, FaultsRiseOnlyWith, WritesAnswer};
ghost use Rattle.ilk_words.specs.Words.{parsed_command};

use crate::command::perform;
use ilk_answers::Status;
use ilk_io::{Sink, Source};
use ilk_words::{
    ColumnRuleMode, Command, ConfCommand, ConfCommandWithoutExtra, ExtraCommand, parse_arguments,
};
use std::alloc::Global;

/// Executes the command that the arguments `words` give, the program's name first, and returns its
/// status. Reads the configuration from `conf`. Reads the extra input from `extra`: a certificate
/// (`audit`), a run (`replay`), a refutation (`rup`) or a scenario (`drive`). Writes the
/// certificate of `verify` and `demo`, if there is one, to `cert`, and then the report to `out`.
///
/// Takes all memory before the first write. Returns `ReadFault` or `WriteFault` at the first call
/// of a source or a sink that fails. Clauses speak of the bytes of a source only if it exposes
/// them: `C.left conf.old` or `D.left extra.old` is then `Some bytes`. The clauses `strict_..` are
/// for strict columns.
pub fn run<C: Source, D: Source, O: Sink, L: Sink>(
    alloc: Global,
    words: &Vec<String>,
    conf: &mut C,
    extra: &mut D,
    out: &mut O,
    cert: &mut L,
) -> Status
    // If the status is that of an answer, the sinks gained the whole certificate and report of an
    // answer to the arguments and inputs. After a write fault, which exactly one call of one sink
    // met, they gained an answer up to the fault.
    ensures answer { let asked = parsed_command (map string_bytes words.now.items) in
        WritesAnswer (IsAnswerTo asked (C.left conf.old) (D.left extra.old)) L.written L.faults
        O.written
        O.faults result cert.old cert.new out.old out.new }

    // If `check` returns `Good`, the configuration breaks no rule. Runs of any length from the
    // initial state keep the invariant.
    ensures strict_check { let asked = parsed_command (map string_bytes words.now.items) in
        asked ≡ Some (Command.Conf ColumnRuleMode.Strict
        (ConfCommand.Plain ConfCommandWithoutExtra.Check)) →
        result ≡ Status.Good →
        IfSome (C.left conf.old) IsCleanAndKeepsInvariant }

    // If `check` returns `Refused`, and each line that it wrote refuses by C4, C5, C6 or C8, the
    // plant is safe: runs of any length from the initial state keep the invariant. Says nothing
    // after a write fault, since a cut report may have lost a line.
    ensures strict_deviations { let asked = parsed_command (map string_bytes words.now.items) in
        (before report : List ℕ) →
        asked ≡ Some (Command.Conf ColumnRuleMode.Strict
        (ConfCommand.Plain ConfCommandWithoutExtra.Check)) →
        result ≡ Status.Refused → O.written out.old ≡ Some before →
        O.written out.new ≡ Some (before ++ report) →
        LinesHaveBeginnings harmless_refusal_beginnings report →
        IfSome (C.left conf.old) HasSafePlantDespiteColumns }

    // If a configuration breaks no rule, `verify` returns `Good` with `safe k=1` and its
    // certificate, or `Spent`, or else a fault or `OutOfMemory`. After a write fault, such an
    // answer was written up to the fault.
    ensures strict_verify { let asked = parsed_command (map string_bytes words.now.items) in
        (depth conflicts : ℕ) (name : List ℕ) (bytes : List ℕ) (p : PlantLists)
        → asked ≡ Some (Command.Conf ColumnRuleMode.Strict
        (ConfCommand.Plain (ConfCommandWithoutExtra.Verify depth conflicts name))) →
        C.left conf.old ≡ Some bytes → IsStrictlyCleanWithPlant bytes p
        → WritesAnswer (SaysSafeAtOneOrSpent p depth conflicts) L.written L.faults O.written
        O.faults
        result cert.old cert.new out.old out.new }

    // If `table` returns `Good`, its report is read as the network of the configuration with the
    // table of its routes, and breaks no rule but C7. With strict columns it breaks none, and its
    // plant is safe for runs of any length.
    ensures table { let asked = parsed_command (map string_bytes words.now.items) in
        (columns : ColumnRuleMode) →
        asked ≡ Some (Command.Conf columns (ConfCommand.Plain ConfCommandWithoutExtra.Table))
        → WritesAnswer
        (λ made. made.status ≡ Status.Good →
        IfSome (C.left conf.old) (λ bytes. ReplyHasTableOfConf columns bytes made)) L.written
        L.faults O.written O.faults result cert.old cert.new out.old out.new }

    // `drive` reports no hazard, even if `extra` does not expose its bytes. After a write fault, an
    // answer without a hazard was written up to the fault.
    ensures strict_drive { let asked = parsed_command (map string_bytes words.now.items) in
        (name bytes : List ℕ) →
        asked ≡ Some (Command.Conf ColumnRuleMode.Strict
        (ConfCommand.WithExtra name ExtraCommand.Drive))
        → C.left conf.old ≡ Some bytes
        → WritesAnswer (DriveReportsNoHazard name bytes (D.left extra.old))
        L.written L.faults O.written O.faults result cert.old cert.new out.old out.new }

    // After a read fault exactly one call of one source failed; if it was one of `conf`, `extra` is
    // unchanged. A fault count rises only if the status reports that fault.
    ensures read_fault { result ≡ Status.ReadFault
        → (CountedOneFault (C.faults conf.old) (C.faults conf.new) × (extra.new ≡ extra.old))
        ⊎
        ((C.faults conf.new ≡ C.faults conf.old) ×
        CountedOneFault (D.faults extra.old) (D.faults extra.new)) }
    ensures conf_faults { FaultsRiseOnlyWith (result ≡ Status.ReadFault) (C.faults conf.old)
        (C.faults conf.new) }
    ensures extra_faults { FaultsRiseOnlyWith (result ≡ Status.ReadFault) (D.faults extra.old)
        (D.faults extra.new) }
    ensures out_faults { FaultsRiseOnlyWith (result ≡ Status.WriteFault) (O.faults out.old)
        (O.faults out.new) }
    ensures cert_faults { FaultsRiseOnlyWith (result ≡ Status.WriteFault) (L.faults cert.old)
        (L.faults cert.new) }

    // Unless memory runs out, the status is `Usage` if and only if the arguments give no command.
    // Then nothing is read.
    ensures usage { let asked = parsed_command (map string_bytes words.now.items) in
        result ≢ Status.OutOfMemory → (result ≡ Status.Usage) ↔ (asked ≡ None) }
    ensures unread { let asked = parsed_command (map string_bytes words.now.items) in
        asked ≡ None → (conf.new ≡ conf.old) × (extra.new ≡ extra.old) }

    // If writing began, each source that the command needs was read to its end, or held more bytes
    // than its limit. If the configuration is known to give no plant, `extra` is not read.
    ensures conf_read { let plan = command_plan_or_empty
        (parsed_command (map string_bytes words.now.items)) in
        ReadIfLimitGivenElseUnchanged C.left (Some true) (max_conf_bytes_if_read plan)
        (had_reply_to_write result) conf.old conf.new }
    ensures extra_read { let plan = command_plan_or_empty
        (parsed_command (map string_bytes words.now.items)) in
        ReadIfLimitGivenElseUnchanged D.left
        (is_extra_reached_if_exposed plan (C.left conf.old)) plan.extra
        (had_reply_to_write result) extra.old extra.new }

    // Nothing is written after a read fault, a usage error, or if memory runs out. A certificate is
    // written only if the command's plan allows one.
    ensures unwritten { had_reply_to_write result ≡ false →
        (out.new ≡ out.old) × (cert.new ≡ cert.old) }
    ensures uncertified { let plan = command_plan_or_empty
        (parsed_command (map string_bytes words.now.items)) in
        plan.certifies ≡ false → cert.new ≡ cert.old }
{
    match parse_arguments(alloc, words) {
        Ok(Some(command)) => perform(alloc, &command, conf, extra, out, cert),
        Ok(None) => Status::Usage,
        Err(_) => Status::OutOfMemory,
    }
}
