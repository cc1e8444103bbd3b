ghost use Rattle.std.specs.Prelude.{◌≡◌, ◌^◌, ◌<◌, is_some};
ghost use Rattle.ilk_words.specs.Files.{files_of_command};
ghost use Rattle.ilk_words.specs.Plan.{extra_limit, plan_of, stages_of};

use crate::{
    ColumnRuleMode, Command, ConfCommand, ConfCommandWithoutExtra, ExtraCommand,
    MAX_CERTIFICATE_BYTES, MAX_REFUTATION_BYTES, MAX_RUN_TEXT_BYTES, MAX_SCENARIO_BYTES,
};

/// The stages of rules that a command checks on a configuration.
#[derive(Clone, Copy, PartialEq, Eq, Debug)]
pub enum CheckedRuleStages {
    /// All rules: of the form, the network, the interlocking table and, if strict, its columns.
    All(ColumnRuleMode),
    /// The rules of the form and of the network. If strict, also the one column rule about the
    /// network alone: each border has its board. Routes are only checked for their form.
    Network(ColumnRuleMode),
}

impl ConfCommand {
    /// Returns the rules that the command checks on its configuration.
    pub fn stages(&self, columns: ColumnRuleMode) -> CheckedRuleStages
        ensures { result ≡ stages_of columns self.now }
    {
        match self {
            ConfCommand::Plain(ConfCommandWithoutExtra::Table) => CheckedRuleStages::Network(
                columns,
            ),
            _ => CheckedRuleStages::All(columns),
        }
    }
}

impl ExtraCommand {
    /// Returns the most bytes that the command's second input, such as a certificate, may have.
    pub fn limit(self) -> u64
        ensures limit { result ≡ extra_limit self }
        ensures small { result < 2 ^ 40 }
    {
        match self {
            ExtraCommand::Audit => MAX_CERTIFICATE_BYTES,
            ExtraCommand::Replay => MAX_RUN_TEXT_BYTES,
            ExtraCommand::Rup { .. } => MAX_REFUTATION_BYTES,
            ExtraCommand::Drive => MAX_SCENARIO_BYTES,
        }
    }
}

/// A command names a file if and only if its plan reads or writes one. Proof only; no run-time
/// effect.
pub fn files_named_iff_planned(command: &Command)
    ensures read { is_some (files_of_command command.now).extra
        ≡ is_some (plan_of command.now).extra }
    ensures written { is_some (files_of_command command.now).cert
        ≡ (plan_of command.now).certifies }
{
    let _ = command;
}
