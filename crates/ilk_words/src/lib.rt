//! The meaning of the command-line arguments, which `clap` parses as one simple command.
//!
//! `parse_arguments` returns the command with its options, or `None` for a usage error. `names_of`
//! returns the files that a command names, for the caller that opens them. `ConfCommand::stages`
//! returns the rules that a command checks, and `ExtraCommand::limit` the limit of its extra input.
//!
//! Definitions in `specs/`: `Commands` has the table of commands, `Options` that of options, and
//! `Line` the command line for `clap`. `Words` says what arguments mean. `Plan` has the table of
//! plans, and `Files` the named files. `limits` names the limits of numbers, `lengths` those of
//! inputs.
#![tactic(auto)]

mod command;
mod files;
mod lengths;
mod limits;
mod line;
mod number;
mod options;
mod plan;
mod read;

pub use command::{
    ColumnRuleMode, Command, ConfCommand, ConfCommandWithoutExtra, ExtraCommand, QueryKind,
    StationsCommand,
};
pub use files::{FileNames, names_of};
pub use lengths::{
    MAX_CERTIFICATE_BYTES, MAX_CONFIGURATION_BYTES, MAX_REFUTATION_BYTES, MAX_RUN_TEXT_BYTES,
    MAX_SCENARIO_BYTES,
};
pub use limits::{
    DEFAULT_DEPTH, DEFAULT_TOTAL_CONFLICTS, MAX_DEPTH, MAX_QUERY_EVENTS, MAX_STATIONS,
    MAX_TOTAL_CONFLICTS,
};
pub use plan::{CheckedRuleStages, files_named_iff_planned};
pub use read::parse_arguments;
