//! The whole program as one call: `run` takes the command-line arguments, the sources and the
//! sinks, and returns a status.
//!
//! The contract of `run` is the promise of the program. For all arguments and all bytes, the
//! status, the report and the certificate are those of an answer (`ilk_answers/specs/Answer.antt`).
//! `ilk_answers` computes answers as values; this crate reads, writes and counts faults.
//!
//! `ilk_words` reads the arguments and plans the rest. `conf_stage` turns the configuration into a
//! plant or its refusals. `extra_stage` reads the extra input (a certificate, run, refutation or
//! scenario) in `pieces`. `command` writes the reply, by `writing`, and returns the status. Each
//! stage ensures its part of `specs/Handled.antt`: what happened to the sources and sinks, for each
//! status.
#![tactic(auto)]

mod command;
mod conf_stage;
mod extra_stage;
mod no_reply;
mod pieces;
mod program;
mod writing;

pub use ilk_answers::Status;
pub use ilk_words::{FileNames, names_of};
pub use program::run;
