//! Answers as values: the reply to a configuration and to the extra input, the second input that
//! some commands read. A call here fails only if memory runs out; `ilk_top` reads, writes and
//! counts faults.
//!
//! `plant_or_refusals_of_conf` turns a configuration into a plant, or into all its refusals
//! (`checks`, `refusals`). `refuse` is the reply to refusals.
//!
//! `answer_on_plant_without_extra` is the reply of a command without extra input: the verdict
//! (`verify`), the table of routes (`table`) or a formula (`export`). `answer` is the reply to a
//! certificate (`audit`), a run (`replay`), another solver's refutation (`rup`) or a scenario
//! (`drive`). `answer_without_conf` is the reply of a command that reads no configuration (`made`).
//!
//! The extra input is fed in pieces (`reader`), and a reply is taken in pieces (`content`).
//! `specs/Answer.antt` defines which replies are answers; the files `Verdicts`, `Audits`,
//! `Refutations`, `Drives`, `Tables` and `Made` define it for single commands.
#![tactic(auto)]

mod answering;
mod audit;
mod checks;
mod configuration;
mod content;
mod drive;
mod export;
mod made;
mod reader;
mod refusal_text;
mod refusals;
mod refused_reply;
mod replay;
mod reply;
mod report;
mod run_text;
mod rup;
mod status;
mod table;
mod verify;

pub use answering::{answer, answer_on_plant_without_extra, answer_without_conf};
pub use configuration::plant_or_refusals_of_conf;
pub use content::PendingOutput;
pub use reader::ExtraInputReader;
pub use refusals::{Refusal, Refusals};
pub use refused_reply::refuse;
pub use reply::Reply;
pub use status::Status;
