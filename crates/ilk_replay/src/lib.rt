//! Run texts and their replay.
//!
//! A run text consists of lines, so its definition uses the parts of `ilk_lines`. The keywords are
//! in `ilk_model` (events) and `ilk_plant` (modes, positions, locks and so on). One table per kind
//! of value serves reading and writing, so a new event or mode is one line there.
//!
//! `specs/EventSubjects` defines the subject of an event, `specs/RunText` the text of a run, and
//! `specs/Told` the content of a text. `specs/Writable` and `specs/FirstBad` connect the two. The
//! theorem `run_reading_is_exact` says that a text is read as a run if and only if it is written
//! for that run, and that the reported bad line is the first. `specs/Seen` defines the result of a
//! replay.
//!
//! `read_run` reads a text for a plant. `write_run` writes a text that is read as the same run.
//! `replay` executes the run of a text.
#![tactic(auto)]

mod event_line;
mod examples;
mod laws;
mod names;
mod reading;
mod run_writing;
mod seen;
mod state_line;
mod state_reading;
mod state_writing;
mod told;

pub use event_line::event_from_line;
pub use laws::run_reading_is_exact;
pub use reading::read_run;
pub use run_writing::write_run;
pub use seen::{Seen, replay};
pub use told::{Tale, Told};
