//! Scenarios: a text of commands, and the simulation run in which the plant does everything else.
//!
//! An engineer tests a table with a timetable: trains enter, routes are requested, requests are
//! cancelled. `read_scene` reads such a text for a plant, and `drive` runs it until it terminates.
//! `specs/Scene.antt` defines the content of a text and its first bad line. `specs/Drive.antt`
//! defines the next event of a drive and how it terminates. It doesn't mention the search for the
//! next event, nor that only touched sections are checked for hazards (`specs/Touched.antt`).
//!
//! A drive terminates: each automatic event lowers a potential, which bounds the events that
//! trains, routes and points still have. A command raises it by less than `MAX_EVENTS_PER_COMMAND`
//! (`proofs/Potential.antt`). `laws` states the theorems: a scenario has one drive, its text is
//! replayed to the same result, and a text is read as a scenario if and only if it is the one
//! written for it.
#![tactic(auto)]

mod automatic;
mod candidates;
mod command_line;
mod concerns;
mod driving;
mod laws;
mod limits;
mod outcome;
mod scene;
mod touched;
mod waking;

pub use driving::drive;
pub use laws::{
    drive_texts_replay_same_outcome, drives_are_unique_bounded_runs, scene_reading_is_exact,
};
pub use limits::MAX_EVENTS_PER_COMMAND;
pub use outcome::{Driven, Rest};
pub use scene::{Scene, read_scene};
