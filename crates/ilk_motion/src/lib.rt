//! The four train events: a train enters at a border, its head moves on, its tail follows, and it
//! leaves the network.
//!
//! `ahead` returns the section to which a train's head may move. Each `step_..` tests whether its
//! event is enabled and, if so, changes the state as `specs/Trains.antt` says; otherwise the state
//! doesn't change. `ilk_model` calls them in `apply`.
#![tactic(auto)]

mod examples;
mod steps;
mod track;
mod trains;

pub use steps::{step_enter, step_head, step_leave, step_tail};
pub use track::ahead;
