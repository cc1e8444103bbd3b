//! Strict tables are safe. A table is strict if it keeps C1, C7, the part of C2 about the end of a
//! path, and the part of C3 about the path (`specs/IsStrict.antt`). Then the initial state meets
//! the invariant, and each event leads from a state that meets it only to states that meet it.
//!
//! `begin` returns the initial state and `advance` executes an event; their contracts include the
//! invariant. `path_rules_imply_strict` and `clean_is_strict` say which tables are strict.
//! `strict_is_safe` says that every run from the initial state, of any length, ends in a state that
//! meets the invariant.
//!
//! In `proofs/`, `Heads`, based on `HeldPoints`, determines the next section of a train's head.
//! `KeepsV1` to `KeepsV9`, `KeepsTrainsApart` and `KeepsPointsRight` show that no event breaks this
//! family or causes this hazard, with one lemma per event. `EventsKeep` and `Invariant` combine
//! them.
#![tactic(auto)]

mod laws;
mod steps;

pub use laws::{clean_is_strict, path_rules_imply_safe, path_rules_imply_strict, strict_is_safe};
pub use steps::{advance, begin};
