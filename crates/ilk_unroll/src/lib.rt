//! Queries about runs of a system: the formula that asks for a run, and the run that an assignment
//! represents.
//!
//! A query (`Wanted`) asks for a run with a given number of steps. The run ends in a hazard or a
//! broken family, or shows that the families are not inductive. `specs/Goal` lists the forms that
//! the query demands, and `specs/Run` tests which runs meet it.
//!
//! `query` returns the formula (`specs/Query`). It has a copy (time frame) of the system's values
//! for each moment of the run, then a step between each two, then the demands. The copies'
//! variables come before all others, those of the last moment first. A search that decides the
//! lowest variable first thus works backwards from the hazard or broken family.
//!
//! Each run for which the query asks has exactly one satisfying assignment, and there are no others
//! (`specs/Assignment`, `specs/Represented`). `read_back` returns the run of an assignment: its
//! first values, and the chosen rule of each step.
//!
//! `specs/Evidence` defines what runs prove: the number of steps to a hazard or breach, and the k
//! for which the invariant is k-inductive. This depends only on whether a run exists for each
//! query, so a higher layer applies it to its own runs.
//!
//! `k_induction_is_sound` proves that no run from the start, of any length, reaches a hazard or
//! breaks a family. Its conditions: no run of up to k steps does, and no run of k steps leaves the
//! invariant. This is induction over k steps, as in M. Sheeran, S. Singh and G. Stålmarck,
//! "Checking safety properties using induction and a SAT-solver", FMCAD 2000.
//!
//! This crate depends on no crate of the search, so a check of a certificate needs these theorems
//! but no search.
#![tactic(auto)]

mod demands;
mod formula;
mod laws;
mod queries;
mod reading;
mod unroll;

pub use formula::query;
pub use laws::{k_induction_is_sound, satisfiable_iff_run_exists};
pub use queries::{Goal, Wanted};
pub use reading::{Rows, Trace, read_back};
