//! Theorems about runs of any length of a plant. `specs/Forever` defines a safe plant: each run
//! from the initial state ends in a state that meets the invariant.
//!
//! A query has a run over the plant's finite system if and only if it has one over the plant
//! (`query_runs_correspond`). A plant is safe for runs of any length in each of these cases:
//!
//! - For a k from 1 to 16, no run of up to k events from the initial state reaches a hazard or
//!   breaks a family, and no run of k events leaves the invariant (`induction_implies_safety`).
//!
//! - Some bytes are a certificate of it (`certificates_imply_safety`).
//!
//! - Its table is strict (`proofs/StrictForever`, over `ilk_strict`).
//!
//! This crate depends on no search crate. If `check`, `table` or `audit` answers that a plant is
//! safe, the answer depends on these theorems and not on a search.
#![tactic(auto)]

mod laws;

pub use laws::{
    certificates_imply_safety, goal_forms_valid_and_correct, induction_implies_safety,
    query_runs_correspond,
};
