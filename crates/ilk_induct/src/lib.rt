//! Decides by k-induction whether a finite system keeps to a goal: M. Sheeran, S. Singh and G.
//! Stålmarck, "Checking safety properties using induction and a SAT-solver", FMCAD 2000. Unlike
//! there, the moments of a run needn't differ from each other.
//!
//! `decide` asks three kinds of queries for runs of a given number of steps. A hazard query asks
//! for a run from the start to a hazard. A breach query asks for a run from the start that breaks a
//! family. A step query asks for a run from anywhere that stays in the invariant and leaves it with
//! its last step. `specs/Right` defines which verdict is right, only by whether such runs exist, so
//! a layer above can apply it to its own runs.
//!
//! `specs/Order` has the order of the queries, as one list. `specs/Asked` defines how far each
//! verdict went in it. `specs/Spent` has the properties of each query and its log, and defines a
//! spent text: a prefix of the order, whose last query was given up. Both say that a query's
//! formula is satisfiable, which means that a run exists (`satisfiable_iff_run_exists` of
//! `ilk_unroll`).
//!
//! `ilk_certificate` defines a certificate of a safe system, without any search. The text written
//! for a safe or spent verdict of `decide` is a certificate or a spent text
//! (`written_texts_are_valid`). Its logs have no hint 0, as the writing calls require
//! (`hints_are_from_one`).
#![tactic(auto)]

mod ask;
mod deciding;
mod due;
mod laws;
mod pick;
mod searching;
mod verdict;

pub use deciding::decide;
pub use ilk_certificate::Asked;
pub use laws::{hints_are_from_one, spent_text_step_counts_allowed, written_texts_are_valid};
pub use verdict::{Found, Verdict};
