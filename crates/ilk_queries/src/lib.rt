//! The queries about a plant: the runs each query asks for, and its formula.
//!
//! A query asks for a run of a given number of events (`specs/Asked`). The run leads from the start
//! to a hazard, from the start to a violation of a family, or from any state out of the invariant.
//! The plant's events are rules over its image, the encoding of a state (`ilk_behave`). Its start,
//! hazards and families are forms over the image (`ilk_props`, `ilk_invs`). So runs of events
//! correspond to runs of rules (`proofs/Walks`, `proofs/Answered`).
//!
//! `goal` builds the forms, and `formula` the formula of a query. The formula is satisfiable if and
//! only if the plant has a run that the query asks for.
#![tactic(auto)]

mod formulas;
mod goals;

pub use formulas::formula;
pub use goals::goal;
