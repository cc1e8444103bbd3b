//! A checker of logs: each step has to follow from a formula and the steps before it. An assessor
//! relies on it and not on the search that found them.
//!
//! A step follows if propagation from the negations of its literals reaches a conflict. This is
//! reverse unit propagation, of E. Goldberg and Y. Novikov, "Verification of proofs of
//! unsatisfiability for CNF formulas", DATE 2003, and A. Van Gelder, "Verifying RUP proofs of
//! propositional unsatisfiability", ISAIM 2008. The hints of a step name the clauses that
//! propagation uses, so nothing is searched, as in L. Cruz-Filipe, M. Heule, W. Hunt, M. Kaufmann
//! and P. Schneider-Kamp, "Efficient certified RAT verification", CADE 2017. `Derived` of `ilk_log`
//! defines when a step follows, and `specs/Taken` the cause if it does not.
//!
//! A certificate has millions of hints, each a pass over one clause. So all clauses are in one
//! block of 32-bit numbers, and a byte for each literal says whether it is false.
//!
//! `Auditor::new` takes a formula, `take` and `add_step_if_derived` its steps. `closed` returns
//! whether the empty clause was taken: then no assignment satisfies the formula. If every step is
//! taken and the last one closes, the log is a refutation (`accepts_exactly_derived_steps`).
#![tactic(auto)]

mod auditor;
mod block;
mod codes;
mod fault;
mod hinted;
mod laws;
mod partial;
mod taken;

pub use auditor::Auditor;
pub use laws::accepts_exactly_derived_steps;
pub use taken::{Taken, Why};
