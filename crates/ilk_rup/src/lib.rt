//! Checks a refutation that another solver wrote.
//!
//! `check_rup` takes a formula and a text. It returns a `Rup`: a log that refutes the formula, or
//! the first bad item of the text. `specs/RefutationText` defines the items of a text, and
//! `specs/Accepted` which of them are right.
//!
//! An item adds a clause. It is right if propagation from the opposites of its literals reaches a
//! false clause: reverse unit propagation, of E. Goldberg and Y. Novikov, "Verification of proofs
//! of unsatisfiability for CNF formulas", DATE 2003, and A. Van Gelder, "Verifying RUP proofs of
//! propositional unsatisfiability", ISAIM 2008. An item may also delete a clause, as in M. Heule,
//! W. Hunt and N. Wetzler, "Trimming while checking clausal proofs", FMCAD 2013. Such an item is
//! read, but the clause is kept, which loses no consequence.
//!
//! The text is read word by word (`words`, `item`), so only the literals of the current item are
//! stored (`set`). A `Checker` takes one item after the other. Its `DerivationState` has the
//! clauses derived so far, the literals that they set at level 0, and the steps that derive them.
//! `specs/Standing` has the invariant between items.
//!
//! The text has no hints, so propagation searches with watched literals (`ilk_watches`). The
//! literals of a clause are made false at a level of their own (`assume_negations`), which is
//! removed before the clause is added. The hints of its step are found on a walk back from the
//! false clause (`explain`), and are only those that it needs. Literals set at level 0 stay set.
//! Each has a unit clause of its own in the log, so no later step repeats the reason.
//!
//! The stored clauses differ from those of the text. Their literals have another order, clauses
//! with a literal that is true at level 0 are left out, and unit clauses are added. The
//! consequences are the same (`specs/Alike`).
#![tactic(auto)]

mod assume;
mod base;
mod check;
mod checker;
mod explain;
mod item;
mod next;
mod rup;
mod set;
mod words;

pub use check::check_rup;
pub use rup::Rup;
