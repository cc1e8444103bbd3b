//! A formula as text for other solvers, in the DIMACS CNF format of the SAT competitions
//! (<https://satcompetition.github.io>). It was first published as "Satisfiability: Suggested
//! Format" for the DIMACS challenge of 1993. An assessor can thus give the same formula to another
//! solver.
//!
//! `specs/DimacsText` defines the text: its first line counts variables and clauses, and each
//! further line is a clause. A literal is written as in the log of a search (`ilk_log`), so clauses
//! of the two texts can be compared. The format's comments and clauses over several lines are not
//! written, so a formula has just one text.
//!
//! `write_dimacs` returns the text of a formula from `ilk_cnf` as a whole. A `FormulaText` produces
//! the same text in pieces, and never holds all of it.
#![tactic(auto)]

mod clauses_text;
mod examples;
mod formula_text;
mod write;

pub use formula_text::FormulaText;
pub use write::write_dimacs;
