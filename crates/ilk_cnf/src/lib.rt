//! Propositional formulas in conjunctive normal form: literals, clauses, assignments and
//! satisfaction.
//!
//! A literal is a variable, numbered from 1, with a sign. A clause is a list of literals over
//! different variables. A formula (`Cnf`) has a number of variables and a list of clauses over
//! them. Contracts see them as the records and lists of `specs/Literal` and `specs/Formula`;
//! `specs/Truth` defines satisfaction.
//!
//! `Cnf::new` creates a formula; `fresh` and `add` extend it. `add_clause_unless_tautology` accepts
//! any literals of the formula, also with duplicates. It adds the clause without duplicates, or
//! nothing if the list is a tautology. `add_and_gate` and `add_or_gate` add a variable that stands
//! for several literals; `define_and_gate` adds the clauses for an existing variable. `vars`,
//! `clauses` and `clause` read a formula. If memory runs out, methods of `Cnf` leave it unchanged;
//! functions that borrow a formula may leave it grown.
//!
//! One call adds one part (`specs/Part`). `specs/Extends` defines how a part extends the
//! assignments of the earlier variables. Consecutive parts compose (`proofs/Parts`), so the theorem
//! for a formula follows from those for its parts.
#![tactic(auto)]

mod assignment;
mod clause;
mod clause_list;
mod cnf;
mod gate;
mod lit;
mod marks;

pub use assignment::Assignment;
pub use clause::{Clause, Lits};
pub use cnf::Cnf;
pub use gate::{add_and_gate, add_or_gate, define_and_gate, negated_lits};
pub use lit::Lit;
