//! Propagation by two watched literals, as in M. W. Moskewicz, C. F. Madigan, Y. Zhao, L. Zhang and
//! S. Malik, "Chaff: engineering an efficient SAT solver", DAC 2001.
//!
//! Each clause of two or more literals watches two of them, and is in the chains of both
//! (`ilk_arena`). While neither is false the clause can't force anything. So when a literal becomes
//! false, only the clauses in its chain are visited. If the other watch is true, nothing is done.
//! Otherwise the clause takes another literal that isn't false as its watch. If there is none, its
//! other watch is forced, or the clause is false.
//!
//! A `PropagationProgress` records the progress: which entries of the trail are still to be
//! propagated, and which clauses were not examined yet. `propagate` examines these clauses, then
//! walks the chain of each literal that became false. If two entries are queued it walks two chains
//! side by side (`walk`), because most of the time goes into waiting for the next clause of a
//! chain. `decide` and `back_to` keep the queue in step with the trail.
//!
//! `specs/Watched` defines the invariant between calls. If a propagated entry made a watch false,
//! the other watch is true at the level of that entry. So it stays true until the entry is removed.
//! `proofs/Queues` proves it for an empty trail, `proofs/Going` for walks side by side,
//! `proofs/Back` for removed levels, `proofs/Added` for added clauses. `specs/Propagated` defines
//! what propagation adds to a trail. `propagate_by_scan` is a plain implementation of the same
//! contract.
//!
//! The clauses of a search, by number: first those of the formula, then each learned clause.
//!
//! A clause's number is its position in the list, from 0. The reasons of a trail are such numbers;
//! a hint of the log is the number plus 1, because the log counts from 1. All clauses are in one
//! arena (`ilk_arena`), with a list of their references by number. Contracts use the lists of the
//! arena.
//!
//! `from_cnf` takes the clauses of a formula, and `add` adds one. `length` and `literal` read a
//! clause by number. A walk along a chain goes by reference, through `arena`; it moves a watch by
//! `rewatch`, and a cursor by `set_clause_cursor`.
//!
//! `specs/Reasons` relates the entries of a trail to the clauses: which clause forces a literal,
//! and which is a conflict. These are the antecedents and conflicts of J. P. Marques-Silva and K.
//! A. Sakallah, "GRASP: a new search algorithm for satisfiability", ICCAD 1996. `specs/Chained` has
//! the properties of the clauses of every search.
#![tactic(auto)]

mod clauses;
mod look;
mod queue;
mod scan;
mod visit;
mod walk;

pub use clauses::NumberedClauses;
pub use look::{ClauseState, clause_state};
pub use queue::PropagationProgress;
pub use scan::propagate_by_scan;
