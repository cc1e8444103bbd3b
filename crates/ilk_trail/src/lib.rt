//! The trail of a search: the literals that are set, in the order of assignment, each with its
//! level and the clause that forced it.
//!
//! The most frequent operation of a search is to read a literal's value. So each literal's value
//! has its own byte, and the index of each variable's entry is stored beside it. `new` allocates
//! all memory, so no later call can fail.
//!
//! Levels and reasons follow J. P. Marques-Silva and K. A. Sakallah, "GRASP: a new search algorithm
//! for satisfiability", ICCAD 1996.
//!
//! `decide` opens a level, `assign` adds a forced literal to it, and `back_to` removes levels.
//! `value`, `level_of` and `reason` query a literal; `count` and `at` iterate over the entries,
//! earliest first.
#![tactic(auto)]

mod entry;
mod trail;

pub use entry::Entry;
pub use trail::Trail;
