//! Conflict analysis: the clause that a search learns from a conflict.
//!
//! If all literals of a clause are false, the clause is resolved with the reasons of the trail's
//! entries, latest first. This stops at the first unique implication point, when only one of its
//! literals is of the current level (`specs/Learning`). The result is a clause that forces this
//! literal at a lower level (`specs/Asserting`), with hints that derive it.
//!
//! Learning from conflicts, backjumping over several levels and unique implication points are from
//! J. P. Marques-Silva and K. A. Sakallah, "GRASP: a new search algorithm for satisfiability",
//! ICCAD 1996, and "GRASP: a search algorithm for propositional satisfiability", IEEE Transactions
//! on Computers 48, 1999. The choice of the first point alone is from L. Zhang, C. F. Madigan, M.
//! W. Moskewicz and S. Malik, "Efficient conflict driven learning in a Boolean satisfiability
//! solver", ICCAD 2001.
//!
//! `learn` returns the clause and the level to go back to. `refute` returns the empty clause after
//! a conflict at level 0. The working clause is stored as marks by variable, a count of its
//! literals of the current level, and a list of the others (`hand`). So each literal and each
//! passed entry takes one lookup.
#![tactic(auto)]

mod analysis;
mod hand;

pub use analysis::{Learned, learn, refute};
