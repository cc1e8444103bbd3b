//! The log of a search: its steps, the conditions under which they follow from a formula, and their
//! lines.
//!
//! A step is a clause with hints (`Hints`): the numbers of earlier clauses, in the order in which
//! propagation uses them. A checker takes them one after another and needs no search (`Propagation`
//! and `Derived` in `specs/`). `Fresh` defines the clauses that propagation alone does not give.
//! These definitions use only lists of clauses and numbers.
//!
//! `write_step` returns the line of a step, `push_step_text` appends it to a text, and `read_step`
//! accepts exactly these lines. `read_step_into` does the same with memory that is reused from line
//! to line (`StepBuffer`). `LogText` is the text of a log, produced in pieces. A `Log` is a list of
//! steps: `push` adds one, `at` returns one. It keeps each packed, in little more than a byte a
//! number. `count_learned_clauses` counts the steps with a literal.
//!
//! There are two laws. No assignment satisfies a formula that a log refutes (`refutations_refute`).
//! Over n variables, fewer than 3^n derived steps with a literal are fresh
//! (`empowering_below_3_pow_vars`).
#![tactic(auto)]

mod conflicts;
mod hints;
mod laws;
mod log_text;
mod numbers;
mod numbers_written;
mod packed;
mod read;
mod reader;
mod step;
mod step_line;
mod steps;
mod steps_left;
mod unpack;
mod write;

pub use conflicts::count_learned_clauses;
pub use hints::Hints;
pub use laws::{empowering_below_3_pow_vars, refutations_refute};
pub use log_text::LogText;
pub use read::{read_step, read_step_into};
pub use step::Step;
pub use step_line::StepBuffer;
pub use steps::Log;
pub use write::{push_step_text, write_step};
