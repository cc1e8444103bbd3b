//! Encodes a system's values at one moment, and forms over them, as clauses.
//!
//! A copy (time frame) has one integer for each variable of the system (`specs/Copy`). Variables
//! with many values come first: each has its bits and, right behind them, the literals of its
//! values and bounds. Forms and rules use only these literals, so a search sees a value in one
//! literal and not in its bits. `reserve_copy_vars` adds the variables of a copy, and
//! `add_copy_clauses` its clauses. So copies may have their variables in another order than their
//! clauses.
//!
//! `demand_some_lit_or_form` adds clauses that say that some literal is true or a form holds
//! (`specs/Demand`); `demand_form_and_forms` says that all of several forms hold. Not is pushed
//! inward. An Or of a variable's values up to k is the copy's literal for that bound, if there is
//! one (`specs/Bound`). Any other part that is not a literal gets one new variable, true exactly if
//! it holds (`specs/Gathered`). Equal parts of the forms of one call share it: each call has a list
//! of the gates that it made so far (`specs/Gates`). A double negation is a mark that its And or Or
//! is one literal. So every earlier assignment extends in exactly one way.
//!
//! `demand_some_form_fails` and `demand_form_or_some_fail` say that some form fails
//! (`specs/Violated`). The parts of And at the top of a form are its instances. Each gets a
//! literal, and one clause says that one of them is violated.
#![tactic(auto)]

mod bound;
mod clauses;
mod copy;
mod gates;
mod literals;
mod violated;

pub use clauses::{demand_form_and_forms, demand_some_lit_or_form};
pub use copy::{CopyLits, VarValueAndBoundLits, add_copy_clauses, reserve_copy_vars};
pub use violated::{demand_form_or_some_fail, demand_some_form_fails};
