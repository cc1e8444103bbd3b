//! Finite systems: variables with small ranges, conditions on their values, and guarded rules.
//!
//! A variable of range c has the values 0 to c - 1. A form (`Form`) is a condition on the values of
//! all variables. A rule sets some variables if its guard holds. Contracts see a form as a tree
//! (`specs/Form`), with plain lists for vectors. If a contract says that a form, a rule or a system
//! equals a definition, it compares the trees.
//!
//! Forms and systems are built by their constructors and fields; `specs/Tree` and `specs/System`
//! define which are valid. `holds` evaluates a form, and `fire` fires a rule. `proofs/Trees` and
//! `proofs/Ranges` contain lemmas for the layers above.
#![tactic(auto)]

mod form;
mod system;

pub use form::{Form, Forms, Values, holds};
pub use system::{Ranges, Rule, Rules, Sets, Setting, System, fire};
