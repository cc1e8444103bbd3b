//! One step of a finite system as clauses, by exactly one rule. A *copy* has the literals of the
//! system's values at one moment of a run: one copy is before the step, the next after it.
//!
//! The choice comes first (`specs/Choice`): a variable for each rule, true if the rule is *not*
//! chosen. Exactly one is false. A search that tries false first thus tries to choose a rule. Then
//! come the demands of each chosen rule (`specs/Rules`): its guard in the current copy, its
//! settings in the next. The frame axioms follow (`specs/Frame`): a variable that no chosen rule
//! sets keeps its value. They say so in both directions and for each literal, so a search sees at
//! once what is carried over.
//!
//! `add_step` adds them all. By its law (`specs/Step`), an assignment in which the two copies have
//! values extends in exactly one way for each rule that leads from one to the other. `chosen_rule`
//! reads the rule back.
#![tactic(auto)]

mod choice;
mod frame;
mod rules;
mod step;

pub use choice::{Choice, chosen_rule};
pub use step::add_step;
