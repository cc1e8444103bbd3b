//! The nine families of the invariant, V1 to V9, as forms over the values of a plant's variables.
//!
//! The form of a family (`ilk_model`) tests a state's image (`ilk_layout`). `specs/` defines the
//! forms as trees: `RouteFamilies` V1, V4, V5 and V9, `HoldFamilies` V2 and V3, `PointFamily` V6,
//! `TrainFamilies` V7 and V8. Each is an And of instances (`FamilyTrees`), so a search over
//! formulas first asks which instance is violated.
//!
//! `family_form` returns the form of one family, `family_forms` all nine.
#![tactic(auto)]

mod families;
mod held;
mod hold_family;
mod kept_family;
mod laws;
mod lock_family;
mod parts;
mod point_family;
mod route_families;
mod train_families;

pub use families::{family_form, family_forms};
pub use laws::{family_forms_are_correct, family_forms_are_valid};
