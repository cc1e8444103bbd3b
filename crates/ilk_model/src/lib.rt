//! Events, runs and hazards of a plant.
//!
//! A run begins in a state, such as the initial one from `start`. `apply` extends it by one event.
//! `hazard` returns the first hazard: two trains are in one section, or a train is on a point that
//! is moving or not set for it. `is_wrong_under_train` checks the second for one section. The
//! definition of a run (`specs/Run.antt`) continues only from states without a hazard.
//!
//! `broken_family` returns the first of the nine families of the invariant that a state violates
//! (`specs/Families.antt`, and `specs/Meets.antt` for all of them).
#![tactic(auto)]

mod event;
mod families;
mod hazards;
mod held;
mod holding;
mod route_families;
mod shared;
mod train_families;
mod words;

pub use event::{Event, apply};
pub use families::broken_family;
pub use hazards::{HazardAt, hazard, is_wrong_under_train};
pub use ilk_plant::start_state as start;
