//! Three forms over the values of a plant's variables. The first says that some section has a
//! hazard. The second says that the values are the image of a well-formed state without hazard, the
//! third that they are that of the initial state.
//!
//! `specs/HazardForm`, `specs/WellformedForm` and `specs/StartForm` define the forms as trees. The
//! contract of each call states the meaning of its form (`specs/Laws`). For the image of a
//! well-formed state, the first form holds exactly if the state has a hazard. For values in range,
//! each of the others holds exactly if the values are such an image.
#![tactic(auto)]

mod hazard;
mod start;
mod wellformed;

pub use hazard::hazard_form;
pub use start::start_form;
pub use wellformed::wellformed_form;
