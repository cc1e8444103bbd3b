//! The image of a state: a list of small values, on which all rules, forms and formulas of higher
//! layers are built.
//!
//! A state lists trains with bodies of any length, but a formula needs a fixed number of values. So
//! the image stores an occupancy for each section (`Occupancy`): vacant, taken or a hazard.
//! `specs/Variables` defines the variables, their order, numbers and ranges. `image` takes one pass
//! over the trains.
//!
//! `laws` states the theorems. Images are in range. An image determines its state up to the order
//! of trains. Values in range are an image if and only if they are well-formed: a condition on each
//! section and its neighbours (`specs/Wellformed`). No event depends on the order of trains. The
//! last three are about well-formed states without hazard.
//!
//! `proofs/Changes` shows that each change of a state is one write to its image, or two if two
//! occupancies change. `specs/Decoded` defines the trains that well-formed values represent.
//!
//! The crate also builds atomic formulas over the image (`specs/Conditions`). Each tests one value:
//! a route's mode or counts, a point's detected or commanded position, a board, a lock or an
//! occupancy. `proofs/ConditionValues` shows their meaning for a state. Guards of rules
//! (`ilk_behave`) and forms of goals consist of them.
#![tactic(auto)]

mod conditions;
mod images;
mod laws;
mod occupancies;
mod values;
mod variable_numbers;
mod variables;

pub use conditions::{
    is_board_aspect, is_listed_point_commanded, is_listed_point_detected, is_point_commanded,
    is_point_detected, is_released_count, is_seen_count, lock_is, mode_is, negated, no_train_at,
    occupancy_is, section_point_is_commanded, section_point_is_detected, train_at,
};
pub use images::image;
pub use laws::{
    events_ignore_train_order, images_are_in_range, images_determine_except_train_order,
    wellformed_iff_safe_state_image,
};
pub use values::{
    Occupancy, aspect_value, commanded_value, detected_value, lock_value, mode_value,
    occupancy_value,
};
pub use variable_numbers::{
    board_var, commanded_var, detected_var, lock_var, mode_var, occupancy_var, released_count_var,
    seen_count_var,
};
pub use variables::ranges;
