//! The events of routes and points: requesting, reserving, locking, use, sequential release and
//! cancelling of routes, and the moves of points.
//!
//! The rules are those of an interlocking with sequential release, as in Vu, Haxthausen and
//! Peleska, "Formal modelling and verification of interlocking systems featuring sequential
//! release", Science of Computer Programming 133 (2017).
//!
//! Each `step_..` tests whether its event is enabled and, if so, changes the state as
//! `specs/Routes.antt` and `Points.antt` say; otherwise the state doesn't change. `ilk_model` calls
//! them in `apply`.
#![tactic(auto)]

mod changes;
mod conditions;
mod points;
mod routes;

pub use conditions::{
    all_boards_closed, has_aspect, is_point_detected_as_listed, is_protecting_board, last_of,
    lie_from_position,
};
pub use points::{step_settle, step_throw};
pub use routes::{
    step_allocate, step_cancel, step_finish, step_lock, step_mark, step_release, step_sense,
};
