//! Decodes the image of a well-formed state without hazard back into such a state.
//!
//! An image gives the occupancy of each section, but does not list trains. A train is found by its
//! tail; its body goes from there to the section ahead until its head. If the values are
//! well-formed, the section ahead of a train's section is the next one of its body. So each section
//! is visited at most once as a tail and at most once in a body.
//!
//! An image does not determine the order of a state's trains. `state_of` lists them in ascending
//! order of their tails' sections (`specs/Order`).
//!
//! The module `lists` reads the routes, points, boards, locks and occupancies by their variables
//! (`numbers`). `trains` finds the trains, and `states` joins both. `specs/Read` defines the result
//! for any values. `proofs/Same` shows that well-formed values give a well-formed state without
//! hazard, and that they are its image.
#![tactic(auto)]

mod lists;
mod numbers;
mod states;
mod trains;

pub use states::state_of;
