//! Checks the rules of the network (N) on its draft. `check_network` returns every violated rule
//! with its location, in order. `check_network_with_names` does the same if the names of the
//! network were already collected.
//!
//! The definitions use names, and walks of any length. The checks use numbers for names, and a
//! table of bits for reachability that grows by one section at a time. The two are proved equal.
#![tactic(auto)]

mod ends;
mod examples;
mod kinds;
mod neighbours;
mod reach;
mod rules;
mod walks;

pub use rules::{check_network, check_network_with_names};
pub use walks::up_cycle_test_is_exact;
