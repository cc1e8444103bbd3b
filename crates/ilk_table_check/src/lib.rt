//! Checks the interlocking table. `check_table` checks the rules of the table (R) on the drafts,
//! and `check_numbered_table` on existing numbered drafts. `check_columns` checks the rules of the
//! columns (C) on the plant, which is created between the two checks.
//! `borders_without_inward_board` checks C7, which depends only on the network.
//!
//! Each returns every violated rule with its location, in order.
#![tactic(auto)]

mod asking;
mod columns;
mod conflicts;
mod flags;
mod pairs;
mod table;
mod twice;
mod ways;

pub use columns::{borders_without_inward_board, check_columns};
pub use table::{check_numbered_table, check_table};
