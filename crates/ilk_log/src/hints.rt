//! The hints of a step.

use ilk_base::Row;

/// The numbers of the clauses that a step uses, in order. The clauses of the formula are numbered
/// from 1, and the steps after them.
pub type Hints = Row<u64>;
