//! Tests of formulas and of the search over them, in a separate crate because a crate with tests is
//! proved twice.
//!
//! `formula_memory_tests` and `search_memory_tests` check that no call reports out of memory if
//! memory is ample; no clause can say so. The cases of `tests/` check this for the program's
//! commands. These two modules have the calls that no command uses yet.
#![tactic(auto)]

#[cfg(test)]
mod assignments;
#[cfg(test)]
mod audit_tests;
#[cfg(test)]
mod chain_tests;
#[cfg(test)]
mod decide_tests;
#[cfg(test)]
mod formula_memory_tests;
#[cfg(test)]
mod number_tests;
#[cfg(test)]
mod pickers;
#[cfg(test)]
mod propagation_tests;
#[cfg(test)]
mod query_tests;
#[cfg(test)]
mod row_tests;
#[cfg(test)]
mod search_memory_tests;
#[cfg(test)]
mod solver_tests;
#[cfg(test)]
mod text_tests;
