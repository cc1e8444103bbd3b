//! Tests of the program and of its readers, in a separate crate because a crate with tests is
//! proved twice. They test what no clause can state: that an answer comes if memory suffices.
//!
//! `words_tests` reads command lines; `form_tests` and `draft_tests` read configurations;
//! `network_tests` and `table_tests` check the rules of small drafts. `run_tests` lets each call of
//! a source or sink fail in turn (`runs`).
#![tactic(auto)]

#[cfg(test)]
mod draft_tests;
#[cfg(test)]
mod form_tests;
#[cfg(test)]
mod network_tests;
#[cfg(test)]
mod parts;
#[cfg(test)]
mod run_tests;
#[cfg(test)]
mod runs;
#[cfg(test)]
mod table_tests;
#[cfg(test)]
mod words_tests;
