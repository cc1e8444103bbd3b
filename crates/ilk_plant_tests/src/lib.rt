//! Tests of the layers between a plant and its verdict, in a separate crate because a crate with
//! tests is proved twice.
//!
//! `walk_tests` visits many states of a plant, and compares each event with the rules of the
//! plant's system, and each state with the forms over its image. `form_tests` has hand-written
//! states and values. `strict_tests` walks over plants with strict tables and checks the invariant
//! after each event.
#![tactic(auto)]

#[cfg(test)]
mod certificate_tests;
#[cfg(test)]
mod changes;
#[cfg(test)]
mod decide_tests;
#[cfg(test)]
mod examples;
#[cfg(test)]
mod form_tests;
#[cfg(test)]
mod forms;
#[cfg(test)]
mod image_tests;
#[cfg(test)]
mod name_tests;
#[cfg(test)]
mod plants;
#[cfg(test)]
mod rules;
#[cfg(test)]
mod stations;
#[cfg(test)]
mod strict_tests;
#[cfg(test)]
mod strict_walks;
#[cfg(test)]
mod texts;
#[cfg(test)]
mod walk_tests;
#[cfg(test)]
mod walks;
