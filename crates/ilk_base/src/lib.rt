//! The base of every layer; it knows nothing of railways. It contains rows and texts, which
//! contracts see as plain lists, and lemmas about lists, options and results of any type.
//!
//! A `Row` is a `Vec` and a `Text` is a `String`. Contracts see a row as the list of its items and
//! a text as the list of its bytes. `new`, `push` and `push_if` build a row; `at`, `len` and
//! `as_slice` read it; `at_mut` and `remove` change it. `has_number` searches numbers. A type whose
//! values are written as words is `HasWord`.
//!
//! `specs/` contains `do` blocks over options (`Option`) and results (`Result`), and the effect of
//! a write through `at_mut` (`Row`). It also contains tests of every number below a bound (`Each`),
//! lists of numbers (`Numbers`), lists without duplicates (`Once`), and words in texts (`Words`).
#![tactic(auto)]

mod bit_set;
mod numbers;
mod row;
mod text;
mod words;

pub use bit_set::BitSet256;
pub use numbers::has_number;
pub use row::Row;
pub use text::Text;
pub use words::{HasWord, first_value_with_word};
