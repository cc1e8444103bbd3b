//! Reads texts of any subject by lines and words.
//!
//! A line format is defined over plain lists (`specs/`): a text is the list of its lines (`Lines`),
//! and a line is the list of its words (`Words`). `Decimal` defines numbers with one spelling each.
//! `Reading` combines the results of consecutive lines with the number of the first bad line. A
//! format's definition is therefore a list of parts. Its reader is a list of calls, each with its
//! part as contract.
//!
//! `Lines::from_text` starts the reading of a text, and `expect_end_of_text` ends it. In between,
//! line by line:
//!
//! - `expect_line` reads a required line.
//! - `read_one_line_per_item` reads one line for each item.
//! - `read_while_some` reads as many lines as match.
//! - `next`, `require_line` and `split_first` serve loops of the caller.
//!
//! `split_at_first_occurrence` splits a text of another form at a byte. `strip_word_and_space`,
//! `split_at_first_space` and `split_off_first_word` split a line. `decimal_up_to` reads numbers,
//! and `push_decimal` writes them. The laws state that written texts, and only these, are read
//! back.
//!
//! A long text can be taken in pieces without holding all of it. `ShortByteStack` has its few most
//! recent bytes. `RemainingBytes` is the untaken rest of a text that is held.
#![tactic(auto)]

mod cursor;
mod decimal;
mod each;
mod examples;
mod fault;
mod laws;
mod parts;
mod token;
mod untaken;
mod words;

pub use cursor::Lines;
pub use decimal::{decimal_up_to, is_decimal, push_decimal};
pub use each::{read_one_line_per_item, read_while_some};
pub use fault::LineFault;
pub use laws::{
    decimals_are_those_written, line_split_and_join_inverse, word_split_and_join_inverse,
};
pub use parts::split_at_first_occurrence;
pub use token::ShortByteStack;
pub use untaken::RemainingBytes;
pub use words::{split_at_first_space, split_off_first_word, strip_start, strip_word_and_space};
