//! Reads the interlocking table of a configuration, and reports the first violated rule of its
//! form. `read_table` reads the document and its routes. `read_net_and_table_drafts` reads a whole
//! configuration: the document once, then its network and its routes.
#![tactic(auto)]

mod drafts;
mod examples;
mod listed;
mod route;
mod table;

pub use drafts::read_net_and_table_drafts;
pub use examples::{bad_texts_are_refused, boarded_line_is_read, boardless_line_is_read};
pub use table::read_table;
