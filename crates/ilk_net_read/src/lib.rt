//! Reads the network of a configuration, and reports the first violated rule of its form (the JSON
//! schema).
//!
//! The rules are checked in one order, the same as in the definition, so a configuration has one
//! first fault. `read_value` reads the bytes as JSON, `document_from_value` the document, and
//! `network_from_document` its sections; `read_network` does the last two. The crate re-exports its
//! readers of documents and members for the reader of the interlocking table.
#![tactic(auto)]

mod document;
mod fault;
mod member;
mod name;
mod network;
mod section;
mod text;
mod version;

pub use document::{Document, document_from_value};
pub use fault::{Form, FormError, FormFault, Place, ValueReadError, rule_error_at_place};
pub use member::{
    has_member_count, member_as_array, member_as_str, member_as_text, member_as_text_or_null,
    member_as_texts, member_as_u64,
};
pub use name::{is_between, is_name, is_name_if_given};
pub use network::{network_from_document, read_network};
pub use text::read_value;
pub use version::Version;
