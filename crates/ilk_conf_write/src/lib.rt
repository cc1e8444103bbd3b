//! Writes the drafts of a network and an interlocking table as JSON that is read back as exactly
//! these drafts.
//!
//! `specs/ConfigurationText.antt` defines the written value, member by member, in each of the two
//! versions. `configuration_json` returns its text; its contract states that reading undoes
//! writing. The reader (`ilk_table_read`) is separate: the two share only the names of members, the
//! versions and the word tables.
#![tactic(auto)]

mod value;
mod write;

pub use ilk_net_read::Version;
pub use write::configuration_json;
