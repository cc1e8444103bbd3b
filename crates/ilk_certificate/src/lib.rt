//! The text of a certificate, which shows an assessor, without trust in any search, that a system
//! is safe.
//!
//! `specs/Certificate` defines a certificate of a system and a goal, regardless of its origin: the
//! queries of `safe k`, and a log that refutes each. `specs/CertificateText` defines its lines.
//! Neither depends on how the queries were answered, so reading a certificate needs no search.
//!
//! `safe_text` and `spent_text` return the text of queries that were asked (`Asked`). A
//! `CertificateText` produces the same text in pieces, made from the logs as it is taken, and never
//! holds all of it. `ilk_induct` defines what a spent text shows.
#![tactic(auto)]

mod asked;
mod certificate_text;
mod part;
mod text;
mod write;

pub use asked::Asked;
pub use certificate_text::CertificateText;
pub use write::{safe_text, spent_text};
