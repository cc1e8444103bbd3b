//! Checks whether bytes are a certificate of a plant, regardless of their origin. None of its
//! dependencies is a search crate.
//!
//! A certificate of a plant is a certificate of its finite system (`ilk_behave`) and its goal
//! (`ilk_queries`). `CertAudit` builds both once and takes the bytes in pieces of any length
//! (`feed`). `end` returns the number that the certificate is for, or the first bad line.
//! Everything else is in `ilk_cert_audit`.
#![tactic(auto)]

mod audit;

pub use audit::CertAudit;
pub use ilk_cert_audit::{Ended, Fed};
