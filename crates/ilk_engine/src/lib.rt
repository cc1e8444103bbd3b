//! The verdict on a plant: whether a run of its events, of any length, reaches a hazard or breaks a
//! family of the invariant.
//!
//! `specs/Right` defines the right verdicts, in states and events. If a plant is safe, runs of any
//! length from the initial state keep the invariant (`ilk_forever`). `decide` searches over the
//! plant's finite system (`ilk_induct`) and returns its runs as runs of events. A query has a run
//! of the system if and only if the plant has one (`query_runs_correspond` of `ilk_forever`).
//!
//! `certificate` writes the text that proves a verdict to others (`specs/CertificateOf`).
//! `lazy_certificate_text` returns it in pieces, so that it is never in memory as a whole.
//! `ilk_forever` says what a certificate shows, regardless of its origin.
//!
//! Re-exports: `formula` makes the formula of one query, an `Asked` is a query with the log of its
//! search, and `CertAudit` checks a certificate in pieces.
#![tactic(auto)]

mod certifying;
mod deciding;
mod events;
mod last;
mod lifting;
mod verdict;

pub use certifying::{certificate, lazy_certificate_text};
pub use deciding::decide;
pub use ilk_certificate::{Asked, CertificateText};
pub use ilk_plant_audit::{CertAudit, Ended, Fed};
pub use ilk_queries::formula;
pub use verdict::{Found, Verdict};
