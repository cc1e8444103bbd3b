//! A checker of certificates: whether bytes of any origin are a certificate of a finite system and
//! a goal. An assessor relies on it and on no search.
//!
//! `ilk_certificate` defines a certificate, `specs/Grammar` its lines, and `specs/FirstBad` the
//! first bad line of other bytes. A `SystemCertAudit` takes the bytes in pieces of any length
//! (`feed`) and gives its answer at the end (`end`), which depends only on the bytes. It keeps the
//! unfinished line, or only its first bytes if they show that the line is bad. It also keeps the
//! clauses of the current query until that is refuted.
//!
//! `LineAudit` takes one line at a time: it knows the lines that may follow, and advances by one
//! stage. `ilk_audit` checks the steps of a query, over the formula from `ilk_unroll`.
#![tactic(auto)]

mod answers;
mod audit;
mod laws;
mod lines;
mod next;
mod queries;
mod stage;

pub use answers::{Ended, Fed};
pub use audit::SystemCertAudit;
pub use laws::{certificate_is_for_one_k, rejected_line_is_first_bad};
