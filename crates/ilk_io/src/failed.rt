use thiserror::Error;

/// The error of a source or sink: a call failed.
#[derive(Clone, Copy, Debug, PartialEq, Eq, Error)]
#[error("a read or write failed")]
pub struct Failed;
