ghost use Rattle.std.specs.Prelude.{◌≡◌};
ghost use Rattle.ilk_lines.specs.declared.fault.LineFault.TheVariants.{OutOfMemory};

use std::alloc::AllocError;
use thiserror::Error;

/// The reason why lines can't be read.
#[derive(Clone, Copy, PartialEq, Eq, Debug, Error)]
pub enum LineFault {
    /// The line with this number, from 1, is missing, not ended by a line feed, or not allowed at
    /// its place.
    #[error("line {0} is bad")]
    BadLine(u64),
    /// Memory ran out.
    #[error("out of memory")]
    OutOfMemory,
}

impl From<AllocError> for LineFault {
    ghost from_gives = { λ _ fault. fault ≡ OutOfMemory };

    fn from(_error: AllocError) -> LineFault {
        LineFault::OutOfMemory
    }
}
