ghost use Rattle.ilk_top.specs.declared.no_reply.NoReply.TheVariants.{OutOfMemory};
ghost use Rattle.std.specs.Prelude.{◌≡◌};

use std::alloc::AllocError;
use thiserror::Error;

/// The reason why a command gives no reply.
#[derive(Clone, Copy, PartialEq, Eq, Debug, Error)]
pub(crate) enum NoReply {
    /// A call of a source failed.
    #[error("a read failed")]
    ReadFault,
    /// Memory ran out.
    #[error("out of memory")]
    OutOfMemory,
}

impl From<AllocError> for NoReply {
    ghost from_gives = { λ _ none. none ≡ OutOfMemory };

    fn from(_error: AllocError) -> NoReply {
        NoReply::OutOfMemory
    }
}
