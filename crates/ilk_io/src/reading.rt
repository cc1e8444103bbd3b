ghost use Rattle.std.specs.Prelude.{◌≡◌, ◌≢◌, ◌+◌, ◌^◌, ◌<◌, ◌≤◌, Err, IfOk, IfErr, vec_len};
ghost use Rattle.ilk_io.specs.Source.{ConsumesAtMost, IsAtEnd, IsAllLeft};
ghost use Rattle.ilk_io.specs.ReadError.{ReadErrorHasCause};

use crate::{Failed, Source};
use std::alloc::Global;
use thiserror::Error;

/// The reason why a source wasn't read to its end.
#[derive(Clone, Copy, Debug, PartialEq, Eq, Error)]
pub enum ReadError {
    /// A call of the source failed.
    #[error("a read failed")]
    Failed = 1,
    /// The source has more bytes than the limit.
    #[error("the input is longer than its limit")]
    TooLong = 2,
    /// Memory ran out.
    #[error("out of memory")]
    OutOfMemory = 3,
}

const PIECE: usize = 4096;

/// Reads the source to its end and returns its remaining bytes, at most `limit`. Fails with:
///
/// - `Failed` at the first call of the source that fails. Exactly one fault is counted, and the
///   source is not called again.
/// - `TooLong` if there are more than `limit` bytes. At most `limit + 1` are taken from the source.
/// - `OutOfMemory` if memory runs out.
pub fn read_all<S: Source>(alloc: Global, source: &mut S, limit: u64) -> Result<Vec<u8>, ReadError>
    requires { limit < 2 ^ 40 }
    ensures whole { IfOk result (λ v. IsAllLeft (S.left source.old) v.items) }
    ensures end { IfOk result (λ _. IsAtEnd (S.left source.new)) }
    ensures within { IfOk result (λ v. vec_len v ≤ limit) }
    ensures cause { IfErr result
        (λ e. ReadErrorHasCause e limit (S.left source.old) (S.faults source.old)
        (S.faults source.new)) }
    ensures taken { ConsumesAtMost (limit + 1) (S.left source.old) (S.left source.new) }
    ensures unraised { result ≢ Err ReadError.Failed → S.faults source.new ≡ S.faults source.old }
    ensures counted { S.faults source.old ≤ S.faults source.new }
{
    let mut bytes = Vec::new(alloc);
    let mut piece = [0; PIECE];
    loop {
        let room = limit + 1 - bytes.len() as u64;
        let want = room.min(PIECE as u64) as usize;
        match source.read(&mut piece[..want]) {
            Ok(0) => return Ok(bytes),
            Ok(n) => {
                if bytes.extend_from_slice(&piece[..n]).is_err() {
                    return Err(ReadError::OutOfMemory);
                }
            }
            Err(Failed) => return Err(ReadError::Failed),
        }
        if bytes.len() as u64 > limit {
            return Err(ReadError::TooLong);
        }
    }
}
