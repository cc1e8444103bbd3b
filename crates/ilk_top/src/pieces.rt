ghost use Rattle.std.specs.Prelude.{◌≡◌, ◌≢◌, ◌+◌, ◌^◌, ◌<◌, ◌≤◌, Err, IfOk, IfErr};
ghost use Rattle.ilk_io.specs.ReadError.{ReadErrorHasCause};
ghost use Rattle.ilk_io.specs.Source.{IsAtEnd, ConsumesAtMost};
ghost use Rattle.ilk_top.specs.Feeding.{WholeSourceFedAndWithinLimit};

use ilk_answers::ExtraInputReader;
use ilk_io::{Failed, ReadError, Source};

// The most bytes requested from a source in one call.
const PIECE: usize = 65536;

/// Reads `source` to its end, at most `limit` bytes, and feeds them to `reader` in pieces. Fails
/// with:
///
/// - `Failed` at the first call of `source` that fails. Exactly one fault is counted, and the
///   source is not called again.
/// - `TooLong` if there are more than `limit` bytes. At most `limit + 1` are taken from the source.
/// - `OutOfMemory` if the reader gets no memory.
pub(crate) fn feed_whole_source_to_reader<S: Source>(
    source: &mut S,
    limit: u64,
    reader: &mut ExtraInputReader<'_>,
) -> Result<(), ReadError>
    requires limit { limit < 2 ^ 40 }
    ensures whole { IfOk result (λ _.
        WholeSourceFedAndWithinLimit (S.left source.old) limit reader.old reader.new) }
    ensures end { IfOk result (λ _. IsAtEnd (S.left source.new)) }
    ensures cause { IfErr result
        (λ e. ReadErrorHasCause e limit (S.left source.old) (S.faults source.old)
        (S.faults source.new)) }
    ensures taken { ConsumesAtMost (limit + 1) (S.left source.old) (S.left source.new) }
    ensures unraised { result ≢ Err ReadError.Failed → S.faults source.new ≡ S.faults source.old }
    ensures counted { S.faults source.old ≤ S.faults source.new }
{
    let mut piece = [0; PIECE];
    let mut count = 0;
    loop {
        let room = limit + 1 - count;
        let want = room.min(PIECE as u64) as usize;
        match source.read(&mut piece[..want]) {
            Ok(0) => return Ok(()),
            Ok(n) => {
                if reader.feed(&piece[..n]).is_err() {
                    return Err(ReadError::OutOfMemory);
                }
                count += n as u64;
            }
            Err(Failed) => return Err(ReadError::Failed),
        }
        if count > limit {
            return Err(ReadError::TooLong);
        }
    }
}
