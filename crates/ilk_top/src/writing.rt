ghost use Rattle.std.specs.Prelude.{◌≡◌, [], IsOk, OnErr, OnOk, ◌≤◌};
ghost use Rattle.ilk_io.specs.Faults.{CountedOneFault};
ghost use Rattle.ilk_io.specs.Sink.{Appends, AppendsPrefix};

use ilk_answers::PendingOutput;
use ilk_io::{Failed, Sink, write_all};

// The most bytes passed to a sink in one call.
const PIECE: usize = 65536;

/// Writes all bytes of `content` to `sink`, in pieces, and allocates no memory. Empty content makes
/// no call. Fails at the first call of the sink that fails: exactly one fault is counted, a prefix
/// was written, and the sink is not called again.
pub(crate) fn write_pending_output<K: Sink>(
    sink: &mut K,
    content: &mut PendingOutput,
) -> Result<(), Failed>
    ensures whole { OnOk result (Appends (K.written sink.old) (K.written sink.new) content.old) }
    ensures prefix { AppendsPrefix (K.written sink.old) (K.written sink.new) content.old }
    ensures failed { OnErr result (CountedOneFault (K.faults sink.old) (K.faults sink.new)) }
    ensures unraised { OnOk result (K.faults sink.new ≡ K.faults sink.old) }
    ensures counted { K.faults sink.old ≤ K.faults sink.new }
    ensures untouched { content.old ≡ [] → IsOk result × (sink.new ≡ sink.old) }
{
    let mut piece = [0; PIECE];
    loop {
        let count = content.take(&mut piece);
        if count == 0 {
            return Ok(());
        }
        if write_all(sink, &piece[..count]).is_err() {
            return Err(Failed);
        }
    }
}
