ghost use Rattle.std.specs.Prelude.{◌≡◌, [], ◌≤◌, IsOk, OnOk, OnErr};
ghost use Rattle.ilk_io.specs.Faults.{CountedOneFault};
ghost use Rattle.ilk_io.specs.Sink.{Appends, AppendsPrefix};

use crate::{Failed, Sink};

/// Writes the whole text to `sink`; an empty text makes no call. Returns `Failed` at the first call
/// of the sink that fails, which is not called again. Exactly one fault is then counted, and a
/// prefix of the text was written.
pub fn write_all<K: Sink>(sink: &mut K, text: &[u8]) -> Result<(), Failed>
    ensures whole { OnOk result (Appends (K.written sink.old) (K.written sink.new) text.now) }
    ensures prefix { AppendsPrefix (K.written sink.old) (K.written sink.new) text.now }
    ensures failed { OnErr result (CountedOneFault (K.faults sink.old) (K.faults sink.new)) }
    ensures unraised { OnOk result (K.faults sink.new ≡ K.faults sink.old) }
    ensures counted { K.faults sink.old ≤ K.faults sink.new }
    ensures untouched { text.now ≡ [] → IsOk result × (sink.new ≡ sink.old) }
{
    let mut rest = text;
    while !rest.is_empty() {
        match sink.write(rest) {
            Err(Failed) => return Err(Failed),
            Ok(taken) => rest = &rest[taken..],
        }
    }
    Ok(())
}
