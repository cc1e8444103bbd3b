ghost use Rattle.std.specs.Prelude.{◌≡◌, ℕ, ◌<◌, ◌≤◌, Option, List, length, take, IfOk, OnOk, OnErr};
ghost use Rattle.ilk_io.specs.Faults.{CountedOneFault};
ghost use Rattle.ilk_io.specs.Sink.{Appends};

use crate::Failed;

/// A place to write bytes to; calls may fail, and faults are counted.
pub trait Sink {
    // The bytes written so far, or `None` if contracts don't see them.
    ghost written: { Self → Option (List ℕ) };

    // The number of failed calls so far. A count kept in a `u64` saturates at its greatest value.
    ghost faults: { Self → ℕ };

    /// Writes bytes from the front of `piece` and returns their number, at least one if the piece
    /// isn't empty.
    ///
    /// A call that returns `Failed` counts one fault and takes no byte. Any other call leaves the
    /// count unchanged.
    fn write(&mut self, piece: &[u8]) -> Result<usize, Failed>
        ensures within { IfOk result (λ n. n ≤ length piece.now) }
        ensures some { IfOk result (λ n. 0 < length piece.now → 0 < n) }
        ensures taken { IfOk result
            (λ n. Appends (written self.old) (written self.new) (take n piece.now)) }
        ensures kept { OnErr result (written self.new ≡ written self.old) }
        ensures failed { OnErr result (CountedOneFault (faults self.old) (faults self.new)) }
        ensures unraised { OnOk result (faults self.new ≡ faults self.old) };
}
