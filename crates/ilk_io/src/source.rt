ghost use Rattle.std.specs.Prelude.{◌≡◌, ℕ, ◌<◌, ◌≤◌, Option, List, length, take, IfOk, OnOk, OnErr};
ghost use Rattle.ilk_io.specs.Faults.{CountedOneFault};
ghost use Rattle.ilk_io.specs.Source.{Consumes, IsAtEnd};

use crate::Failed;

/// A place to read bytes from; calls may fail, and faults are counted.
pub trait Source {
    // The bytes that are not read yet, or `None` if contracts don't see them.
    ghost left: { Self → Option (List ℕ) };

    // The number of failed calls so far. A count kept in a `u64` saturates at its greatest value.
    ghost faults: { Self → ℕ };

    /// Reads into the front of `into` and returns the number of bytes read; 0 means the end of the
    /// input, unless `into` is empty. The rest of `into` may hold anything.
    ///
    /// A call that returns `Failed` counts one fault and takes no byte from the source. Any other
    /// call leaves the count unchanged.
    fn read(&mut self, into: &mut [u8]) -> Result<usize, Failed>
        ensures within { IfOk result (λ n. n ≤ length into.new) }
        ensures taken { IfOk result
            (λ n. Consumes (left self.old) (left self.new) (take n into.new)) }
        ensures end { IfOk result (λ n. n ≡ 0 → 0 < length into.new → IsAtEnd (left self.new)) }
        ensures kept { OnErr result (left self.new ≡ left self.old) }
        ensures failed { OnErr result (CountedOneFault (faults self.old) (faults self.new)) }
        ensures unraised { OnOk result (faults self.new ≡ faults self.old) };
}
