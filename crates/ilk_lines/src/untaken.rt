ghost use Rattle.std.specs.Prelude.{◌≡◌, [], drop, length, min, take};

use std::alloc::Global;
use std::marker::Model;

/// The rest of a text that is held in memory and taken in pieces. Contracts see the bytes that are
/// still to be taken.
#[derive(Drop)]
pub struct RemainingBytes {
    bytes: Vec<u8>,
    // The number of bytes taken.
    taken: usize,
}

impl Model for RemainingBytes {
    ghost use Rattle.std.specs.Prelude.{ℕ, ◌≤◌, List, drop, vec_len};

    ghost Value = { List ℕ };

    ghost view = { λ untaken. drop untaken.taken untaken.bytes.items };

    ghost invariant = { λ untaken. untaken.taken ≤ vec_len untaken.bytes };
}

impl RemainingBytes {
    /// Creates an empty rest.
    pub fn empty(alloc: Global) -> RemainingBytes
        ensures { result ≡ [] }
    {
        RemainingBytes::from_bytes(Vec::new(alloc))
    }

    /// Creates a rest that is all of `bytes`.
    pub fn from_bytes(bytes: Vec<u8>) -> RemainingBytes
        ensures { result ≡ bytes.items }
    {
        RemainingBytes { bytes, taken: 0 }
    }

    /// Moves the next bytes to the front of `into`, as many as exist and fit, and returns their
    /// number. Needs no memory.
    pub fn take(&mut self, into: &mut [u8]) -> usize
        ensures count { result ≡ min (length into.old) (length self.old) }
        ensures bytes { take result into.new ≡ take result self.old }
        ensures rest { self.new ≡ drop result self.old }
    {
        let start = self.taken;
        let count = into.len().min(self.bytes.len() - start);
        into[..count].copy_from_slice(&self.bytes[start..start + count]);
        self.taken = start + count;
        count
    }
}
