ghost use Rattle.std.specs.Prelude.{◌≡◌, length, take, drop, min};

use std::marker::Model;

/// Bytes in memory that are read from the front. Contracts see the bytes that are not read yet.
#[derive(Drop)]
pub(crate) struct UnreadBytes {
    bytes: Vec<u8>,
    position: usize,
}

impl Model for UnreadBytes {
    ghost use Rattle.std.specs.Prelude.{ℕ, ◌≤◌, List, drop, vec_len};

    ghost Value = { List ℕ };

    ghost view = { λ a. drop a.position a.bytes.items };

    ghost invariant = { λ a. a.position ≤ vec_len a.bytes };
}

impl UnreadBytes {
    /// Creates unread bytes from `bytes`.
    pub fn new(bytes: Vec<u8>) -> UnreadBytes
        ensures { result ≡ bytes.items }
    {
        UnreadBytes { bytes, position: 0 }
    }

    /// Moves the next unread bytes into the front of `into`, as many as fit, and returns their
    /// number.
    pub fn read(&mut self, into: &mut [u8]) -> usize
        ensures count { result ≡ min (length into.old) (length self.old) }
        ensures bytes { take result into.new ≡ take result self.old }
        ensures rest { self.new ≡ drop result self.old }
    {
        let start = self.position;
        let count = into.len().min(self.bytes.len() - start);
        into[..count].copy_from_slice(&self.bytes[start..start + count]);
        self.position = start + count;
        count
    }
}
