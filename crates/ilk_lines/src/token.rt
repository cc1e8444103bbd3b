ghost use Rattle.std.specs.Prelude.{◌≡◌, ◌+◌, ◌≤◌, ◌==◌, ◌++◌, [], drop, length, min, take};
ghost use Rattle.std.specs.Fmt.{decimal};

use itoa::write_digits;
use std::marker::Model;

// The capacity of a token: four bytes more than the longest 64-bit number.
const SIZE: usize = 24;

/// At most 24 bytes of a text, written from last to first and taken from the front. Needs no
/// memory. Contracts see the bytes that are still to be taken.
#[derive(Drop)]
pub struct ShortByteStack {
    bytes: [u8; SIZE],
    // The start of the untaken bytes, which extend to the end.
    start: usize,
}

impl Model for ShortByteStack {
    ghost use Rattle.std.specs.Prelude.{ℕ, ◌≤◌, List, drop};

    ghost Value = { List ℕ };

    ghost view = { λ token. drop token.start token.bytes };

    ghost invariant = { λ token. token.start ≤ 24 };
}

impl ShortByteStack {
    /// Creates an empty value.
    pub fn empty() -> ShortByteStack
        ensures { result ≡ [] }
    {
        ShortByteStack {
            bytes: [0; SIZE],
            start: SIZE,
        }
    }

    /// Returns whether no bytes are left to be taken.
    #[inline]
    pub fn is_empty(&self) -> bool
        ensures { result ≡ (length self.now == 0) }
    {
        self.start == SIZE
    }

    /// Writes the bytes of `word` before the bytes that are left. Together they must fit in 24
    /// bytes.
    #[inline]
    pub fn prepend(&mut self, word: &[u8])
        requires { length word.now + length self.old ≤ 24 }
        ensures { self.new ≡ word.now ++ self.old }
    {
        let end = self.start;
        let start = end - word.len();
        self.bytes[start..end].copy_from_slice(word);
        self.start = start;
    }

    /// Writes `number` in decimal before the bytes that are left. At most four may be left.
    #[inline]
    pub fn prepend_decimal(&mut self, number: u64)
        requires { length self.old ≤ 4 }
        ensures text { self.new ≡ decimal number ++ self.old }
        ensures short { length self.new ≤ length self.old + 20 }
    {
        let end = self.start;
        self.start = write_digits(number, &mut self.bytes, end);
    }

    /// Moves the next bytes to the front of `into`, as many as exist and fit, and returns their
    /// number.
    #[inline]
    pub fn take(&mut self, into: &mut [u8]) -> usize
        ensures count { result ≡ min (length into.old) (length self.old) }
        ensures bytes { take result into.new ≡ take result self.old }
        ensures rest { self.new ≡ drop result self.old }
    {
        let start = self.start;
        let count = into.len().min(SIZE - start);
        into[..count].copy_from_slice(&self.bytes[start..start + count]);
        self.start = start + count;
        count
    }
}
