ghost use Rattle.std.specs.Prelude.{◌≡◌, ◌<◌, ◌≤◌, None, length, IfOk, OnOk, OnErr};
ghost use Rattle.std.specs.Io.KnownBytes.{ReadConsumes, WriteAppends};
ghost use Rattle.ilk_io.specs.Faults.{CountedOneFault};

use crate::plan::saturating_inc;
use crate::retry::{read_some_with_retry, write_some_with_retry};
use crate::{Failed, Sink, Source};
use std::io::{Read, Write};
use std::marker::Model;

/// A source over a reader, such as standard input. Contracts see the remaining bytes only in its
/// own `read`, not as those of a `Source`.
///
/// An interrupted read is repeated at most 1000 times. Failures are counted, up to the greatest
/// `u64`.
#[derive(Drop)]
pub struct StdSource<R: Read> {
    reader: R,
    faults: u64,
}

impl<R: Read> Model for StdSource<R> {
    ghost use Rattle.ilk_io.specs.Adapters.{ReaderSource};

    ghost Value = { ReaderSource R };

    ghost view = { λ s. record { reader = s.reader; faults = s.faults } };
}

impl<R: Read> StdSource<R> {
    /// Creates a source over `reader`.
    pub fn new(reader: R) -> Self
        ensures { result ≡ record { reader = reader; faults = 0 } }
    {
        StdSource { reader, faults: 0 }
    }
}

impl<R: Read> Source for StdSource<R> {
    ghost left = { λ _. None };

    ghost faults = { λ s. s.faults };

    fn read(&mut self, into: &mut [u8]) -> Result<usize, Failed>
        ensures within { IfOk result (λ n. n ≤ length into.new) }
        ensures failed { OnErr result (CountedOneFault self.old.faults self.new.faults) }
        ensures unraised { OnOk result (self.new.faults ≡ self.old.faults) }
        ensures bytes { ReadConsumes (R.remaining self.old.reader) (R.remaining self.new.reader)
            result into.new }
    {
        let answer = read_some_with_retry(&mut self.reader, into);
        if answer.is_err() {
            self.faults = saturating_inc(self.faults);
        }
        answer
    }
}

/// A sink over a writer, such as standard output. Contracts see the bytes written only in its own
/// `write`, not as those of a `Sink`.
///
/// An interrupted write is repeated at most 1000 times. A call also fails if the writer takes no
/// byte of a non-empty piece. Failures are counted, up to the greatest `u64`.
#[derive(Drop)]
pub struct StdSink<W: Write> {
    writer: W,
    faults: u64,
}

impl<W: Write> Model for StdSink<W> {
    ghost use Rattle.ilk_io.specs.Adapters.{WriterSink};

    ghost Value = { WriterSink W };

    ghost view = { λ s. record { writer = s.writer; faults = s.faults } };
}

impl<W: Write> StdSink<W> {
    /// Creates a sink over `writer`.
    pub fn new(writer: W) -> Self
        ensures { result ≡ record { writer = writer; faults = 0 } }
    {
        StdSink { writer, faults: 0 }
    }
}

impl<W: Write> Sink for StdSink<W> {
    ghost written = { λ _. None };

    ghost faults = { λ s. s.faults };

    fn write(&mut self, piece: &[u8]) -> Result<usize, Failed>
        ensures within { IfOk result (λ n. n ≤ length piece.now) }
        ensures some { IfOk result (λ n. 0 < length piece.now → 0 < n) }
        ensures failed { OnErr result (CountedOneFault self.old.faults self.new.faults) }
        ensures unraised { OnOk result (self.new.faults ≡ self.old.faults) }
        ensures bytes { WriteAppends (W.contents self.old.writer) (W.contents self.new.writer)
            result piece.now }
    {
        let answer = write_some_with_retry(&mut self.writer, piece);
        if answer.is_err() {
            self.faults = saturating_inc(self.faults);
        }
        answer
    }
}
