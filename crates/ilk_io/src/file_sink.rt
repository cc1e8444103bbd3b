ghost use Rattle.std.specs.Prelude.{◌≡◌, ◌<◌, ◌≤◌, None, length, IfOk, IfNone, IfSome, IsSome, OnOk, OnErr};
ghost use Rattle.std.specs.Io.KnownBytes.{WriteAppends};
ghost use Rattle.ilk_io.specs.Faults.{CountedOneFault};

use crate::plan::saturating_inc;
use crate::retry::write_some_with_retry;
use crate::{Failed, Sink};
use std::fs::{File, Files};
use std::marker::Model;

/// A sink that writes to a file. The first call creates the file through the runtime, or empties an
/// existing one. Contracts don't see the bytes written.
///
/// If opening fails, the call fails and the next one tries again. Once open, the file stays open,
/// and each write continues after the one before. An interrupted write is repeated at most 1000
/// times. A call also fails if the file takes no byte of a non-empty piece. Failures are counted,
/// up to the greatest `u64`.
///
/// If the call that opens the file succeeds, it is one write on some file that was opened: see the
/// clause `first`. No clause states that any call succeeds, which file was opened, that it was
/// emptied, or which bytes were written to it before. The test `writes_the_named_file` shows these
/// points. A file whose sink is never called is unchanged.
#[derive(Drop)]
pub struct FileSink<'a, R: Files> {
    rt: &'a R,
    name: String,
    file: Option<R::File>,
    faults: u64,
}

impl<'a, R: Files> Model for FileSink<'a, R> {
    ghost use Rattle.ilk_io.specs.Adapters.{LazilyOpenedFile};

    ghost Value = { LazilyOpenedFile R.File };

    ghost view = { λ s. record { name = s.name; file = s.file; faults = s.faults } };
}

impl<'a, R: Files> FileSink<'a, R> {
    /// Creates a sink over the file `name`, which isn't opened yet.
    pub fn new(rt: &'a R, name: String) -> Self
        ensures name { result.name ≡ name }
        ensures closed { result.file ≡ None }
        ensures faults { result.faults ≡ 0 }
    {
        FileSink {
            rt,
            name,
            file: None,
            faults: 0,
        }
    }

    fn write_open(&mut self, piece: &[u8]) -> Result<usize, Failed>
        ensures within { IfOk result (λ n. n ≤ length piece.now) }
        ensures some { IfOk result (λ n. 0 < length piece.now → 0 < n) }
        ensures faults { self.new.faults ≡ self.old.faults }
        ensures opened { OnOk result (IsSome self.new.file) }
        // Once open, the file stays open, and each write continues after the one before.
        ensures name { self.new.name ≡ self.old.name }
        ensures stays { IsSome self.old.file → IsSome self.new.file }
        ensures bytes { IfSome self.old.file (λ old. IfSome self.new.file (λ new.
            WriteAppends (R.File.contents old) (R.File.contents new) result piece.now)) }
        // If this call opens the file, it is one write on a file that was opened.
        ensures first { IfNone self.old.file (IfSome self.new.file (λ new.
            (opened : R.File) ×
            WriteAppends (R.File.contents opened) (R.File.contents new) result piece.now)) }
    {
        if self.file.is_none() {
            self.file = File::create(self.rt, self.name.as_str()).ok();
        }
        match &mut self.file {
            Some(file) => write_some_with_retry(file, piece),
            None => Err(Failed),
        }
    }
}

impl<R: Files> Sink for FileSink<'_, R> {
    ghost written = { λ _. None };

    ghost faults = { λ s. s.faults };

    fn write(&mut self, piece: &[u8]) -> Result<usize, Failed>
        ensures within { IfOk result (λ n. n ≤ length piece.now) }
        ensures some { IfOk result (λ n. 0 < length piece.now → 0 < n) }
        ensures failed { OnErr result (CountedOneFault self.old.faults self.new.faults) }
        ensures unraised { OnOk result (self.new.faults ≡ self.old.faults) }
        ensures opened { OnOk result (IsSome self.new.file) }
        ensures name { self.new.name ≡ self.old.name }
        ensures stays { IsSome self.old.file → IsSome self.new.file }
        ensures bytes { IfSome self.old.file (λ old. IfSome self.new.file (λ new.
            WriteAppends (R.File.contents old) (R.File.contents new) result piece.now)) }
        ensures first { IfNone self.old.file (IfSome self.new.file (λ new.
            (opened : R.File) ×
            WriteAppends (R.File.contents opened) (R.File.contents new) result piece.now)) }
    {
        let answer = self.write_open(piece);
        if answer.is_err() {
            self.faults = saturating_inc(self.faults);
        }
        answer
    }
}
