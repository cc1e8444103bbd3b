ghost use Rattle.std.specs.Prelude.{◌≡◌, ◌≤◌, None, length, IfOk, IfNone, IfSome, IsSome, OnOk, OnErr};
ghost use Rattle.std.specs.Io.KnownBytes.{ReadConsumes};
ghost use Rattle.ilk_io.specs.Faults.{CountedOneFault};

use crate::plan::saturating_inc;
use crate::retry::read_some_with_retry;
use crate::{Failed, Source};
use std::fs::{File, Files};
use std::marker::Model;

/// A source that reads a file, which the first call opens through the runtime. Contracts don't see
/// the remaining bytes.
///
/// If opening fails, the call fails and the next one tries again. Once open, the file stays open,
/// and each read continues after the one before. An interrupted read is repeated at most 1000
/// times. Failures are counted, up to the greatest `u64`.
///
/// If the call that opens the file succeeds, it is one read of some file that was opened: see the
/// clause `first`. No clause states that any call succeeds, which file was opened, or whether bytes
/// of it were read and dropped before. The test `reads_the_named_file` shows that the named file is
/// read whole, from its start.
#[derive(Drop)]
pub struct FileSource<'a, R: Files> {
    rt: &'a R,
    name: String,
    file: Option<R::File>,
    faults: u64,
}

impl<'a, R: Files> Model for FileSource<'a, R> {
    ghost use Rattle.ilk_io.specs.Adapters.{LazilyOpenedFile};

    ghost Value = { LazilyOpenedFile R.File };

    ghost view = { λ s. record { name = s.name; file = s.file; faults = s.faults } };
}

impl<'a, R: Files> FileSource<'a, R> {
    /// Creates a source over the file `name`, which isn't opened yet.
    pub fn new(rt: &'a R, name: String) -> Self
        ensures name { result.name ≡ name }
        ensures closed { result.file ≡ None }
        ensures faults { result.faults ≡ 0 }
    {
        FileSource {
            rt,
            name,
            file: None,
            faults: 0,
        }
    }

    fn read_open(&mut self, into: &mut [u8]) -> Result<usize, Failed>
        ensures within { IfOk result (λ n. n ≤ length into.new) }
        ensures faults { self.new.faults ≡ self.old.faults }
        ensures opened { OnOk result (IsSome self.new.file) }
        // Once open, the file stays open, and each read consumes its remaining bytes.
        ensures name { self.new.name ≡ self.old.name }
        ensures stays { IsSome self.old.file → IsSome self.new.file }
        ensures bytes { IfSome self.old.file (λ old. IfSome self.new.file (λ new.
            ReadConsumes (R.File.remaining old) (R.File.remaining new) result into.new)) }
        // If this call opens the file, it is one read of a file that was opened.
        ensures first { IfNone self.old.file (IfSome self.new.file (λ new.
            (opened : R.File) ×
            ReadConsumes (R.File.remaining opened) (R.File.remaining new) result into.new)) }
    {
        if self.file.is_none() {
            self.file = File::open(self.rt, self.name.as_str()).ok();
        }
        match &mut self.file {
            Some(file) => read_some_with_retry(file, into),
            None => Err(Failed),
        }
    }
}

impl<R: Files> Source for FileSource<'_, R> {
    ghost left = { λ _. None };

    ghost faults = { λ s. s.faults };

    fn read(&mut self, into: &mut [u8]) -> Result<usize, Failed>
        ensures within { IfOk result (λ n. n ≤ length into.new) }
        ensures failed { OnErr result (CountedOneFault self.old.faults self.new.faults) }
        ensures unraised { OnOk result (self.new.faults ≡ self.old.faults) }
        ensures opened { OnOk result (IsSome self.new.file) }
        ensures name { self.new.name ≡ self.old.name }
        ensures stays { IsSome self.old.file → IsSome self.new.file }
        ensures bytes { IfSome self.old.file (λ old. IfSome self.new.file (λ new.
            ReadConsumes (R.File.remaining old) (R.File.remaining new) result into.new)) }
        ensures first { IfNone self.old.file (IfSome self.new.file (λ new.
            (opened : R.File) ×
            ReadConsumes (R.File.remaining opened) (R.File.remaining new) result into.new)) }
    {
        let answer = self.read_open(into);
        if answer.is_err() {
            self.faults = saturating_inc(self.faults);
        }
        answer
    }
}
