//! Runs of the program in which one call of a source or a sink fails.
ghost use Rattle.std.specs.Prelude.{◌≡◌, ◌<◌, ◌≤◌, Some, IfOk, OnErr, OnOk, length, take};
ghost use Rattle.ilk_io.specs.Faults.{CountedOneFault};
ghost use Rattle.ilk_io.specs.Sink.{Appends};

use crate::parts::words;
use ilk_io::{Failed, MemSink, MemSource, Sink};
use ilk_top::{Status, run};
use std::alloc::{AllocError, Global};

// A sink that takes few bytes a call: one, and at most `more` others.
#[derive(Drop)]
struct FewSink {
    sink: MemSink,
    more: usize,
}

impl Sink for FewSink {
    ghost written = { λ s. Some s.sink.taken };

    ghost faults = { λ s. s.sink.plan.faults };

    fn write(&mut self, piece: &[u8]) -> Result<usize, Failed> {
        match piece.split_at_checked(self.more.saturating_add(1)) {
            Some((few, _)) => self.sink.write(few),
            None => self.sink.write(piece),
        }
    }
}

/// A source of the program (configuration, extra input) or a sink (report, certificate).
#[derive(Clone, Copy, Debug, PartialEq, Eq)]
pub(crate) enum Object {
    Conf,
    Extra,
    Out,
    Cert,
}

/// The input of a run: the command line, the configuration and the extra bytes.
#[derive(Clone, Copy)]
pub(crate) struct Asked<'a> {
    pub line: &'a str,
    pub conf: &'a str,
    pub extra: &'a [u8],
}

/// The result of a run: its exit status, its report and its certificate.
#[derive(Drop)]
pub(crate) struct StatusReportAndCertificate {
    pub status: Status,
    pub out: MemSink,
    pub cert: MemSink,
}

// Creates a source whose call number `fails` fails.
fn source(alloc: Global, bytes: &[u8], fails: u64) -> Result<MemSource, AllocError> {
    let bytes = Vec::from_slice(alloc, bytes)?;
    let fails = Vec::from_slice(alloc, &[fails])?;
    Ok(MemSource::new(bytes, fails))
}

// Creates a sink with `room` bytes whose call number `fails` fails.
fn sink(alloc: Global, room: u64, fails: u64) -> Result<MemSink, AllocError> {
    let fails = Vec::from_slice(alloc, &[fails])?;
    MemSink::new(alloc, room, fails)
}

// Returns `number` if the two objects are the same, or else 0, which no call has.
fn call_of(object: Object, failing: Object, number: u64) -> u64 {
    if object == failing { number } else { 0 }
}

/// The greatest number of bytes, beyond the first, that each sink takes in one call.
#[derive(Clone, Copy)]
pub(crate) struct ExtraBytesPerSinkCall {
    pub out: usize,
    pub cert: usize,
}

/// Runs the program on `asked`, and returns its result. Call `number` of the source or sink
/// `failing` fails. Each sink takes at most `more` bytes beyond the first in a call.
pub(crate) fn run_with_fault(
    alloc: Global,
    asked: Asked,
    more: ExtraBytesPerSinkCall,
    failing: Object,
    number: u64,
) -> Result<StatusReportAndCertificate, AllocError> {
    let words = words(alloc, asked.line)?;
    let conf = call_of(Object::Conf, failing, number);
    let extra = call_of(Object::Extra, failing, number);
    let out = call_of(Object::Out, failing, number);
    let cert = call_of(Object::Cert, failing, number);
    let mut conf = source(alloc, asked.conf.as_bytes(), conf)?;
    let mut extra = source(alloc, asked.extra, extra)?;
    let mut out = FewSink {
        sink: sink(alloc, 20000, out)?,
        more: more.out,
    };
    let mut cert = FewSink {
        sink: sink(alloc, 20000, cert)?,
        more: more.cert,
    };
    let status = run(alloc, &words, &mut conf, &mut extra, &mut out, &mut cert);
    Ok(StatusReportAndCertificate {
        status,
        out: out.sink,
        cert: cert.sink,
    })
}
