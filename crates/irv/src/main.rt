//! `irv` checks the configuration of an interlocking, decides whether it is safe, and checks
//! certificates. It replays runs, simulates scenarios, generates tables of routes and test
//! configurations, writes formulas for other solvers and checks their refutations.
#![tactic(auto)]

ghost use Rattle.std.specs.Prelude.{◌≡◌, ◌≢◌, ◌↔◌, IsTrue, None, false, map, string_bytes};
ghost use Rattle.std.specs.IoError.{error_kind};
ghost use Rattle.std.specs.Option.{option_copied};
ghost use Rattle.ilk_answers.specs.Answer.{command_plan_or_empty};
ghost use Rattle.ilk_answers.specs.Status.{had_reply_to_write};
ghost use Rattle.ilk_top.specs.Outside.{FaultsRiseOnlyWith};
ghost use Rattle.ilk_words.specs.Words.{parsed_command};
ghost use Rattle.irv.specs.Edge.{IsStatusOfSomeAnswer, complaint, unreadable_args_status};

use ilk_io::{FileSink, FileSource, MemSink, Sink, StdSink, StdSource, SteadySink, SteadySource};
use ilk_plant::Text;
use ilk_top::{FileNames, Status, names_of, run};
use std::alloc::{AllocError, Global};
use std::fs::File;
use std::os::fd::AsRawFd;
use std::process::ExitCode;
use std::{env, io};

// The descriptors of the standard streams are 0 to `LAST_STREAM`: input, output and error.
const OUTPUT: i32 = 1;

const LAST_STREAM: i32 = 2;

fn words(rt: &HostRuntime) -> Result<Vec<String>, Status> {
    let words = match env::args(rt) {
        Ok(words) => words,
        Err(error) => return Err(status_of(&error)),
    };
    words
        .collect(rt.alloc())
        .map_err(|_error: AllocError| Status::OutOfMemory)
}

// Returns the status if the arguments can't be read: an argument that isn't UTF-8 is a usage error.
fn status_of(error: &io::Error) -> Status
    ensures { result ≡ unreadable_args_status (error_kind error.now) }
{
    match error.kind() {
        io::ErrorKind::OutOfMemory => Status::OutOfMemory,
        _ => Status::Usage,
    }
}

// Runs over standard input and output, `cert`, and the file named `extra`, if any.
fn run_over<L: Sink>(
    rt: &HostRuntime,
    words: &Vec<String>,
    extra: Option<Text>,
    cert: &mut L,
) -> Status
    ensures usage { let asked = parsed_command (map string_bytes words.now.items) in
        result ≢ Status.OutOfMemory → (result ≡ Status.Usage) ↔ (asked ≡ None) }
    ensures answer { let asked = parsed_command (map string_bytes words.now.items) in
        IsStatusOfSomeAnswer asked (L.written cert.old) (L.written cert.new) result }
    ensures cert_faults { FaultsRiseOnlyWith (result ≡ Status.WriteFault) (L.faults cert.old)
        (L.faults cert.new) }
    ensures unwritten { had_reply_to_write result ≡ false → cert.new ≡ cert.old }
    ensures uncertified { let plan = command_plan_or_empty
        (parsed_command (map string_bytes words.now.items)) in
        plan.certifies ≡ false → cert.new ≡ cert.old }
{
    let alloc: Global = rt.alloc();
    let mut conf = StdSource::new(rt.reader());
    let mut out = StdSink::new(io::writer(rt));
    match extra {
        Some(name) => {
            let mut file = FileSource::new(rt, name.into_string());
            run(alloc, words, &mut conf, &mut file, &mut out, cert)
        }
        None => {
            let mut nothing = SteadySource::new(Vec::new(alloc));
            run(alloc, words, &mut conf, &mut nothing, &mut out, cert)
        }
    }
}

// Runs with a certificate sink that takes no byte: each write to it is a write fault.
fn run_without_certificate(rt: &HostRuntime, words: &Vec<String>, extra: Option<Text>) -> Status
    ensures usage { let asked = parsed_command (map string_bytes words.now.items) in
        result ≢ Status.OutOfMemory → (result ≡ Status.Usage) ↔ (asked ≡ None) }
    ensures answer { let asked = parsed_command (map string_bytes words.now.items) in
        IsStatusOfSomeAnswer asked None None result }
{
    let alloc: Global = rt.alloc();
    match MemSink::new(alloc, 0, Vec::new(alloc)) {
        Ok(mut full) => run_over(rt, words, extra, &mut full),
        Err(_) => Status::OutOfMemory,
    }
}

// Runs over the files of these names. The certificate's file is created or emptied only when there
// is something to write to it.
//
// A file takes the least free descriptor, so closed standard streams are held until the end. If
// standard output or standard error is closed and can't be held, no certificate is written: its
// file would take the stream's place.
fn run_with(rt: &HostRuntime, words: &Vec<String>, names: FileNames) -> Status
    ensures usage { let asked = parsed_command (map string_bytes words.now.items) in
        result ≢ Status.OutOfMemory → (result ≡ Status.Usage) ↔ (asked ≡ None) }
    ensures answer { let asked = parsed_command (map string_bytes words.now.items) in
        IsStatusOfSomeAnswer asked None None result }
{
    let FileNames { extra, cert } = names;
    let _held = [held_stream(rt), held_stream(rt), held_stream(rt)];
    match cert {
        Some(_) if is_output_free(rt) => run_without_certificate(rt, words, extra),
        Some(name) => {
            let mut file = FileSink::new(rt, name.into_string());
            run_over(rt, words, extra, &mut file)
        }
        None => run_over(rt, words, extra, &mut SteadySink::new()),
    }
}

fn status_for(rt: &HostRuntime, words: &Vec<String>) -> Status
    ensures usage { let asked = parsed_command (map string_bytes words.now.items) in
        result ≢ Status.OutOfMemory → (result ≡ Status.Usage) ↔ (asked ≡ None) }
    ensures answer { let asked = parsed_command (map string_bytes words.now.items) in
        IsStatusOfSomeAnswer asked None None result }
{
    match names_of(rt.alloc(), words) {
        Ok(Some(names)) => run_with(rt, words, names),
        Ok(None) => Status::Usage,
        Err(_) => Status::OutOfMemory,
    }
}

fn complaint(status: Status) -> Option<&'static str>
    ensures { option_copied result ≡ complaint status }
{
    match status {
        Status::Usage => Some("irv: usage"),
        Status::ReadFault => Some("irv: read fault"),
        Status::WriteFault => Some("irv: write fault"),
        Status::OutOfMemory => Some("irv: out of memory"),
        _ => None,
    }
}

// Opens a directory for reading: the root, or else the working directory.
fn directory(rt: &HostRuntime) -> Option<File> {
    match File::open(rt, "/") {
        Ok(root) => Some(root),
        Err(_) => File::open(rt, ".").ok(),
    }
}

// Holds the least standard stream that is closed, if there is one and a directory can be opened.
// Unlike a file, a directory can't be read or written in its place.
fn held_stream(rt: &HostRuntime) -> Option<File> {
    let held = directory(rt)?;
    if held.as_raw_fd() <= LAST_STREAM {
        Some(held)
    } else {
        None
    }
}

fn is_output(descriptor: i32) -> bool {
    (OUTPUT..=LAST_STREAM).contains(&descriptor)
}

// Returns whether the next file opened may take the place of standard output or standard error. If
// no directory can be opened, the two ends of a pipe show it: they take the two least free
// descriptors.
fn is_output_free(rt: &HostRuntime) -> bool {
    if let Some(least) = directory(rt) {
        return is_output(least.as_raw_fd());
    }
    match io::pipe(rt) {
        Ok((reader, writer)) => is_output(reader.as_raw_fd()) || is_output(writer.as_raw_fd()),
        Err(_) => true,
    }
}

fn main(rt: HostRuntime) -> ExitCode {
    let status = match words(&rt) {
        Ok(words) => status_for(&rt, &words),
        Err(status) => status,
    };
    if let Some(line) = complaint(status) {
        let _ = rt.eprintln(line);
    }
    ExitCode::from(status.code())
}
