//! Tests beyond the clauses: calls succeed if there is memory and nothing fails.
ghost use Rattle.std.specs.Prelude.{◌^◌, ◌<◌};

use crate::{
    Failed, FileSink, FileSource, MemSink, MemSource, ReadError, Sink, Source, StdSink, StdSource,
    SteadySink, SteadySource, read_all, write_all,
};
use std::alloc::{AllocError, Global};
use std::io::{ErrorKind, Read, Write};
use std::rt::Files;
use std::test::Fail;
use std::{fs, io};

const BYTES: [u8; 5] = *b"plant";

fn read_memory(
    alloc: Global,
    limit: u64,
    first_fails: bool,
) -> Result<Result<Vec<u8>, ReadError>, AllocError>
    requires { limit < 2 ^ 40 }
{
    let mut fails = Vec::new(alloc);
    if first_fails {
        fails.push(1)?;
    }
    let mut source = MemSource::new(Vec::from_slice(alloc, &BYTES)?, fails);
    Ok(read_all(alloc, &mut source, limit))
}

fn refusal(alloc: Global, limit: u64, first_fails: bool) -> Result<Option<ReadError>, AllocError>
    requires { limit < 2 ^ 40 }
{
    Ok(read_memory(alloc, limit, first_fails)?.err())
}

fn read_steady(alloc: Global) -> Result<Vec<u8>, ReadError> {
    let bytes = Vec::from_slice(alloc, &BYTES).map_err(|_| ReadError::OutOfMemory)?;
    read_all(alloc, &mut SteadySource::new(bytes), 5)
}

fn read_stream(alloc: Global) -> Result<Vec<u8>, ReadError> {
    read_all(alloc, &mut StdSource::new(BYTES.as_slice()), 5)
}

fn read_bytes<R: Files>(
    alloc: Global,
    rt: &R,
    name: &str,
    limit: u64,
) -> Result<Result<Vec<u8>, ReadError>, AllocError>
    requires { limit < 2 ^ 40 }
{
    let mut source = FileSource::new(rt, String::from_str(alloc, name)?);
    Ok(read_all(alloc, &mut source, limit))
}

fn read_file<R: Files>(
    alloc: Global,
    rt: &R,
    name: &str,
) -> Result<Result<Vec<u8>, ReadError>, AllocError> {
    read_bytes(alloc, rt, name, 5)
}

fn write_memory(alloc: Global) -> Result<Vec<u8>, Fail> {
    let mut sink = MemSink::new(alloc, 5, Vec::new(alloc))?;
    write_all(&mut sink, &BYTES)?;
    Ok(Vec::from_slice(alloc, sink.bytes())?)
}

fn write_stream(alloc: Global) -> Result<Vec<u8>, Fail> {
    let mut written = Vec::new(alloc);
    write_all(&mut StdSink::new(&mut written), &BYTES)?;
    Ok(written)
}

fn write_steady() -> Result<u64, Fail> {
    let mut sink = SteadySink::new();
    write_all(&mut sink, &BYTES)?;
    Ok(sink.count())
}

#[test]
fn reads_up_to_the_limit(rt: HostRuntime) -> Result<(), Fail> {
    let alloc = rt.alloc();
    assert_eq!(rt; refusal(alloc, 4, false)?, Some(ReadError::TooLong));
    assert_eq!(rt; refusal(alloc, 5, true)?, Some(ReadError::Failed));
    assert_eq!(rt; read_memory(alloc, 5, false)??.as_slice(), BYTES.as_slice());
    Ok(())
}

#[test]
fn each_type_passes_the_bytes_on(rt: HostRuntime) -> Result<(), Fail> {
    let alloc = rt.alloc();
    assert_eq!(rt; read_steady(alloc)?.as_slice(), BYTES.as_slice());
    assert_eq!(rt; read_stream(alloc)?.as_slice(), BYTES.as_slice());
    assert_eq!(rt; write_memory(alloc)?.as_slice(), BYTES.as_slice());
    assert_eq!(rt; write_stream(alloc)?.as_slice(), BYTES.as_slice());
    assert_eq!(rt; write_steady()?, 5);
    Ok(())
}

// A reader and writer whose calls are interrupted `times` times and then succeed.
#[derive(Drop)]
struct Interrupted {
    times: u64,
}

impl Interrupted {
    fn call(&mut self) -> io::Result<()> {
        if self.times == 0 {
            return Ok(());
        }
        self.times -= 1;
        Err(io::Error::from(ErrorKind::Interrupted))
    }
}

impl Read for Interrupted {
    fn read(&mut self, into: &mut [u8]) -> io::Result<usize> {
        self.call()?;
        let mut bytes = BYTES.as_slice();
        bytes.read(into)
    }
}

impl Write for Interrupted {
    fn write(&mut self, piece: &[u8]) -> io::Result<usize> {
        self.call()?;
        Ok(piece.len())
    }

    fn flush(&mut self) -> io::Result<()> {
        Ok(())
    }
}

#[test]
fn tries_a_thousand_times_again(rt: HostRuntime) -> Result<(), Fail> {
    for (times, wanted) in [(0, Ok(5)), (1000, Ok(5)), (1001, Err(Failed))] {
        let mut piece = [0; 5];
        let read = StdSource::new(Interrupted { times }).read(&mut piece);
        assert_eq!(rt; read, wanted, "read at {times}");
        let written = StdSink::new(Interrupted { times }).write(&BYTES);
        assert_eq!(rt; written, wanted, "write at {times}");
    }
    Ok(())
}

fn make_file<R: Files>(rt: &R, name: &str, text: &str) -> io::Result<()> {
    fs::write(rt, name, text)
}

#[test]
fn reads_the_named_file(rt: HostRuntime) -> Result<(), Fail> {
    let alloc = rt.alloc();
    let names = ["ilk_io_test_1", "ilk_io_test_2"];
    make_file(&rt, names[0], "plant")?;
    make_file(&rt, names[1], "route")?;
    let first = read_file(alloc, &rt, names[0])?;
    let second = read_file(alloc, &rt, names[1])?;
    fs::remove_file(&rt, names[0])?;
    let gone = read_file(alloc, &rt, names[0])?;
    fs::remove_file(&rt, names[1])?;
    assert_eq!(rt; first?.as_slice(), b"plant".as_slice());
    assert_eq!(rt; second?.as_slice(), b"route".as_slice());
    assert_eq!(rt; gone.err(), Some(ReadError::Failed));
    Ok(())
}

fn write_file<R: Files>(
    alloc: Global,
    rt: &R,
    name: &str,
    text: &[u8],
) -> Result<Result<(), Failed>, AllocError> {
    let mut sink = FileSink::new(rt, String::from_str(alloc, name)?);
    Ok(write_all(&mut sink, text))
}

#[test]
fn writes_the_named_file(rt: HostRuntime) -> Result<(), Fail> {
    let alloc = rt.alloc();
    let name = "ilk_io_test_3";
    make_file(&rt, name, "train and track")?;
    let unwritten = FileSink::new(&rt, String::from_str(alloc, name)?);
    drop(unwritten);
    let as_it_was = read_bytes(alloc, &rt, name, 15)??;
    let answer = write_file(alloc, &rt, name, &BYTES)?;
    let written = read_bytes(alloc, &rt, name, 15)??;
    fs::remove_file(&rt, name)?;
    let folder = write_file(alloc, &rt, "/", &BYTES)?;
    assert_eq!(rt; as_it_was.as_slice(), b"train and track".as_slice());
    assert_eq!(rt; answer, Ok(()));
    assert_eq!(rt; written.as_slice(), BYTES.as_slice());
    assert_eq!(rt; folder, Err(Failed));
    Ok(())
}
