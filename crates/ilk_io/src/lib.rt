//! Sources and sinks of bytes that may fail, fakes of both in memory, and access to files and
//! standard streams.
//!
//! Each I/O fault raises a count, so a caller can prove that it reports a fault only if the outside
//! failed. Only sources and sinks in memory expose their remaining or written bytes to contracts:
//! no clause can state the contents of a file. `read_all` reads a source to its end, up to a limit,
//! and `write_all` writes a whole text.
#![tactic(auto)]

mod failed;
mod file_sink;
mod file_source;
mod mem_sink;
mod mem_source;
mod plan;
mod reading;
mod retry;
mod sink;
mod source;
mod steady;
mod stream;
mod unread;
mod writing;

pub use failed::Failed;
pub use file_sink::FileSink;
pub use file_source::FileSource;
pub use mem_sink::MemSink;
pub use mem_source::MemSource;
pub use reading::{ReadError, read_all};
pub use sink::Sink;
pub use source::Source;
pub use steady::{SteadySink, SteadySource};
pub use stream::{StdSink, StdSource};
pub use writing::write_all;

#[cfg(test)]
mod tests;
