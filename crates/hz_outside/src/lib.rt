//! The outside of the program: files that are loaded, and a sink that bytes are put into.
//!
//! | Module | What lives in it |
//! |---|---|
//! | `fault` | the faults of a load and of a put, the two places, out of memory |
//! | `files` | the trait [`Files`]: a load gives the whole bytes of a file, at once or part by part |
//! | `receive` | the trait [`Receive`]: what takes the bytes of a file part by part |
//! | `sink` | the trait [`Sink`]: a put takes a piece, a flush writes what waits |
//! | `gathered` | a buffer of 64 KiB in front of any sink |
//! | `copying` | copies of short pieces, for buffers |
//! | `counts` | counts of faults, one for each place |
//! | `shelf` | named files in memory |
//! | `mem_files`, `plain_files` | files in memory, with and without loads that fail |
//! | `mem_sink`, `plain_sink` | sinks in memory, with and without puts that fail |
//! | `write_some`, `whole_sink` | what takes some bytes at a time, and a sink over it |
//! | `open_named`, `named_files` | what opens a file by its name, and files over it |
//! | `disk_files`, `std_sink` | the trusted edge: the file system and standard output |
#![tactic(auto)]

mod copying;
mod counts;
mod disk_files;
mod fault;
mod files;
mod gathered;
mod mem_files;
mod mem_sink;
mod named_files;
mod open_named;
mod plain_files;
mod plain_sink;
mod receive;
mod shelf;
mod sink;
mod std_sink;
mod whole_sink;
mod write_some;

pub use copying::copy_short;
pub use disk_files::{Disk, DiskFiles};
pub use fault::{LoadFault, Memory, Place, PutFault};
pub use files::Files;
pub use gathered::Gathered;
pub use mem_files::MemFiles;
pub use mem_sink::MemSink;
pub use named_files::NamedFiles;
pub use open_named::OpenNamed;
pub use plain_files::PlainFiles;
pub use plain_sink::PlainSink;
pub use receive::{FirstLines, Receive};
pub use sink::Sink;
pub use std_sink::{Printed, StdSink};
pub use whole_sink::WholeSink;
pub use write_some::WriteSome;
