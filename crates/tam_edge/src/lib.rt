//! The edge of the program: files by name and a sink, each with a count of its faults.
//!
//! Over no other crate of ours. Each crate that reads, writes or may want memory stands on this one.
//! Read `specs/Faults.antt` and `src/files.rt` first: what a fault is, and what a read promises. Then `src/sink.rt` and `src/whole.rt`.
#![tactic(auto)]

mod calls;
mod entries;
mod files;
mod host_files;
mod host_sink;
mod mem_files;
mod mem_sink;
mod no_memory;
mod sink;
mod whole;

pub use files::{FileError, Files};
pub use host_files::HostFiles;
pub use host_sink::HostSink;
pub use mem_files::MemFiles;
pub use mem_sink::MemSink;
pub use no_memory::NoMemory;
pub use sink::{Failed, Sink};
pub use whole::{ReadError, read_whole, write_whole};
