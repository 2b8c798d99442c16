//! The outside world as the processor meets it: files that it fetches, bytes that it writes, and a
//! gate between claims.
#![tactic(auto)]

mod disk;
mod edge;
mod fetches;
mod mem_bytes;
mod mem_files;
mod streams;
mod whole;

pub use disk::FileLibrary;
pub use edge::{Failed, FetchEnd, Gate, Library, OpenGate, Sink};
pub use fetches::Fetch;
pub use mem_bytes::MemSink;
pub use mem_files::MemLibrary;
pub use streams::{ErrSink, OutSink, StreamSink};
pub use whole::write_whole;
