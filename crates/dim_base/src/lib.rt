//! Numbers of threads and locks, texts and bytes, and the files and the sink that a program is
//! handed.
#![tactic(auto)]

mod failing_calls;
mod files;
mod memory_files;
mod memory_sink;
mod out_of_memory;
mod outside;
mod replacing;
mod sink;
mod streams;
mod text;

pub use files::{Fetch, Files, Store};
pub use memory_files::{MemFiles, SureFiles};
pub use memory_sink::{MemSink, SureSink};
pub use out_of_memory::OutOfMemory;
pub use outside::{DirFiles, StdSink, words_after_name};
pub use sink::{Put, Sink};
pub use text::{Bytes, Word};

/// A thread, by its number.
#[derive(Clone, Copy, Debug, PartialEq, Eq, PartialOrd, Ord)]
pub struct Tid(pub u32);

/// A lock, by its number.
#[derive(Clone, Copy, Debug, PartialEq, Eq, PartialOrd, Ord)]
pub struct Lid(pub u32);

#[cfg(test)]
mod tests;
