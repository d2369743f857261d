//! Streams of bytes that may fail: what is read from and what is written to, with counts of faults.
//!
//! A stream in memory tells its bytes to contracts. The adapters over the standard streams tell
//! none, and their counts of faults alone are known.
#![tactic(auto)]

pub mod faults;
pub mod folder;
pub mod memory;
pub mod plain;
pub mod sink;
pub mod source;
pub mod standard;

pub use faults::{Failed, FetchFault, ReadFault};
pub use folder::Folder;
pub use memory::{MemFolder, MemSink, MemSource};
pub use plain::{PlainFolder, PlainSink, PlainSource};
pub use sink::{Sink, write_whole};
pub use source::{Source, read_all};
pub use standard::{StdFolder, StdSink, StdSource};

#[cfg(test)]
mod tests;
