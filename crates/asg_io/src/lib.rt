//! What a program reads and writes: shelves that give files by name, and sinks that take bytes.
//!
//! A `Shelf` and a `Sink` have meanings that contracts see: what a name holds and what was written,
//! where they are told, the names asked so far, and a count of faults that never falls. Whoever is
//! generic over them is proved for memory, whose contents are told and whose faults are chosen, and
//! for the file system and the standard output, which tell nothing. The program's top call reads
//! and writes by them alone, and the writer of documents puts its pages by a `Sink`.
#![tactic(auto)]

mod fetch_log;
mod memory_shelf;
mod memory_sink;
mod real_shelf;
mod real_sink;
mod shelf;
mod sink;

pub use memory_shelf::MemoryShelf;
pub use memory_sink::MemorySink;
pub use real_shelf::RealShelf;
pub use real_sink::RealSink;
pub use shelf::{FetchFault, Shelf};
pub use sink::{PutFault, Sink};

/// The answer of a call for which memory was wanting.
pub type NoMemory = std::alloc::AllocError;
