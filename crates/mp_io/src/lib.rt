//! Devices: a shelf that gives the bytes of named files and a sink that takes bytes, in memory and
//! real, with counts of their calls and faults; files read whole, texts written whole, and a writer
//! that gathers text and keeps its failure.
#![tactic(auto)]

mod devices;
mod lists;
mod memory_shelf;
mod memory_sink;
mod real;
mod room;
mod whole;
mod writer;

pub use devices::{Failed, Memory, Shelf, Sink};
pub use lists::{put_gap, put_number};
pub use memory_shelf::MemoryShelf;
pub use memory_sink::MemorySink;
pub use real::{RealShelf, RealSink};
pub use whole::{ReadFault, put, put_all, read_whole};
pub use writer::Writer;
