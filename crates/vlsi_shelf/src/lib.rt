//! The outside of the program: a shelf of files and a sink of bytes, as traits whose contracts say what each call reads, writes
//! and counts, with implementations in memory, for tests and for tools, and over the operating system.
#![tactic(auto)]

mod files;
mod memory;
mod shelf;
mod sink;
mod system;

pub use files::{CallNumbers, FileMap};
pub use memory::{MemShelf, MemSink, NoFaultShelf};
pub use shelf::{Shelf, ShelfError};
pub use sink::{Sink, SinkError};
pub use system::{DirShelf, OutSink};
