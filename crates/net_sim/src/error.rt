// Why patterns aren't filled in on a netlist.
use thiserror::Error;
use vlsi_base::{Name, Text};

/// Why patterns aren't filled in on a netlist.
#[derive(Debug, Drop, Error)]
pub enum NetSimError {
    #[error("out of memory")]
    Memory,
    /// Nothing is known of the cell of this name, which an instance has.
    #[error("no behaviour")]
    NoBehaviour(Text),
    /// The netlist's machine would have so many bits, 2^32 or more; the greatest number of 64 bits where they are more.
    #[error("too many bits")]
    TooManyBits(u64),
    /// The first bit that isn't what a pattern expects, and the number of that pattern from 0.
    #[error("pattern {} differs", .pattern)]
    Differs { pattern: usize, name: Name },
}
