//! Laws of buffers and drives: a netlist with them behaves as before, and what is written of it is read again.
#![tactic(auto)]

mod meaning;
mod read_again;

pub use meaning::{alike_law, buffered_behaves_law, driven_behaves_law};
pub use read_again::{meets_law, read_again_law};
