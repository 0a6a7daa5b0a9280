//! Laws of structural texts: what is read of them can be written again, and what is written of a netlist is read again as it.
#![tactic(auto)]

mod round;
mod writable;

pub use round::{read_again, written_is_read_again};
pub use writable::netlist_words_law;
