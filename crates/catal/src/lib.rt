//! The file CATAL of a library: which of its cells are used.
//!
//! A line is empty, or a cell's name, spaces or tabs, and a word of capital letters. The cells with the word `C` are used.
#![tactic(auto)]

mod entry;
mod error;
mod laws;
mod reader;
mod used;

pub use error::CatalError;
pub use laws::{never_both, none_refused, one_list, one_refusal};
pub use reader::{MOST_CELLS, read_catal};
