//! The file of a path: the names of registers, one on each line.
#![tactic(auto)]

mod reader;

pub use reader::{PathFile, read_path};
