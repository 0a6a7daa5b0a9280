//! Pattern files: the reader with its checks, and the writer.
#![tactic(auto)]

mod apart;
mod bits;
mod build;
mod first_bit;
mod index;
mod known;
mod laws;
mod reader;
mod times;
mod widths;
mod writer;

pub use laws::{
    digits_read_again, each_text, means_once, never_both, one_refusal, written_means_itself,
};
pub use reader::read_pat;
pub use writer::write_pat;
