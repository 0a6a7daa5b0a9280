//! The ap format of symbolic layouts: figures, the reader of all spellings, and the one spelling in which figures are written.
#![tactic(auto)]

mod body;
mod fault;
mod fields;
mod figure;
mod instances;
mod items;
mod judge;
mod laws;
mod limits;
mod lines;
mod names;
mod numbers;
mod reader;
mod scale;
mod words;
mod writer;

pub use fault::LineFault;
pub use figure::Figure;
pub use laws::{
    lines_are_read_again, lines_say_one_figure, never_both, one_figure, one_refusal,
    what_is_read_is_a_figure, written_is_read_again,
};
pub use limits::{MOST_COORDINATE, MOST_NAME_BYTES};
pub use reader::read_ap;
pub use scale::Scale;
pub use writer::write_ap;
