//! Laws of data-flow texts: each is a machine or has a refusal, two machines of one text do the same, a machine that is read has few names,
//! and what is written of a machine is read again as one that does the same.
#![tactic(auto)]

mod each_text;
mod few_names;
mod one_machine;
mod round;

pub use each_text::{each_cell_has_an_answer, each_design_has_an_answer, each_text_has_an_answer};
pub use few_names::source_has_few_names;
pub use one_machine::{cells_are_the_same, machines_are_the_same, machines_do_the_same};
pub use round::read_again;
