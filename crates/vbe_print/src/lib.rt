//! Machines, written as data-flow texts, and that such a text is a sentence that says the machine.
#![tactic(auto)]

mod again;
mod expressions;
mod names;
mod registers;
mod writer;

pub use again::written_is_a_sentence;
pub use expressions::{Speller, spell_name};
pub use writer::{write_vbe, write_vbe_by};
