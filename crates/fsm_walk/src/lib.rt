//! State machines, walked: which assignments a state and bits of the ports lead to, the step that they make, and which input bits
//! the statements read.
#![tactic(auto)]

mod law;
mod reads;
mod step;
mod trail;
mod words;

pub use law::{reads_alone, step_is_walk, words_are_all};
pub use reads::{count, marks};
pub use step::{Step, output_names, step_from};
pub use words::word;
