//! A netlist of gates and plain flip-flops as a machine whose registers are its flip-flops, by their names.
#![tactic(auto)]

mod error;
mod flat;
mod law;
mod parts;
mod renaming;
mod taken;

pub use error::FlatError;
pub use flat::flatbeh;
pub use law::named_has_words;
