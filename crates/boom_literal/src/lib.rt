//! What stands for a function in a machine that is made anew: a constant, or one of the names.
#![tactic(auto)]

mod literal;

pub use literal::{Literal, said};
