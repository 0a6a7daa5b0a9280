//! Equivalent states, found round by round over a table of moves by partition refinement (Moore, 1956), and distinguishing sequences of
//! vectors for the others.
#![tactic(auto)]

mod compare;
mod refining;
mod round;
mod witnesses;

pub use refining::levels;
pub use round::{Move, Partition, Row};
pub use witnesses::{Refinement, hints, telling};
