//! Placements of netlists in rows, made shorter until no exchange of neighbours makes them shorter still.
#![tactic(auto)]

mod across;
mod at_rows;
mod cells;
mod count;
mod shorter;

pub use at_rows::place;
pub use shorter::{Moves, improve};
