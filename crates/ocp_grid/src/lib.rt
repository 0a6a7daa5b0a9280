//! The grid over the rows of a placement, and the points of its nets there.
#![tactic(auto)]

mod grid;
mod law;
mod points;

pub use grid::grid_over;
pub use law::{placements_are_in_rows, points_are_apart};
pub use points::net_points;
