//! Placements of a netlist's instances, and how long the nets are in them.
#![tactic(auto)]

mod law;
mod length;
mod place;
mod reach;
mod row;
mod rows;

pub use law::{checked_cells_are_clean, right_may_be_drawn};
pub use length::{half_perimeter, net_length, span};
pub use place::{Placement, place_in_rows, row_place, track_place};
pub use reach::{PinReach, Reach, reaches};
pub use row::Site;
