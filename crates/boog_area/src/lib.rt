//! The least area of the trees of a graph by the usable cells of a library, and bounds on it that are checked by themselves.
#![tactic(auto)]

mod area;
mod bounds;
mod cover;
mod error;
mod kinds;
mod law;

pub use area::whole_area;
pub use bounds::check_bounds;
pub use cover::{TreeCover, least_area};
pub use error::TreeError;
pub use law::cell_bounds_are_least;
