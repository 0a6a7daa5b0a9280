//! Placements that are read back from their drawings.
#![tactic(auto)]

mod error;
mod labels;
mod lines;
mod reading;
mod stands;

pub use error::PlaceError;
pub use reading::of_figure;
