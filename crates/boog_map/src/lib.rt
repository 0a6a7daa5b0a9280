//! Technology mapping: a cell for each register of a machine, and cells that cover its subject graph.
#![tactic(auto)]

mod build;
mod choice;
mod count;
mod covering;
mod drivers;
mod error;
mod mapping;
mod part;
mod place;
mod ports;

pub use error::MapError;
pub use mapping::{map, map_covered};
