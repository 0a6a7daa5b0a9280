//! Gates of cells that cover a graph.
#![tactic(auto)]

mod choice;
mod graph_cover;
mod law;
mod lesser;
mod needed;
mod rounds;

pub use choice::{Cost, choices};
pub use graph_cover::cover;
pub use law::covered_is_cut;
pub use needed::prune;
