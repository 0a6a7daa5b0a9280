//! Cuts of the nodes of a graph: priority cuts (Mishchenko, Cho, Chatterjee and Brayton, 2007), the few of each node with the least area flow.
#![tactic(auto)]

mod flow;
mod merge;
mod nodes;
mod table;

pub use flow::readers;
pub use merge::{inverse, merged, single};
pub use nodes::KEPT;
pub use table::{CutTable, cuts};
