//! Cells that compute a cut, or what two gates do.
#![tactic(auto)]

mod cut;
mod cut_cell;
mod gate;
mod nodes;
mod pair;
mod table;
mod word;

pub use cut::Cut;
pub use cut_cell::matched;
pub use gate::{CellWord, Gate};
pub use nodes::{place, places};
pub use pair::fuse;
pub use table::{Match, Table};
