//! The checks of a cell's layout, each by a definition of its own, and libraries of cells that pass them.
#![tactic(auto)]

mod checker;
mod columns;
mod connectors;
mod joined;
mod layout;
mod library;
mod nodes;
mod points;
mod row;
mod shapes;
mod verdict;

pub use checker::check_cell;
pub use columns::shared_pin;
pub use library::Library;
pub use points::{GridPoint, access_points};
pub use verdict::{CellVerdict, Check, MOST_COLUMNS};
