//! Drives: cells that can stand for others, and netlists in which no exchange of one helps.
#![tactic(auto)]

mod choose;
mod drive;
mod laws;
mod table;

pub use choose::choose_drives;
pub use laws::{exchanges_law, others_law, paths_law};
pub use table::DriveTable;
