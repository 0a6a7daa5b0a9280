//! Rows of cells annealed: another placement is proposed, and rows that are proposed are checked.
#![tactic(auto)]

mod board;
mod change;
mod cooling;
mod fair;
mod ledger;
mod total;

pub use cooling::anneal;
pub use fair::are_fair;
