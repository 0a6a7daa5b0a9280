//! A maze router: least paths of nets on a grid, one after another, without memory for each.
#![tactic(auto)]

mod board;
mod claim;
mod frontier;
mod history;
mod hull;
mod level;
mod penalties;
mod router;
mod search;
mod tear;
mod trace;
mod way;

pub use router::{NoPath, Router};
