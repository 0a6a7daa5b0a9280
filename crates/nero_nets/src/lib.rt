//! The routes of all nets of a netlist that is placed in rows.
#![tactic(auto)]

mod error;
mod law;
mod route;
mod terminals;

pub use error::RouteError;
pub use law::{grids_are_small, marks_tell_nets};
pub use route::route_all;
pub use terminals::net_terminals;
