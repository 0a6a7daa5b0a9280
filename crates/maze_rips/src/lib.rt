//! The routes of all nets over a grid, where a net that is stuck has the paths torn out that block its way: rip-up and reroute (Dees and
//! Karger, 1982).
#![tactic(auto)]

mod error;
mod law;
mod paths;
mod rip;
mod ripping;
mod work;

pub use error::RipError;
pub use law::moves_keep_trees_apart;
pub use rip::{PointRip, Ripped};
pub use ripping::{route_nets_by, route_nets_with_rips};
