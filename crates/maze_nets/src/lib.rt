//! The routes of all nets over a grid, known by their points alone: nets one after another, each by least paths.
#![tactic(auto)]

mod error;
mod points;
mod ranks;
mod reserve;
mod routing;
mod ties;

pub use error::RouteError;
pub use points::NetPoints;
pub use ranks::net_order;
pub use routing::{route_nets, router_for};
pub use ties::Ties;
