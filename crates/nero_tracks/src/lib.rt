//! Private tracks: each net of a placement has one for itself.
#![tactic(auto)]

mod columns;
mod error;
mod law;
mod marks;
mod route;

pub use error::TrackError;
pub use law::{columns_are_free, nets_are_counted, nets_are_numbered, nets_have_numbers};
pub use route::{Track, net_pins, placed_nets, route_tracks};
