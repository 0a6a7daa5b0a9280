//! A machine that is made anew of choices, each over an input or register.
//!
//! The nodes of a root's diagram become choices, and a plan says which literal each equation and register has then.
#![tactic(auto)]

mod building;
mod mux;
mod muxes;
mod names;
mod plan;
mod rebuild;

pub use building::{all_names, bit_name, build, copied, copied_ports, numbers};
pub use mux::Mux;
pub use muxes::{Muxes, Stop};
pub use names::new_text;
pub use plan::Plan;
pub use rebuild::literal_of;
