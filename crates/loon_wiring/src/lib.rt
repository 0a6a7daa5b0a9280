//! What groups of sinks are put behind, and the classes of a netlist with gates put behind them.
#![tactic(auto)]

mod repeater;
mod wiring;

pub use repeater::{Repeater, Tie, make_repeater};
pub use wiring::Wiring;
