//! The netlist of a layout: which terminals its joined shapes put together, or the ports that they short.
//!
//! What the netlist of a figure is stands in `specs/Extracted.antt`, and why there is none in `specs/Refused.antt`.
#![tactic(auto)]

mod build;
mod cells;
mod counting;
mod directions;
mod drawing;
mod error;
mod extracting;
mod laws;
mod links;
mod names;
mod pairs;
mod shorts;

pub use drawing::{Drawing, draw_layout};
pub use error::{ExtractError, Step, Steps};
pub use extracting::extract;
pub use laws::{extracted_fits, extracted_is_given};
