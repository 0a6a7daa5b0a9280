//! Nets with many sinks put behind buffers.
#![tactic(auto)]

mod build;
mod error;
mod laws;
mod limit;

pub use error::BufferError;
pub use laws::{
    few_inputs_law, joins_nothing_law, limited_law, needed_law, passes_law, remains_law, split_law,
    stays_right_law,
};
pub use limit::limit_fanout;
