//! A reader of what all VHDL texts share: entities, declarations of signals, expressions.
#![tactic(auto)]

mod counts;
mod cursor;
mod entity;
mod expression;
mod laws;
mod stops;

pub use cursor::{Cursor, name_bytes};
pub use laws::one_answer;
pub use stops::{line_of, stop_error};
