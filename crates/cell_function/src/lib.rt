//! What cells are: the gate or the plain flip-flop that a machine is, the capacitances of pins, and the times of arcs.
#![tactic(auto)]

mod function;
mod gate;
mod rows;
mod shape;
mod storage;
mod timing;

pub use function::function_of;
pub use timing::{Arcs, Pins, arcs_of, pins_of};
