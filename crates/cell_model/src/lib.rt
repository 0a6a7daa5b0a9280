//! Cells and libraries: what a cell computes, which cells a netlist may use, where their pins are reached, and what a layout
//! with instances of them shows.
#![tactic(auto)]

mod cell;
mod function;
mod kinds;
mod rects;
mod usable_cell;

pub use cell::{Arc, Cell, Pin};
pub use function::{CellFunction, Function};
pub use kinds::{first_missing, kind_of};
pub use rects::{Rects, pin_rects};
pub use usable_cell::{is_mappable, usable};
pub use vlsi_base::Kind;
