//! A scan path through the registers of a netlist: a multiplexer before each register, by which they are a shift register where the
//! input `test` is 1.
#![tactic(auto)]

mod classes;
mod gates;
mod insert;
mod ports;

pub use insert::insert_scan;
pub use scan_checks::ScanError;
