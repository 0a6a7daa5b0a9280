//! What is read from data-flow texts can be written again: names, and ports that an entity can declare.
#![tactic(auto)]

mod laws;

pub use laws::{
    catal_is_named, cell_can_be_written, cell_is_named, in_order_can_be_written,
    machine_can_be_written, machine_is_named, names_are_short, pins_are_named, registers_are_named,
};
