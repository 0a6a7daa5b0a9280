// The pins of the models that a netlist may use.

use vlsi_base::{Dir, Listed, Name, Text};

/// Places in a list of pins, counted from 0.
pub type PinPlaces = Listed<u32>;

/// One pin of a model.
#[derive(Drop)]
pub struct ModelPin {
    pub name: Name,
    /// A pin of mode inout counts as an output.
    pub dir: Dir,
    /// Whether registers load at this pin's rise.
    pub is_clock: bool,
    /// Of an output: the places in its model's list of the input pins on which it depends at once. Empty for an input.
    pub depends_on: PinPlaces,
}

/// A model: its name, and its pins in the order of names, vdd and vss among them.
#[derive(Drop)]
pub struct ModelPins {
    pub model: Text,
    pub pins: Listed<ModelPin>,
}

/// The models that a netlist may use.
pub type PinTable = Listed<ModelPins>;
