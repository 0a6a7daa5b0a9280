// Cells: what they compute, their pins, and how long their edges take.

use crate::CellFunction;
use sym_geom::{Items, Rect};
use vlsi_base::{Listed, Name, Port, Text};

/// A pin of a cell that is no supply.
#[derive(Drop)]
pub struct Pin {
    /// Its name and direction.
    pub port: Port,
    /// The capacitance of an input in femtofarads.
    pub capacitance: u32,
}

/// How an output pin follows an edge of another pin. The times are in picoseconds, where they are given, and the resistances
/// in ohm, by which a load adds to them.
#[derive(Drop)]
pub struct Arc {
    pub from: Name,
    pub to: Name,
    /// The output falls after a rise of the other pin.
    pub tphl: Option<u32>,
    /// The output falls after a fall of the other pin.
    pub tpll: Option<u32>,
    /// The output falls after either edge.
    pub taf: Option<u32>,
    pub rdown: u32,
    /// The output rises after a fall of the other pin.
    pub tplh: Option<u32>,
    /// The output rises after a rise of the other pin.
    pub tphh: Option<u32>,
    /// The output rises after either edge.
    pub tar: Option<u32>,
    pub rup: u32,
}

/// A cell of a library.
#[derive(Drop)]
pub struct Cell {
    pub name: Text,
    /// The box of its layout.
    pub bounds: Rect,
    /// The lines of its layout in file order.
    pub items: Items,
    /// Its pins without vdd and vss, in the order of names.
    pub pins: Listed<Pin>,
    pub function: CellFunction,
    pub arcs: Listed<Arc>,
}
