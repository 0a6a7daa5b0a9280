use sym_geom::{Items, Rect};
use vlsi_base::Name;

/// An ap file: its name, its box, and its other lines in file order. Coordinates and widths are at scale 100.
#[derive(Drop)]
pub struct Figure {
    /// The name in the head line, or none for `*`.
    pub name: Option<Name>,
    /// The box.
    pub bounds: Rect,
    pub items: Items,
}
