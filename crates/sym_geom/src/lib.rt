//! The geometry of the symbolic layout: layers, rectangles, the items of a figure and the rectangles that they show.
//! All coordinates and widths are at scale 100, so that a column is `PITCH` wide and a row of cells `ROW_HEIGHT` high.
#![tactic(auto)]

mod gaps;
mod grid;
mod item;
mod layer;
mod placing;
mod rect;
mod rects;

pub use gaps::gap;
pub use grid::{
    CELL_MARGIN, FIRST_CELL_X, FIRST_TRACK_Y, LEAST_GAP, LEAST_WIDTH, PAD_WIDTH, PITCH, RAIL_INSET,
    RAIL_OVERHANG, RAIL_WIDTH, ROW_HEIGHT, VDD_RAIL_Y, VDD_STRAP_X, VDD_STRIP_Y, VSS_RAIL_Y,
    VSS_STRAP_X, WIRE_OVERHANG, WIRE_WIDTH,
};
pub use item::{
    Connector, Contact, Direction, Instance, Item, Items, Reference, Segment, Side, Via,
};
pub use layer::{Layer, Level, metal_of};
pub use placing::transform;
pub use rect::{Rect, Transform, touches};
pub use rects::{connector_rect, segment_rect, via_pads};
