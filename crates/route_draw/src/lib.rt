//! Figures of placed netlists, drawn with private tracks in one row, or with routes over rows.
#![tactic(auto)]

mod grid;
mod grid_nets;
mod grid_rows;
mod law;
mod lines;
mod nets;
mod row;
mod tracks;

pub use grid::{draw, draw_placed, mark};
pub use law::{
    drawing_can_be_written, grid_drawing_can_be_written, marked_drawing_can_be_written,
    netlists_are_drawable, placed_drawing_can_be_written, right_drawings_are_right,
    right_grid_drawings_are_right,
};
pub use tracks::draw_tracks;
