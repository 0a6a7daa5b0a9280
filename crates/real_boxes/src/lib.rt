//! Layouts on all layers of a process: the boxes of what a layout draws, by a table, and the CIF file of them.
//!
//! What is drawn stands in `specs/Marks.antt`, its boxes in `specs/Boxes.antt`, which layouts have none in `specs/Refused.antt`, and
//! the bytes of the file in `specs/File.antt`.
#![tactic(auto)]

mod boxes;
mod cif;
mod error;
mod judging;
mod labels;
mod making;
mod mark;
mod metals;
mod near;
mod placing;
mod words;

pub use boxes::RealBox;
pub use cif::write_process;
pub use error::ProcessError;
pub use making::to_process;
pub use mark::Mark;
