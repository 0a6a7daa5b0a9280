//! What a layout shows: its shapes, and which of them are joined.
#![tactic(auto)]

mod bands;
mod chains;
mod drawing;
mod forest;
mod holders;
mod marks;
mod numbers;
mod search;
mod shape;
mod sweep;

pub use chains::chain;
pub use drawing::drawn;
pub use numbers::joints;
pub use shape::Shape;
