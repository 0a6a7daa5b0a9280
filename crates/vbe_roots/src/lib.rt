//! The machines of one text have the same roots, with the same diagrams.
#![tactic(auto)]

mod law;

pub use law::roots_are_the_same;
