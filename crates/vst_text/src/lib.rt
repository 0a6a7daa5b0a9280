//! Structural texts: their tokens are read into what is written there, or refused at the first token that can't stand.
#![tactic(auto)]

mod components;
mod declarations;
mod file;
mod instances;
mod law;
mod structure;

pub use file::{
    Association, Component, Declaration, InstanceStatement, NetName, PinName, StructuralFile,
};
pub use law::{each_text, never_both, one_refusal, reads_once};
pub use structure::read_structure;
