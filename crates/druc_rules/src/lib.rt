//! The symbolic rules of a layout: which drawn shapes are too narrow, and which shapes are too near.
//!
//! What the list of a layout's breaches is stands in `specs/Breaches.antt`.
#![tactic(auto)]

mod breach;
mod breaking;
mod drawing;
mod error;
mod excuses;
mod laws;

pub use breach::{Breach, Breaches, Rules};
pub use breaking::broken;
pub use error::DrucError;
pub use laws::standard_rules_law;
