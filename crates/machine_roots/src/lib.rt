//! The roots of a machine - what its outputs show and its registers load - and the diagram of each, with an exact budget.
//!
//! A root's expansion replaces inner signals by their equations; it is never made, since it can be exponential in the machine.
//! What is counted stands in `specs/Roots.antt`, without diagrams.
#![tactic(auto)]

mod diagram;
mod listing;
mod sharing;

pub use diagram::{RootDiagram, root_diagram};
pub use listing::{RootExpr, roots};
pub use sharing::{Cone, SharedDiagrams, root_node, share};
