//! Two roots of machines as functions: their names, the machines as they are compared, the diagram of both roots, and bits on which they
//! differ.
//!
//! The expansions of two roots stand in one diagram, so that what they share counts once. How large it is stands in
//! `specs/Together.antt`, without diagrams.
#![tactic(auto)]

mod clock;
mod differing;
mod joint;
mod laws;
mod naming;

pub use clock::as_compared;
pub use differing::{differing_bits, given_bits, spread_bits};
pub use joint::{JointDiagram, joint_diagram};
pub use laws::compared_law;
pub use naming::{Role, least_one_sided};
