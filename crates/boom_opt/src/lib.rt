//! Machines made smaller by reduced ordered diagrams.
//!
//! A machine is made anew, over the nodes of its roots' diagrams, and the smaller one of the two is taken, or the given one where it has
//! fewer gates and is small enough; or one that is proposed, as a mixture of both or with gates made anew, where that has fewer gates
//! still. What the answer is stands in `specs/Optimised.antt`; why it meets its bounds, in `optimising.rt`.
#![tactic(auto)]

mod error;
mod gates;
mod optimising;

pub use error::BoomError;
pub use optimising::{Optimised, optimise};
