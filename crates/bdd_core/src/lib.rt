//! Reduced ordered binary decision diagrams (Bryant, 1986) with an exact budget: a table of unique nodes, and one recursion with a table of
//! answers for gates and for the choice, ITE (Brace, Rudell and Bryant, 1990).
#![tactic(auto)]

mod diagrams;
mod laws;
mod node;
mod operators;
mod picking;
mod table;

pub use diagrams::Diagrams;
pub use laws::{denoted_is_value, gate_is_value, held_is_value, one_count, truths_is_value};
pub use node::{BddError, Branch, NodeId};
