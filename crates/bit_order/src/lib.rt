//! An order in which each node comes after all that it reads, or a ring of nodes that leaves none: topological sorting by depth-first search
//! (Tarjan, 1976).
#![tactic(auto)]

mod law;
mod outcome;
mod sorting;
mod walk;

pub use law::an_order_leaves_no_ring;
pub use outcome::Order;
pub use sorting::order;
