//! Choosing a machine among what is left free: for each output that is left free a constant where one is right everywhere, and else the
//! smaller one of its two equations.
#![tactic(auto)]

mod budget;
mod call;
mod choosing;
mod dag;
mod freed;
mod law;
mod machine;
mod pick;

pub use call::choose;
pub use law::chosen_stands_between;
