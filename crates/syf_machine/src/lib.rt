//! State machines as machines of equations and registers.
#![tactic(auto)]

mod inner;
mod law;
mod machine;
mod names;

pub use law::machine_does_as;
pub use machine::machine_of;
