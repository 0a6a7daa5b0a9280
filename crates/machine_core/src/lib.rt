//! Machines: equations and registers, what they do (in `specs/`, when a valuation settles, what is observed, and runs), machines that
//! have passed their checks, and machines that can't be told apart from outside.
#![tactic(auto)]

mod alike;
mod equation;
mod law;
mod machine;
mod size;

pub use alike::alike_law;
pub use equation::{Equation, Equations, Register, Registers};
pub use law::{built_settles, settles_once};
pub use machine::Machine;
pub use size::machine_size;
