//! Boolean expressions over numbered variables: the value of one, its size, its variables, a copy, and a copy over other variables.
#![tactic(auto)]

mod copies;
mod expr;
mod values;
mod variables;

pub use copies::{copy, renumbered};
pub use expr::{Bits, Expr, Gate, Vars};
pub use values::{size, value, value_at};
pub use variables::support;
