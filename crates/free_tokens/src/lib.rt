//! Bits that a text leaves free: three tokens that are one operand, and a bit in place of it.
#![tactic(auto)]

mod tokens;
mod value;

pub use tokens::{FREE_NAME, FREE_TOKENS, at_free, copied, operand};
pub use value::{copied_value, filled_value};
