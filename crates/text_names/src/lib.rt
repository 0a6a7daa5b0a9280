//! Identifiers, ports that a text can declare, and texts that aren't among given ones.
#![tactic(auto)]

mod free;
mod law;
mod taken;

pub use free::{first_free, free_texts};
pub use law::texts_are_free;
