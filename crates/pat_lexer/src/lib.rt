//! The tokens of pattern files: what a text of bytes is cut into, on which lines, and the first place where it can't be.
#![tactic(auto)]

mod bytes;
mod listing;
mod piece;

pub use listing::tokens;
