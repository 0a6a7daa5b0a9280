//! The tokens of VHDL texts: what a text of bytes is cut into, on which lines, and the first place where it can't be.
#![tactic(auto)]

mod blanks;
mod comment;
mod listing;
mod piece;

pub use listing::tokens;
