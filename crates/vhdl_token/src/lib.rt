//! The tokens of VHDL texts: reserved words, signs, names, numbers, bits and texts, each with its line.
#![tactic(auto)]

mod keyword;
mod token;

pub use keyword::Keyword;
pub use token::{PlacedToken, PlacedTokens, Sign, Token, Tokens};
