//! What the lexers of all languages share: kinds of bytes, pieces of a text, the numbers, signs and quoted texts at its
//! front, and what was read of it so far.
#![tactic(auto)]

mod bytes;
mod front;
mod numbers;
mod piece;
mod quotations;
mod signs;

pub use bytes::{digits, is_blank, is_in_word, line_length, lower, word_length};
pub use front::Front;
pub use numbers::number;
pub use piece::{MOST_IDENTIFIER_BYTES, Piece};
pub use quotations::{quotation, quoted_length};
pub use signs::sign;
