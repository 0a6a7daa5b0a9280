//! What readers of languages stand on: which lists of tokens are the sentences of a grammar, and when what a reader
//! answers is right.
#![tactic(auto)]

mod form;
mod limits;
mod refusal;

pub use form::Form;
pub use limits::{BITS, CHAIN, DEPTH};
pub use refusal::{Breach, Reason, Refusal, Stop};
