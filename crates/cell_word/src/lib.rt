//! What gates compute, as words.
#![tactic(auto)]

mod word;

pub use word::word_of;
