//! Data-flow texts: their tokens are read into what is written there, or refused at the first token that can't stand.
#![tactic(auto)]

mod choice;
mod law;
mod source;
mod statement;
mod targets;

pub use law::{each_text, never_both, one_refusal, reads_once};
pub use source::{architecture_head, read_source};
pub use statement::repeated;
pub use targets::target;
