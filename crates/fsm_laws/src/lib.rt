//! Laws of state machines' texts: each is a state machine or has a refusal, its statements have few signals, and what is read can be
//! written again.
#![tactic(auto)]

mod each_text;
mod few_signals;
mod writable;

pub use each_text::each_text_has_an_answer;
pub use few_signals::machine_has_few_signals;
pub use writable::{fsm_is_named, machine_of_fsm_can_be_written};
