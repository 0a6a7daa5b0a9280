//! Texts of state machines: their tokens are read into what is written there, or refused at the first token that can't stand.
#![tactic(auto)]

mod clipping;
mod counting;
mod file;
mod law;
mod machine;
mod names;
mod pieces;
mod processes;
mod statements;

pub use counting::named_by;
pub use file::{
    Body, Branches, ClockProcess, FirstToken, Parts, StateFile, StateSignals, StateType, Statement,
    StepProcess,
};
pub use law::{each_text, never_both, one_refusal, reads_once};
pub use machine::read_machine;
