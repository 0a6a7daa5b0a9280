//! Proposals of steps that make a cover of gates narrower: other gates for its nodes, over nodes that are there. Nothing here says that a
//! step is right: whoever takes one checks it.
#![tactic(auto)]

mod forms;
mod lists;
mod net;
mod passes;
mod readers;
mod search;
mod timing;
mod trial;
mod window;
mod work;

pub use passes::{Step, steps};
