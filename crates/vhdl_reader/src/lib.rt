//! A reader of entities, declarations of signals and expressions, which can be asked again after memory ran out.
#![tactic(auto)]

mod copies;
mod done;
mod reader;

pub use reader::TokenReader;
