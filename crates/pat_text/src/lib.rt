//! Pattern files as they are written: their grammar, and a reader of their tokens.
#![tactic(auto)]

mod columns;
mod file;
mod law;
mod parsed;
mod patterns;
mod words;

pub use file::read_patterns;
pub use law::{each_text, never_both, one_refusal, reads_once};
pub use parsed::{
    ParsedColumn, ParsedColumns, ParsedPattern, ParsedPatterns, ParsedValue, ParsedValues,
    PatternFile,
};
