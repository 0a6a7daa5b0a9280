//! Pattern files: columns of ports, patterns with their times, labels and values, and what they come to on a machine.
#![tactic(auto)]

mod patterns;

pub use patterns::{
    BitRange, Column, Columns, Pattern, PatternList, Patterns, Time, TimeUnit, Value, Values,
};
