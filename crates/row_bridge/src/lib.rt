//! Rows of a netlist's instances as rows of numbers: their nets are as long, so what is improved by number is improved by name.
#![tactic(auto)]

mod law;

pub use law::{
    alike_can_be_improved, improved_above, improved_hold_each_once, lengths_agree, nets_are_alike,
    placed_can_be_improved,
};
