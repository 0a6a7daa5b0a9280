//! A circuit of any size from a number: its gates and what they read come from the words of a generator that the number seeds.
#![tactic(auto)]

mod law;
mod making;

pub use law::{
    circuits_are_checked, circuits_are_read_again, circuits_are_small, circuits_can_be_written,
};
pub use making::{LEAST_SIZE, MOST_SIZE, circuit};
