//! What is written of patterns is read again as them.
#![tactic(auto)]

mod read_again;

pub use read_again::written_is_read_again;
