//! Netlists in memory, compared by the names of their ports, instances and pins.
//!
//! When two are the same, and what is told where they aren't, stands in `specs/Compared.antt`.
#![tactic(auto)]

mod comparing;
mod faults;
mod images;
mod laws;
mod matching;

pub use comparing::{Verdict, compare};
pub use laws::same_law;
