//! Pairs of shapes of one metal, found by a plane sweep along bands: which are near, and which hold which.
//!
//! What such pairs are stands in `specs/Related.antt`.
#![tactic(auto)]

mod bands;
mod near;
mod related;
mod sweep;

pub use near::{Pair, Relation, is_below};
pub use related::{NearPairs, near_pairs};
