//! The least area of the trees of a graph by the cells of a library, with a bound for each gate that is checked by itself: dynamic
//! programming over trees (Keutzer, 1987), where cells match cuts by truth tables.
#![tactic(auto)]

mod alike;
mod bounds;
mod cuts;
mod enough;
mod inner;
mod law;
mod least;
mod order;
mod pick;

pub use bounds::check_bounds;
pub use cuts::{MOST_MEMBERS, tree_cuts};
pub use inner::inner_gates;
pub use law::bounds_are_least;
pub use least::{LeastCover, least_area};
pub use pick::{Pick, best_pick};
