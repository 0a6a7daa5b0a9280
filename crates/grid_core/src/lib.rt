//! The grid on which nets are routed: nodes on the metals from 2 on, who owns each, the paths of nets and what they cost.
#![tactic(auto)]

mod grid;
mod law;
mod occupied;
mod routes;

pub use grid::{Grid, Node, node_at, number_of};
pub use law::routes_grow;
pub use occupied::{NOBODY, Occupied};
pub use routes::{NetTree, Routes};
