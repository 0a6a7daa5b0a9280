// Rips, and routes with those that were made.
use grid_core::Routes;

/// A rip: a net that was stuck, the number of its point to which it had no way, counted from 0, and the net whose paths were torn out.
#[derive(Clone, Copy, Debug, Drop)]
pub struct PointRip {
    pub net: u32,
    pub point: usize,
    pub torn: u32,
}

/// The whole trees of all nets, and the rips that were made, in their order.
#[derive(Drop)]
pub struct Ripped {
    pub routes: Routes,
    pub rips: Vec<PointRip>,
}
