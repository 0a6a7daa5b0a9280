// Rips, and routes with those that were made.
use grid_core::Routes;
use vlsi_base::{Listed, Terminal};

/// A rip: a net that was stuck, the terminal to whose point it had no way, and the net whose paths were torn out. Nets are by their
/// numbers.
#[derive(Debug, Drop)]
pub struct Rip {
    pub net: u32,
    pub terminal: Terminal,
    pub torn: u32,
}

/// Rips, in the order in which they were made.
pub type Rips = Listed<Rip>;

/// The whole trees of all nets, and the rips that were made.
#[derive(Drop)]
pub struct Rerouted {
    pub routes: Routes,
    pub rips: Rips,
}
