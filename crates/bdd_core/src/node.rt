// Nodes, and why there is none.
use thiserror::Error;

/// A node of some `Diagrams`. It stays one for as long as they last.
#[derive(Clone, Copy, PartialEq, Eq, Hash)]
pub struct NodeId {
    pub(crate) place: usize,
}

/// The first variable on which a function depends, and the nodes of the function with that variable 0 and 1.
#[derive(Clone, Copy)]
pub struct Branch {
    pub variable: u32,
    pub low: NodeId,
    pub high: NodeId,
}

/// Why there is no node.
#[derive(Clone, Copy, Debug, Drop, Error)]
pub enum BddError {
    /// More truth lists than the budget.
    #[error("more nodes than the budget")]
    Budget,
    /// No memory.
    #[error("out of memory")]
    Memory,
}

/// A variable, and the places of the nodes for 0 and for 1: 12 bytes. A place that is the last one of the greatest budget needs
/// more bits, but is no son.
#[derive(Clone, Copy, PartialEq, Eq, Hash)]
pub(crate) struct Node {
    pub variable: u32,
    pub low: u32,
    pub high: u32,
}
