// Which roots keep their equations.

use and_graph::{AndGraph, Readers, Signal};
use std::alloc::{AllocError, Global};

/// Where a root stands: the number of its equation, or the place among what registers load.
#[derive(Clone, Copy)]
pub(crate) enum Place {
    Equation(usize),
    Load(usize),
}

/// A root, as its equations say it and as its diagram does, and which of the two it gets.
#[derive(Clone, Copy)]
pub(crate) struct RootChoice {
    pub(crate) place: Place,
    pub(crate) given: Signal,
    /// `None` where the diagram was given up.
    pub(crate) made: Option<Signal>,
    pub(crate) is_made: bool,
}

/// How often all roots are gone through.
const ROUNDS: u32 = 3;

impl RootChoice {
    /// What the root gets.
    pub(crate) fn now(&self) -> Signal {
        self.signal(self.is_made)
    }

    // What the root gets, or the other of the two.
    fn signal(&self, is_made: bool) -> Signal {
        match self.made {
            Some(made) if is_made => made,
            _ => self.given,
        }
    }
}

// Gives the root the other of its two signals, where fewer gates are needed then. Whether it did.
fn turned(
    alloc: Global,
    graph: &AndGraph,
    readers: &mut Readers,
    root: &RootChoice,
) -> Result<bool, AllocError> {
    let now = root.now();
    let other = root.signal(!root.is_made);
    if now == other {
        return Ok(false);
    }
    let before = readers.needed();
    readers.read(alloc, graph, other)?;
    readers.leave(alloc, graph, now)?;
    if readers.needed() < before {
        return Ok(true);
    }
    readers.read(alloc, graph, now)?;
    readers.leave(alloc, graph, other)?;
    Ok(false)
}

/// Chooses root by root, from all given equations or all diagrams on, and answers how many gates are needed then. Takes memory for
/// how often the nodes of the graph are read.
pub(crate) fn chosen(
    alloc: Global,
    graph: &AndGraph,
    roots: &mut [RootChoice],
    is_made: bool,
) -> Result<usize, AllocError> {
    let mut readers = Readers::new(alloc, graph)?;
    for root in roots.iter_mut() {
        root.is_made = is_made && root.made.is_some();
        readers.read(alloc, graph, root.signal(is_made))?;
    }
    for _ in 0..ROUNDS {
        let mut is_settled = true;
        for root in roots.iter_mut() {
            if turned(alloc, graph, &mut readers, root)? {
                root.is_made = !root.is_made;
                is_settled = false;
            }
        }
        if is_settled {
            break;
        }
    }
    Ok(readers.needed())
}
