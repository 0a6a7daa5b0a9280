// A graph with its roots.

use and_graph::{AndGraph, Readers, Signal};
use std::alloc::{AllocError, Global};

/// A graph, and signals of it that are to be there.
#[derive(Drop)]
pub struct Net {
    pub graph: AndGraph,
    pub roots: Vec<Signal>,
}

impl Net {
    /// How much the roots need: twice their gates, and their inverters. Takes memory for the nodes while it counts.
    pub fn weight(&self, alloc: Global) -> Result<usize, AllocError> {
        Ok(readers_of(alloc, &self.graph, &self.roots)?.weight())
    }
}

/// The signal that stands for another, by what stands for each node.
pub(crate) fn replaced(signals: &[Signal], signal: Signal) -> Signal {
    match signals.get(signal.number() as usize) {
        Some(other) => other.inverse_if(signal.is_inverse()),
        None => Signal::ZERO,
    }
}

/// What stands for each of some signals. Takes memory for them.
pub(crate) fn all_replaced(
    alloc: Global,
    signals: &[Signal],
    roots: &[Signal],
) -> Result<Vec<Signal>, AllocError> {
    let mut all = Vec::new(alloc);
    for root in roots {
        all.push(replaced(signals, *root))?;
    }
    Ok(all)
}

/// The signals of the constant and of the inputs of a graph, which are its first nodes. Takes memory for them.
pub(crate) fn first_signals(alloc: Global, graph: &AndGraph) -> Result<Vec<Signal>, AllocError> {
    let mut signals = Vec::new(alloc);
    for number in 0..=graph.inputs() {
        signals.push(Signal::node(number))?;
    }
    Ok(signals)
}

/// How often each node is read. Takes memory for the nodes.
pub(crate) fn readers_of(
    alloc: Global,
    graph: &AndGraph,
    roots: &[Signal],
) -> Result<Readers, AllocError> {
    let mut readers = Readers::new(alloc, graph)?;
    for root in roots {
        readers.read(alloc, graph, *root)?;
    }
    Ok(readers)
}

/// The net of the gates that the roots need. Takes memory for it.
pub(crate) fn needed_alone(
    alloc: Global,
    graph: &AndGraph,
    roots: &[Signal],
) -> Result<Net, AllocError> {
    let readers = readers_of(alloc, graph, roots)?;
    let mut made = AndGraph::new(alloc, graph.inputs());
    let mut signals = first_signals(alloc, graph)?;
    for number in graph.inputs().saturating_add(1)..graph.numbers() {
        let signal = match graph.gate(number) {
            Some(gate) if readers.times(number) > 0 => {
                made.and(
                    replaced(&signals, gate.left),
                    replaced(&signals, gate.right),
                )?
            }
            _ => Signal::ZERO,
        };
        signals.push(signal)?;
    }
    let roots = all_replaced(alloc, &signals, roots)?;
    Ok(Net { graph: made, roots })
}
