// How often the nodes of a graph are read, as roots are put in and taken out.

use crate::graph::{AndGraph, Gate, Signal};
use std::alloc::{AllocError, Global};

/// How often a node and its inverse are read.
#[derive(Clone, Copy)]
pub struct Count {
    pub plain: u32,
    pub inverse: u32,
}

const UNREAD: Count = Count {
    plain: 0,
    inverse: 0,
};

/// How often each node is read by the roots that were put in and by the gates that these need; and how many gates and inverters that
/// are, where a gate is the inverse of both of what it reads. So a gate that is read as it stands needs an inverter beside it, and an
/// input that is read inversely too.
#[derive(Drop)]
pub struct Readers {
    counts: Vec<Count>,
    gates: usize,
    inverters: usize,
}

impl Readers {
    /// Nothing is read. Takes memory for the graph's nodes.
    pub fn new(alloc: Global, graph: &AndGraph) -> Result<Self, AllocError> {
        Ok(Readers {
            counts: vec![in alloc; UNREAD; graph.nodes()]?,
            gates: 0,
            inverters: 0,
        })
    }

    /// Goes on with a graph that has more gates. Takes memory for these.
    pub fn extend(&mut self, graph: &AndGraph) -> Result<(), AllocError> {
        for _ in self.counts.len()..graph.nodes() {
            self.counts.push(UNREAD)?;
        }
        Ok(())
    }

    /// How many gates and inverters the roots need.
    pub fn needed(&self) -> usize {
        self.gates.saturating_add(self.inverters)
    }

    /// The same with each gate counted twice, since cells take inverters in.
    pub fn weight(&self) -> usize {
        self.needed().saturating_add(self.gates)
    }

    /// How often a node is read, and how often its inverse.
    pub fn count(&self, number: u32) -> Count {
        self.counts.get(number as usize).copied().unwrap_or(UNREAD)
    }

    /// How often a node is read, as it stands or inversely.
    pub fn times(&self, number: u32) -> u32 {
        let count = self.count(number);
        count.plain.saturating_add(count.inverse)
    }

    // Counts a further reader. The gate of the node where nothing read it before.
    fn read_once(&mut self, graph: &AndGraph, signal: Signal) -> Option<Gate> {
        let number = signal.number();
        let gate = graph.gate(number);
        let is_gate = gate.is_some();
        let Some(count) = self.counts.get_mut(number as usize) else {
            return None;
        };
        let was_read = count.plain > 0 || count.inverse > 0;
        let was_here = if signal.is_inverse() {
            count.inverse > 0
        } else {
            count.plain > 0
        };
        if signal.is_inverse() {
            count.inverse = count.inverse.saturating_add(1);
        } else {
            count.plain = count.plain.saturating_add(1);
        }
        if number > 0 && !was_here && signal.is_inverse() != is_gate {
            self.inverters = self.inverters.saturating_add(1);
        }
        if was_read || !is_gate {
            return None;
        }
        self.gates = self.gates.saturating_add(1);
        gate
    }

    // Takes a reader away. The gate of the node where that is needed no more.
    fn leave_once(&mut self, graph: &AndGraph, signal: Signal) -> Option<Gate> {
        let number = signal.number();
        let gate = graph.gate(number);
        let is_gate = gate.is_some();
        let Some(count) = self.counts.get_mut(number as usize) else {
            return None;
        };
        if signal.is_inverse() {
            count.inverse = count.inverse.saturating_sub(1);
        } else {
            count.plain = count.plain.saturating_sub(1);
        }
        let is_here = if signal.is_inverse() {
            count.inverse > 0
        } else {
            count.plain > 0
        };
        let is_read = count.plain > 0 || count.inverse > 0;
        if number > 0 && !is_here && signal.is_inverse() != is_gate {
            self.inverters = self.inverters.saturating_sub(1);
        }
        if is_read || !is_gate {
            return None;
        }
        self.gates = self.gates.saturating_sub(1);
        gate
    }

    /// Puts a root in. Takes time for the gates that nothing else needs.
    pub fn read(
        &mut self,
        alloc: Global,
        graph: &AndGraph,
        root: Signal,
    ) -> Result<(), AllocError> {
        let Some(gate) = self.read_once(graph, root) else {
            return Ok(());
        };
        let mut waiting = Vec::new(alloc);
        waiting.push(gate.left)?;
        waiting.push(gate.right)?;
        for _ in 0..u64::MAX {
            let Some(signal) = waiting.pop() else {
                break;
            };
            if let Some(gate) = self.read_once(graph, signal) {
                waiting.push(gate.left)?;
                waiting.push(gate.right)?;
            }
        }
        Ok(())
    }

    /// Takes a root out that was put in. Takes time for the gates that nothing else needs.
    pub fn leave(
        &mut self,
        alloc: Global,
        graph: &AndGraph,
        root: Signal,
    ) -> Result<(), AllocError> {
        let Some(gate) = self.leave_once(graph, root) else {
            return Ok(());
        };
        let mut waiting = Vec::new(alloc);
        waiting.push(gate.left)?;
        waiting.push(gate.right)?;
        for _ in 0..u64::MAX {
            let Some(signal) = waiting.pop() else {
                break;
            };
            if let Some(gate) = self.leave_once(graph, signal) {
                waiting.push(gate.left)?;
                waiting.push(gate.right)?;
            }
        }
        Ok(())
    }

    /// Puts a signal in as a root so many times, and its inverse.
    pub fn read_times(
        &mut self,
        alloc: Global,
        graph: &AndGraph,
        root: Signal,
        count: Count,
    ) -> Result<(), AllocError> {
        for _ in 0..count.plain {
            self.read(alloc, graph, root)?;
        }
        for _ in 0..count.inverse {
            self.read(alloc, graph, root.inverse())?;
        }
        Ok(())
    }

    /// Takes a signal out that was put in so many times, and its inverse.
    pub fn leave_times(
        &mut self,
        alloc: Global,
        graph: &AndGraph,
        root: Signal,
        count: Count,
    ) -> Result<(), AllocError> {
        for _ in 0..count.plain {
            self.leave(alloc, graph, root)?;
        }
        for _ in 0..count.inverse {
            self.leave(alloc, graph, root.inverse())?;
        }
        Ok(())
    }
}
