// The graph.

use indexmap::IndexSet;
use std::alloc::{AllocError, Global};

/// A node or its inverse: twice the node's number, and one more for the inverse.
#[derive(Clone, Copy, PartialEq, Eq, PartialOrd, Ord, Hash)]
pub struct Signal(u32);

/// A gate that is 1 where both of what it reads are 1; the first is the lesser signal.
#[derive(Clone, Copy, PartialEq, Eq, Hash)]
pub struct Gate {
    pub left: Signal,
    pub right: Signal,
}

/// Gates behind the constant 0, which is node 0, and inputs, which are the next ones. No two gates are equal, and each reads nodes
/// before it.
#[derive(Drop)]
pub struct AndGraph {
    inputs: u32,
    gates: IndexSet<Gate>,
}

impl Signal {
    pub const ZERO: Signal = Signal(0);

    pub const ONE: Signal = Signal(1);

    /// The node of this number.
    pub fn node(number: u32) -> Signal {
        Signal(number.wrapping_mul(2))
    }

    /// The number of its node.
    pub fn number(self) -> u32 {
        self.0 / 2
    }

    /// Whether it is the inverse of its node.
    pub fn is_inverse(self) -> bool {
        self.0 % 2 == 1
    }

    /// Its inverse.
    pub fn inverse(self) -> Signal {
        Signal(self.0 ^ 1)
    }

    /// Its inverse where the flag is set, and itself elsewhere.
    pub fn inverse_if(self, is_inverse: bool) -> Signal {
        if is_inverse { self.inverse() } else { self }
    }
}

impl AndGraph {
    /// A graph of so many inputs and of no gate. Takes no memory.
    pub fn new(alloc: Global, inputs: u32) -> Self {
        AndGraph {
            inputs,
            gates: IndexSet::new(alloc),
        }
    }

    /// How many inputs there are.
    pub fn inputs(&self) -> u32 {
        self.inputs
    }

    /// How many gates there are.
    pub fn len(&self) -> usize {
        self.gates.len()
    }

    /// How many nodes there are, the constant among them.
    pub fn nodes(&self) -> usize {
        self.gates
            .len()
            .saturating_add(self.inputs as usize)
            .saturating_add(1)
    }

    /// The number behind that of the last node.
    pub fn numbers(&self) -> u32 {
        u32::try_from(self.nodes()).unwrap_or(u32::MAX)
    }

    /// The signal of input k.
    pub fn input(&self, k: u32) -> Signal {
        Signal::node(k.wrapping_add(1))
    }

    /// The signal of gate k.
    pub fn gate_signal(&self, k: usize) -> Signal {
        let number = self.first_gate().saturating_add(k);
        Signal::node(u32::try_from(number).unwrap_or(0))
    }

    /// The number of the node of gate 0.
    pub fn first_gate(&self) -> usize {
        (self.inputs as usize).saturating_add(1)
    }

    /// The gate of a node; `None` for the constant and an input.
    pub fn gate(&self, number: u32) -> Option<Gate> {
        let place = (number as usize).checked_sub(self.first_gate())?;
        self.gates.get_index(place).copied()
    }

    /// A signal that stands for the gate without a new node, where there is one.
    pub fn found(&self, left: Signal, right: Signal) -> Option<Signal> {
        if let Some(simple) = simplified(left, right) {
            return Some(simple);
        }
        let place = self.gates.get_index_of(&sorted(left, right))?;
        Some(self.gate_signal(place))
    }

    /// The signal that is 1 where both are 1. Takes memory for a gate where there is none.
    pub fn and(&mut self, left: Signal, right: Signal) -> Result<Signal, AllocError> {
        if let Some(simple) = simplified(left, right) {
            return Ok(simple);
        }
        let (place, _) = self.gates.insert_full(sorted(left, right))?;
        Ok(self.gate_signal(place))
    }

    /// The signal that is 1 where one of them is 1.
    pub fn or(&mut self, left: Signal, right: Signal) -> Result<Signal, AllocError> {
        let neither = self.and(left.inverse(), right.inverse())?;
        Ok(neither.inverse())
    }

    /// The signal that is 1 where one of them alone is 1.
    pub fn xor(&mut self, left: Signal, right: Signal) -> Result<Signal, AllocError> {
        let both = self.and(left, right)?;
        let neither = self.and(left.inverse(), right.inverse())?;
        self.and(both.inverse(), neither.inverse())
    }

    /// `high` where the condition is 1, and `low` where it is 0.
    pub fn choice(
        &mut self,
        condition: Signal,
        high: Signal,
        low: Signal,
    ) -> Result<Signal, AllocError> {
        let first = self.and(condition, high)?;
        let second = self.and(condition.inverse(), low)?;
        self.or(first, second)
    }
}

// The gate of two signals, in their order.
fn sorted(left: Signal, right: Signal) -> Gate {
    if left.0 < right.0 {
        Gate { left, right }
    } else {
        Gate {
            left: right,
            right: left,
        }
    }
}

// What stands for a gate that reads a constant, or one node twice.
fn simplified(left: Signal, right: Signal) -> Option<Signal> {
    if left == right || right == Signal::ONE {
        Some(left)
    } else if left == Signal::ONE {
        Some(right)
    } else if left == right.inverse() || left == Signal::ZERO || right == Signal::ZERO {
        Some(Signal::ZERO)
    } else {
        None
    }
}
