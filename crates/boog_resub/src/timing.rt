// How late nodes are, and how long the ways from them to roots, as far as the cells' functions tell it.

use crate::lists::{has, number_at, put_number};
use crate::net::Net;
use cell_match::{CellWord, Gate};
use std::alloc::{AllocError, Global};

/// A time, in eighths of what an inverter takes that nothing reads.
pub(crate) type Time = u32;

/// What a cell of one input takes, and more for each further input.
const FIRST: Time = 8;

const FURTHER: Time = 4;

/// What a cell takes more that isn't of one stage: an input that becomes 1 can make it 1, so an inverter stands in it.
const SECOND_STAGE: Time = 12;

/// What each reader of a node adds, up to so many; where there are more, buffers will stand between.
const READER: Time = 5;

const MOST_READERS: u32 = 8;

/// How many hundredths of the longest way there may be: what wires take isn't seen.
const PERCENT: Time = 97;

/// What each cell takes that nothing reads, when each node has its bit at the latest, how long the longest way from it to a root is, and
/// how long a way may be.
#[derive(Drop)]
pub(crate) struct Timing {
    cells: Vec<Time>,
    arrivals: Vec<Time>,
    rests: Vec<Time>,
    limit: Time,
}

/// Whether no input of a cell that becomes 1 makes it 1.
fn is_inverting(cell: &CellWord) -> bool {
    let rows = 1u32.wrapping_shl(u32::from(cell.inputs));
    for input in 0..u32::from(cell.inputs) {
        let bit = 1u32.wrapping_shl(input);
        for row in 0..rows {
            let is_one = cell.word.word.wrapping_shr(row) & 1 == 1;
            let is_one_then = cell.word.word.wrapping_shr(row | bit) & 1 == 1;
            if !is_one && is_one_then {
                return false;
            }
        }
    }
    true
}

fn cell_time(cell: &CellWord) -> Time {
    let further = u32::from(cell.inputs).saturating_sub(1);
    let one_stage = FIRST.saturating_add(further.saturating_mul(FURTHER));
    if is_inverting(cell) {
        one_stage
    } else {
        one_stage.saturating_add(SECOND_STAGE)
    }
}

impl Timing {
    /// The times of a cover, which is to have no longer way than it has. Takes memory for each node and cell.
    pub(crate) fn new(alloc: Global, cells: &[CellWord], net: &Net) -> Result<Timing, AllocError> {
        let mut times = Vec::new(alloc);
        for cell in cells {
            times.push(cell_time(cell))?;
        }
        let mut timing = Timing {
            cells: times,
            arrivals: vec![in alloc; 0u32; net.gates.len()]?,
            rests: vec![in alloc; 0u32; net.gates.len()]?,
            limit: 0,
        };
        timing.note_all(net);
        timing.limit = timing.longest(net).saturating_mul(PERCENT) / 100;
        Ok(timing)
    }

    fn note_all(&mut self, net: &Net) {
        let nodes = net.nodes();
        for node in 0..nodes {
            self.note_arrival(net, node);
        }
        for behind in 0..nodes {
            self.note_rests(net, nodes.wrapping_sub(behind).wrapping_sub(1));
        }
    }

    /// How long the longest way is.
    fn longest(&self, net: &Net) -> Time {
        let mut longest: Time = 0;
        for node in 0..net.nodes() {
            if net.is_read(node) {
                longest = longest.max(self.through(node));
            }
        }
        longest
    }

    /// How long the longest way through a node is.
    fn through(&self, node: u32) -> Time {
        self.arrival(node)
            .saturating_add(number_at(&self.rests, node))
    }

    /// When a node has its bit.
    pub(crate) fn arrival(&self, node: u32) -> Time {
        number_at(&self.arrivals, node)
    }

    fn own_time(&self, gate: &Gate) -> Time {
        match self.cells.get(gate.cell) {
            Some(time) => *time,
            None => 0,
        }
    }

    /// What a gate takes at a node.
    fn taken(&self, net: &Net, node: u32, gate: &Gate) -> Time {
        let own = self.own_time(gate);
        let readers = net.readers_of(node).min(MOST_READERS);
        own.saturating_add(readers.saturating_mul(READER))
    }

    /// When a gate in place of that of a node would have its bit.
    pub(crate) fn arrival_by(&self, net: &Net, node: u32, gate: &Gate) -> Time {
        let mut latest: Time = 0;
        for leaf in gate.leaves.as_slice() {
            latest = latest.max(self.arrival(*leaf));
        }
        latest.saturating_add(self.taken(net, node, gate))
    }

    /// Notes when a node has its bit, once that is noted of what it reads.
    pub(crate) fn note_arrival(&mut self, net: &Net, node: u32) {
        if let Some(gate) = net.gate(node) {
            let arrival = self.arrival_by(net, node, gate);
            put_number(&mut self.arrivals, node, arrival);
        }
    }

    /// Forgets the ways to roots, before they are noted anew from the last node on.
    pub(crate) fn forget_rests(&mut self) {
        for rest in self.rests.iter_mut() {
            *rest = 0;
        }
    }

    /// Notes the ways by a node for what it reads, once those from the node are noted.
    pub(crate) fn note_rests(&mut self, net: &Net, node: u32) {
        if !net.is_read(node) {
            return;
        }
        if let Some(gate) = net.gate(node) {
            let rest = number_at(&self.rests, node).saturating_add(self.taken(net, node, gate));
            for leaf in gate.leaves.as_slice() {
                let longest = number_at(&self.rests, *leaf).max(rest);
                put_number(&mut self.rests, *leaf, longest);
            }
        }
    }

    /// Whether a gate may stand at a node: a way through the node, or through a node that has one reader more then, is within the limit, or
    /// no longer than the longest way there was.
    pub(crate) fn may_stand(&self, net: &Net, node: u32, gate: &Gate) -> bool {
        let rest = number_at(&self.rests, node);
        let longest = self.limit.max(self.through(node));
        if self.arrival_by(net, node, gate).saturating_add(rest) > longest {
            return false;
        }
        let behind = rest.saturating_add(self.taken(net, node, gate));
        let old = net.leaves(node);
        for leaf in gate.leaves.as_slice() {
            if has(old.as_slice(), *leaf) || !net.is_read(*leaf) {
                continue;
            }
            let onward = number_at(&self.rests, *leaf).max(behind);
            let way = self
                .arrival(*leaf)
                .saturating_add(READER)
                .saturating_add(onward);
            if way > longest.max(self.through(*leaf)) {
                return false;
            }
        }
        true
    }
}
