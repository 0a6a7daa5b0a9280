// A cover that changes, with what reads each node.

use crate::lists::{copied, has, number_at, put_number};
use crate::readers::Readers;
use arrayvec::ArrayVec;
use cell_match::{CellWord, Gate};
use std::alloc::{AllocError, Global};

/// How many columns are gained or lost, at most.
pub(crate) type Columns = i64;

/// The gates of nodes, and how many pins of gates that are needed and how many roots read each. A gate is needed where its node is read.
#[derive(Drop)]
pub(crate) struct Net {
    pub(crate) gates: Vec<Option<Gate>>,
    pub(crate) readers: Readers,
    pub(crate) counts: Vec<u32>,
    pub(crate) at_roots: Vec<u32>,
}

fn copy_of(gate: &Option<Gate>) -> Option<Gate> {
    match gate {
        Some(gate) => Some(Gate {
            cell: gate.cell,
            leaves: copied(gate.leaves.as_slice()),
        }),
        None => None,
    }
}

fn add_one(counts: &mut [u32], node: u32) {
    let count = number_at(counts, node);
    put_number(counts, node, count.saturating_add(1));
}

/// The function of a cell over the words at its inputs.
pub(crate) fn word_of(cell: &CellWord, words: &[u64]) -> u64 {
    let mut made: u64 = 0;
    for row in 0..1u32.wrapping_shl(cell.inputs as u32) {
        if cell.word.word.wrapping_shr(row) & 1 == 0 {
            continue;
        }
        let mut product = u64::MAX;
        let mut rest = row;
        for word in words {
            product &= if rest & 1 == 1 { *word } else { !*word };
            rest = rest.wrapping_shr(1);
        }
        made |= product;
    }
    made
}

/// The columns of a cell.
pub(crate) fn columns_of(areas: &[u32], cell: usize) -> Columns {
    match areas.get(cell) {
        Some(area) => Columns::from(*area),
        None => 0,
    }
}

impl Net {
    /// The marked gates of a cover with these roots.
    pub(crate) fn new(
        alloc: Global,
        gates: &[Option<Gate>],
        marks: &[bool],
        roots: &[u32],
    ) -> Result<Net, AllocError> {
        let mut copies = Vec::new(alloc);
        let mut readers = Readers::new(alloc, gates.len())?;
        let mut node = 0;
        for (gate, is_marked) in gates.iter().zip(marks.iter()) {
            let copy = if *is_marked { copy_of(gate) } else { None };
            if let Some(gate) = &copy {
                readers.add(node, gate.leaves.as_slice());
            }
            copies.push(copy)?;
            node = node.wrapping_add(1);
        }
        let mut at_roots = vec![in alloc; 0u32; gates.len()]?;
        for root in roots {
            add_one(&mut at_roots, *root);
        }
        let counts = at_roots.clone()?;
        let mut net = Net {
            gates: copies,
            readers,
            counts,
            at_roots,
        };
        net.count();
        Ok(net)
    }

    /// Counts the pins of the gates that are needed, from the last on.
    fn count(&mut self) {
        for behind in 0..self.gates.len() {
            let place = self.gates.len().saturating_sub(behind).saturating_sub(1);
            let Some(Some(gate)) = self.gates.get(place) else {
                continue;
            };
            if self.counts.get(place) == Some(&0) {
                continue;
            }
            for leaf in gate.leaves.as_slice() {
                add_one(&mut self.counts, *leaf);
            }
        }
    }

    /// How many nodes there are.
    pub(crate) fn nodes(&self) -> u32 {
        match u32::try_from(self.gates.len()) {
            Ok(count) => count,
            Err(_) => u32::MAX,
        }
    }

    pub(crate) fn gate(&self, node: u32) -> Option<&Gate> {
        match self.gates.get(node as usize) {
            Some(Some(gate)) => Some(gate),
            _ => None,
        }
    }

    /// What the gate of a node reads.
    pub(crate) fn leaves(&self, node: u32) -> ArrayVec<u32, 6> {
        match self.gate(node) {
            Some(gate) => copied(gate.leaves.as_slice()),
            None => ArrayVec::new(),
        }
    }

    /// How many pins of gates that are needed and how many roots read a node.
    pub(crate) fn readers_of(&self, node: u32) -> u32 {
        number_at(&self.counts, node)
    }

    /// Whether a node is read.
    pub(crate) fn is_read(&self, node: u32) -> bool {
        self.readers_of(node) > 0
    }

    /// Whether a root reads a node.
    pub(crate) fn is_root(&self, node: u32) -> bool {
        number_at(&self.at_roots, node) > 0
    }

    /// Whether the gate of a node is of this cell and reads the same.
    pub(crate) fn is_like(&self, node: u32, gate: &Gate) -> bool {
        match self.gate(node) {
            Some(old) => {
                old.cell == gate.cell
                    && old
                        .leaves
                        .iter()
                        .all(|leaf| has(gate.leaves.as_slice(), *leaf))
            }
            None => false,
        }
    }

    /// Puts a gate in place of that of a node; the counts stay.
    pub(crate) fn set(&mut self, node: u32, gate: Gate) {
        let old = self.leaves(node);
        self.readers.remove(node, old.as_slice());
        self.readers.add(node, gate.leaves.as_slice());
        if let Some(entry) = self.gates.get_mut(node as usize) {
            *entry = Some(gate);
        }
    }
}
