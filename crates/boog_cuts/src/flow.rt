// Which cuts are worth keeping.

use crate::nodes::KEPT;
use arrayvec::ArrayVec;
use cell_match::{Cut, place};
use std::alloc::{AllocError, Global};
use subject_graph::{Graph, Node};

/// The share of area that stands for a pin of a cell. A cell is taken to have the area of its pins and of two more.
const PIN: u64 = 1024;

const CELL: u64 = 2;

fn add_reader(readers: &mut [u32], number: u32) {
    if let Some(count) = readers.get_mut(number as usize) {
        *count = count.saturating_add(1);
    }
}

/// How many nodes and roots of the graph read each number. Takes memory for them.
pub fn readers(alloc: Global, held: u32, g: &Graph) -> Result<Vec<u32>, AllocError> {
    let nodes = g.nodes();
    let mut readers = vec![in alloc; 0u32; nodes.len().saturating_add(held as usize)]?;
    for node in nodes {
        match node {
            Node::Fixed(_) => {}
            Node::Inv(a) => add_reader(&mut readers, *a),
            Node::Nand(a, b) => {
                add_reader(&mut readers, *a);
                add_reader(&mut readers, *b);
            }
        }
    }
    for root in g.outputs() {
        add_reader(&mut readers, *root);
    }
    for root in g.loads() {
        add_reader(&mut readers, *root);
    }
    Ok(readers)
}

/// For each number a share of area: that of its cheapest cut, with those of the cut's leaves, each shared among its readers.
#[derive(Drop)]
pub(crate) struct Flows {
    readers: Vec<u32>,
    flows: Vec<u64>,
}

impl Flows {
    /// Those of inputs and registers, which cost nothing. Takes memory for the readers of each number.
    pub(crate) fn new(alloc: Global, held: u32, g: &Graph) -> Result<Flows, AllocError> {
        let readers = readers(alloc, held, g)?;
        let flows = vec![in alloc; 0u64; held as usize]?;
        Ok(Flows { readers, flows })
    }

    /// The share of area of a cell with these leaves.
    fn cost(&self, leaves: &[u32]) -> u64 {
        let mut cost = (leaves.len() as u64)
            .saturating_add(CELL)
            .saturating_mul(PIN);
        for leaf in leaves {
            if let Some(flow) = self.flows.get(*leaf as usize) {
                let count = match self.readers.get(*leaf as usize) {
                    Some(count) => (*count).max(1),
                    None => 1,
                };
                cost = cost.saturating_add(*flow / count as u64);
            }
        }
        cost
    }

    /// Adds that of the next number, by its cuts behind the first. Takes memory for it.
    pub(crate) fn enter<const K: usize>(&mut self, cuts: &[Cut<K>]) -> Result<(), AllocError> {
        let mut least = u64::MAX;
        for i in 1..cuts.len() {
            least = least.min(self.cost(cuts[i].leaves.as_slice()));
        }
        self.flows.push(least)?;
        Ok(())
    }
}

/// The places of two cuts, the nodes of both, and what they cost.
#[derive(Drop)]
pub(crate) struct Pair {
    pub(crate) first: usize,
    pub(crate) second: usize,
    leaves: ArrayVec<u32, 6>,
    cost: u64,
}

/// Adds a node that is not there yet; false where there are so many already.
fn add_leaf(nodes: &mut ArrayVec<u32, 6>, node: u32, most: usize) -> bool {
    if place(nodes.as_slice(), node) < nodes.len() {
        return true;
    }
    if nodes.len() >= most || nodes.is_full() {
        return false;
    }
    nodes.push(node);
    true
}

/// The nodes of both lists; None where there are more than so many.
fn both(first: &[u32], second: &[u32], most: usize) -> Option<ArrayVec<u32, 6>> {
    let mut nodes = ArrayVec::new();
    for node in first {
        if !add_leaf(&mut nodes, *node, most) {
            return None;
        }
    }
    for node in second {
        if !add_leaf(&mut nodes, *node, most) {
            return None;
        }
    }
    Some(nodes)
}

/// Whether two lists of different nodes have the same ones.
fn are_same(first: &[u32], second: &[u32]) -> bool {
    if first.len() != second.len() {
        return false;
    }
    for node in second {
        if place(first, *node) == first.len() {
            return false;
        }
    }
    true
}

fn is_known(pairs: &[Pair], leaves: &[u32]) -> bool {
    for pair in pairs {
        if are_same(pair.leaves.as_slice(), leaves) {
            return true;
        }
    }
    false
}

/// The place of the dearest pair.
fn dearest(pairs: &[Pair]) -> usize {
    let mut place = 0;
    let mut most = 0;
    for (i, pair) in pairs.iter().enumerate() {
        if pair.cost >= most {
            most = pair.cost;
            place = i;
        }
    }
    place
}

/// Keeps a pair whose nodes no other has, where it is among the cheapest. Takes memory for it.
fn keep(pairs: &mut Vec<Pair>, new: Pair) -> Result<(), AllocError> {
    if is_known(pairs, new.leaves.as_slice()) {
        return Ok(());
    }
    if pairs.len() < KEPT {
        pairs.push(new)?;
        return Ok(());
    }
    let place = dearest(pairs);
    if let Some(pair) = pairs.get_mut(place) {
        if new.cost < pair.cost {
            *pair = new;
        }
    }
    Ok(())
}

/// The cheapest cuts of a gate, as pairs of cuts of the nodes that it reads, the cheapest first. Takes memory for them.
pub(crate) fn best_pairs<const K: usize>(
    alloc: Global,
    first: &[Cut<K>],
    second: &[Cut<K>],
    flows: &Flows,
) -> Result<Vec<Pair>, AllocError> {
    let mut pairs = Vec::new(alloc);
    for i in 0..first.len() {
        for k in 0..second.len() {
            if let Some(leaves) = both(first[i].leaves.as_slice(), second[k].leaves.as_slice(), K) {
                let cost = flows.cost(leaves.as_slice());
                let pair = Pair {
                    first: i,
                    second: k,
                    leaves,
                    cost,
                };
                keep(&mut pairs, pair)?;
            }
        }
    }
    pairs.sort_by_key(|pair| pair.cost)?;
    Ok(pairs)
}
