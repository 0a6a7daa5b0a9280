// Cuts of the nodes of a graph: nodes below one that determine it, and how.

use crate::words::{exchanged, inverse_if, variable_word};
use and_graph::{AndGraph, Gate};
use arrayvec::ArrayVec;
use std::alloc::{AllocError, Global};

/// How many leaves a cut may have, which is at most the variables of a word.
const LEAVES: usize = 5;

/// How many cuts of a node are kept, beside the node itself.
const KEPT: usize = 24;

/// Leaves in rising order, and the node as a function of them.
#[derive(Drop)]
pub(crate) struct Cut {
    pub(crate) leaves: ArrayVec<u32, LEAVES>,
    pub(crate) word: u64,
    marks: u64,
}

// A bit for each leaf, which others may have too: so most cuts are seen to be too wide, or to have a leaf that another one lacks, without
// a look at their leaves.
fn marks_of(leaves: &[u32]) -> u64 {
    let mut marks = 0;
    for leaf in leaves {
        marks |= 1u64.wrapping_shl(leaf % 64);
    }
    marks
}

// The cut that is the node itself; the constant has no leaf.
fn own_cut(node: u32) -> Cut {
    let mut leaves = ArrayVec::new();
    if node > 0 {
        leaves.push(node);
    }
    let marks = marks_of(leaves.as_slice());
    let word = if node > 0 { variable_word(0) } else { 0 };
    Cut {
        leaves,
        word,
        marks,
    }
}

// The leaves of both; `None` where they are too many.
fn joined(first: &Cut, second: &Cut) -> Option<ArrayVec<u32, LEAVES>> {
    if (first.marks | second.marks).count_ones() as usize > LEAVES {
        return None;
    }
    let mut leaves: ArrayVec<u32, LEAVES> = ArrayVec::new();
    for leaf in first.leaves.iter().chain(second.leaves.iter()) {
        if let Err(place) = leaves.as_slice().binary_search(leaf) {
            if leaves.is_full() {
                return None;
            }
            leaves.insert(place, *leaf);
        }
    }
    Some(leaves)
}

// A function of leaves as one of more leaves.
fn on_leaves(word: u64, leaves: &[u32], all: &[u32]) -> u64 {
    let mut word = word;
    for (k, leaf) in leaves.iter().enumerate().rev() {
        if let Ok(place) = all.binary_search(leaf) {
            word = exchanged(word, k, place);
        }
    }
    word
}

// The function of a gate over leaves from those of a cut of each node that it reads.
fn word_of(gate: Gate, leaves: &[u32], first: &Cut, second: &Cut) -> u64 {
    let left = on_leaves(first.word, first.leaves.as_slice(), leaves);
    let right = on_leaves(second.word, second.leaves.as_slice(), leaves);
    inverse_if(left, gate.left.is_inverse()) & inverse_if(right, gate.right.is_inverse())
}

// Whether the leaves of a cut are among those of another.
fn is_within(cut: &Cut, other: &Cut) -> bool {
    if cut.marks & !other.marks != 0 {
        return false;
    }
    for leaf in cut.leaves.iter() {
        if other.leaves.as_slice().binary_search(leaf).is_err() {
            return false;
        }
    }
    true
}

// Whether the leaves of a cut that is there are among those of a new one.
fn is_known(cuts: &[Cut], new: &Cut) -> bool {
    for cut in cuts {
        if is_within(cut, new) {
            return true;
        }
    }
    false
}

// Puts a cut among others, in the place of those that have its leaves and more.
fn put(cuts: &mut Vec<Cut>, new: Cut) -> Result<(), AllocError> {
    cuts.retain(|cut| !is_within(&new, cut));
    cuts.push(new)?;
    Ok(())
}

// The cuts of a gate with the fewest leaves.
fn gate_cuts(
    alloc: Global,
    gate: Gate,
    first: &[Cut],
    second: &[Cut],
) -> Result<Vec<Cut>, AllocError> {
    let mut cuts = Vec::new(alloc);
    for one in first {
        for other in second {
            let Some(leaves) = joined(one, other) else {
                continue;
            };
            let marks = one.marks | other.marks;
            let mut new = Cut {
                leaves,
                word: 0,
                marks,
            };
            if !is_known(&cuts, &new) {
                new.word = word_of(gate, new.leaves.as_slice(), one, other);
                put(&mut cuts, new)?;
            }
        }
    }
    cuts.sort_by_key(|cut| cut.leaves.len())?;
    cuts.truncate(KEPT);
    Ok(cuts)
}

/// The cuts of a node.
pub(crate) fn cuts_at(cuts: &[Vec<Cut>], node: u32) -> &[Cut] {
    match cuts.get(node as usize) {
        Some(cuts) => cuts.as_slice(),
        None => &[],
    }
}

/// The cuts of each node, the node itself last. Takes memory for them.
pub(crate) fn all_cuts(alloc: Global, graph: &AndGraph) -> Result<Vec<Vec<Cut>>, AllocError> {
    let mut all: Vec<Vec<Cut>> = Vec::new(alloc);
    for node in 0..graph.numbers() {
        let mut cuts = match graph.gate(node) {
            Some(gate) => {
                let first = cuts_at(&all, gate.left.number());
                let second = cuts_at(&all, gate.right.number());
                gate_cuts(alloc, gate, first, second)?
            }
            None => Vec::new(alloc),
        };
        cuts.push(own_cut(node))?;
        all.push(cuts)?;
    }
    Ok(all)
}
