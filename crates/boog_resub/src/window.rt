// A few leaves below a node, and the nodes that are functions of them.

use crate::lists::{copied, has, number_at, put_number};
use crate::net::{Net, word_of};
use crate::readers::Readers;
use arrayvec::ArrayVec;
use cell_match::CellWord;
use truth_tab::Truth;

/// How many leaves a window has at most.
pub(crate) const LEAVES: usize = 6;

/// How many nodes.
pub(crate) const NODES: usize = 64;

/// How many of them stand between the leaves and the node.
const INNER: usize = 24;

/// How many readers of each node are looked at.
const SIDES: usize = 24;

/// Leaves that cut a node off, nodes below it that are functions of them with their words over them, and the node's own word.
#[derive(Drop)]
pub(crate) struct Window {
    pub(crate) node: u32,
    pub(crate) leaves: ArrayVec<u32, LEAVES>,
    pub(crate) nodes: ArrayVec<u32, NODES>,
    pub(crate) words: ArrayVec<u64, NODES>,
    pub(crate) own: u64,
}

/// Leaves, and the nodes that were taken from among them for what they read.
#[derive(Drop)]
struct Cone {
    leaves: ArrayVec<u32, LEAVES>,
    inner: ArrayVec<u32, INNER>,
}

impl Cone {
    fn is_new(&self, node: u32) -> bool {
        !has(self.leaves.as_slice(), node) && !has(self.inner.as_slice(), node)
    }

    /// How many leaves there are once one is taken for what it reads.
    fn leaves_without(&self, net: &Net, leaf: u32) -> Option<usize> {
        let gate = net.gate(leaf)?;
        let mut count = self.leaves.len().saturating_sub(1);
        for node in gate.leaves.as_slice() {
            if self.is_new(*node) {
                count = count.saturating_add(1);
            }
        }
        Some(count)
    }

    /// The leaf without which there are fewest, of these the first or the last number.
    fn next_leaf(&self, net: &Net, opens_first: bool) -> Option<u32> {
        let mut best = None;
        let mut least = LEAVES.saturating_add(1);
        for leaf in self.leaves.iter() {
            let Some(count) = self.leaves_without(net, *leaf) else {
                continue;
            };
            let is_better = match best {
                Some(other) => { count < least || count == least && (*leaf < other) == opens_first }
                None => count < least,
            };
            if is_better {
                least = count;
                best = Some(*leaf);
            }
        }
        best
    }

    /// Takes a leaf for what it reads.
    fn open(&mut self, net: &Net, leaf: u32) {
        self.leaves.retain(|other| *other != leaf);
        if !self.inner.is_full() {
            self.inner.push(leaf);
        }
        for node in net.leaves(leaf).as_slice() {
            if self.is_new(*node) && !self.leaves.is_full() {
                self.leaves.push(*node);
            }
        }
    }
}

/// Leaves of a node, as far down as there are not too many.
fn cone_of(net: &Net, node: u32, opens_first: bool) -> Cone {
    let mut cone = Cone {
        leaves: copied(net.leaves(node).as_slice()),
        inner: ArrayVec::new(),
    };
    for _ in 0..INNER {
        let Some(leaf) = cone.next_leaf(net, opens_first) else {
            break;
        };
        cone.open(net, leaf);
    }
    cone.inner.as_mut_slice().sort_unstable();
    cone
}

impl Window {
    /// The word of a node's gate, where it reads nodes of the window alone.
    fn gate_word(&self, cells: &[CellWord], net: &Net, places: &[u32], node: u32) -> Option<u64> {
        let gate = net.gate(node)?;
        let cell = cells.get(gate.cell)?;
        let mut words: ArrayVec<u64, 6> = ArrayVec::new();
        for leaf in gate.leaves.as_slice() {
            let place = (number_at(places, *leaf) as usize).checked_sub(1)?;
            let word = self.words.as_slice().get(place)?;
            if !words.is_full() {
                words.push(*word);
            }
        }
        Some(word_of(cell, words.as_slice()))
    }

    fn push(&mut self, places: &mut [u32], node: u32, word: u64) {
        if self.nodes.is_full() || self.words.is_full() {
            return;
        }
        self.nodes.push(node);
        self.words.push(word);
        if let Ok(count) = u32::try_from(self.nodes.len()) {
            put_number(places, node, count);
        }
    }

    /// Whether a node has the word, and is read or this one isn't.
    fn is_known(&self, net: &Net, node: u32, word: u64) -> bool {
        let is_read = net.is_read(node);
        self.words.iter().zip(self.nodes.iter()).any(|(other, known)| *other == word
            && (!is_read || net.is_read(*known)))
    }

    /// Adds a node that reads one of the window, where it reads no other and its function is new.
    fn add_side(&mut self, cells: &[CellWord], net: &Net, places: &mut [u32], node: u32) {
        if node >= self.node || number_at(places, node) > 0 {
            return;
        }
        if let Some(word) = self.gate_word(cells, net, places, node) {
            if !self.is_known(net, node, word) {
                self.push(places, node, word);
            }
        }
    }

    /// Adds what reads the nodes of the window, and what reads that, as long as there is room.
    fn add_sides(&mut self, cells: &[CellWord], net: &Net, places: &mut [u32]) {
        for place in 0..NODES {
            let Some(node) = self.nodes.as_slice().get(place) else {
                break;
            };
            let mut next = net.readers.first_pin(*node);
            for _ in 0..SIDES {
                let Some(pin) = next else {
                    break;
                };
                self.add_side(cells, net, places, Readers::node_of(pin));
                next = net.readers.next_pin(pin);
            }
        }
    }

    /// The nodes at these places.
    pub(crate) fn nodes_at(&self, places: &[usize]) -> ArrayVec<u32, 4> {
        let mut nodes = ArrayVec::new();
        for place in places {
            if let Some(node) = self.nodes.as_slice().get(*place) {
                if !nodes.is_full() {
                    nodes.push(*node);
                }
            }
        }
        nodes
    }

    /// The window of a node. The places are for its own use, where each node stands in the window, counted from 1: they are all 0, and
    /// left so.
    pub(crate) fn of(
        cells: &[CellWord],
        net: &Net,
        places: &mut [u32],
        node: u32,
        opens_first: bool,
    ) -> Window {
        let cone = cone_of(net, node, opens_first);
        let mut window = Window {
            node,
            leaves: copied(cone.leaves.as_slice()),
            nodes: ArrayVec::new(),
            words: ArrayVec::new(),
            own: 0,
        };
        for (k, leaf) in cone.leaves.iter().enumerate() {
            if k < LEAVES {
                let word: Truth<LEAVES> = Truth::var(k);
                window.push(places, *leaf, word.word);
            }
        }
        for inner in cone.inner.iter() {
            if let Some(word) = window.gate_word(cells, net, places, *inner) {
                window.push(places, *inner, word);
            }
        }
        if let Some(word) = window.gate_word(cells, net, places, node) {
            window.own = word;
        }
        window.add_sides(cells, net, places);
        for known in window.nodes.iter() {
            put_number(places, *known, 0);
        }
        window
    }
}
