// Who reads each node: for each a list of pins, linked in both directions.

use crate::lists::{number_at, put_number};
use std::alloc::{AllocError, Global};

/// How many pins a gate has at most.
const PINS: u32 = 6;

/// The end of a list.
const END: u32 = u32::MAX;

/// The first pin that reads each node, and the pins before and behind each in its list. Pin `k` of the gate of a node has the number
/// 6 times the node's and k.
#[derive(Drop)]
pub(crate) struct Readers {
    first: Vec<u32>,
    next: Vec<u32>,
    before: Vec<u32>,
}

impl Readers {
    pub(crate) fn new(alloc: Global, nodes: usize) -> Result<Readers, AllocError> {
        let pins = nodes.saturating_mul(PINS as usize);
        let first = vec![in alloc; END; nodes]?;
        let next = vec![in alloc; END; pins]?;
        let before = vec![in alloc; END; pins]?;
        Ok(Readers {
            first,
            next,
            before,
        })
    }

    fn link(&mut self, pin: u32, node: u32) {
        let second = number_at(&self.first, node);
        put_number(&mut self.next, pin, second);
        put_number(&mut self.before, pin, END);
        put_number(&mut self.before, second, pin);
        put_number(&mut self.first, node, pin);
    }

    fn unlink(&mut self, pin: u32, node: u32) {
        let next = number_at(&self.next, pin);
        let before = number_at(&self.before, pin);
        put_number(&mut self.before, next, before);
        if before == END {
            put_number(&mut self.first, node, next);
        } else {
            put_number(&mut self.next, before, next);
        }
    }

    /// The gate of a node reads these.
    pub(crate) fn add(&mut self, node: u32, leaves: &[u32]) {
        let mut pin = node.wrapping_mul(PINS);
        for leaf in leaves {
            self.link(pin, *leaf);
            pin = pin.wrapping_add(1);
        }
    }

    /// The gate of a node, which read these, reads them no more.
    pub(crate) fn remove(&mut self, node: u32, leaves: &[u32]) {
        let mut pin = node.wrapping_mul(PINS);
        for leaf in leaves {
            self.unlink(pin, *leaf);
            pin = pin.wrapping_add(1);
        }
    }

    /// The first pin that reads a node, if there is one.
    pub(crate) fn first_pin(&self, node: u32) -> Option<u32> {
        let pin = number_at(&self.first, node);
        if pin == END { None } else { Some(pin) }
    }

    /// The pin behind one in its list.
    pub(crate) fn next_pin(&self, pin: u32) -> Option<u32> {
        let next = number_at(&self.next, pin);
        if next == END { None } else { Some(next) }
    }

    /// The node whose gate has this pin.
    pub(crate) fn node_of(pin: u32) -> u32 {
        pin / PINS
    }
}
