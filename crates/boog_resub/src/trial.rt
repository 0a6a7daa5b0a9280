// What a step would gain: counts are changed on trial, and changed back.

use crate::lists::{number_at, put_number};
use crate::net::{Columns, Net, columns_of};
use std::alloc::{AllocError, Global};

/// A count that became greater or less by one.
#[derive(Clone, Copy)]
struct Touched {
    node: u32,
    is_more: bool,
}

/// The columns that a trial has added so far, and the counts that it touched.
#[derive(Drop)]
pub(crate) struct Trial {
    pub(crate) columns: Columns,
    touched: Vec<Touched>,
    waiting: Vec<u32>,
}

impl Trial {
    pub(crate) fn new(alloc: Global) -> Trial {
        Trial {
            columns: 0,
            touched: Vec::new(alloc),
            waiting: Vec::new(alloc),
        }
    }

    /// Begins another trial, and keeps what the last one changed.
    pub(crate) fn begin(&mut self) {
        self.columns = 0;
        self.touched.clear();
    }

    /// Puts a gate of a node on or off the count: its columns, and what it reads.
    fn turn(
        &mut self,
        net: &Net,
        areas: &[u32],
        node: u32,
        is_more: bool,
    ) -> Result<(), AllocError> {
        let Some(gate) = net.gate(node) else {
            return Ok(());
        };
        let area = columns_of(areas, gate.cell);
        self.columns = if is_more {
            self.columns.saturating_add(area)
        } else {
            self.columns.saturating_sub(area)
        };
        self.waiting.extend_from_slice(gate.leaves.as_slice())
    }

    /// One reader more or less of a node; a gate that is read no more isn't needed, and one that is read again is.
    pub(crate) fn read(
        &mut self,
        net: &mut Net,
        areas: &[u32],
        node: u32,
        is_more: bool,
    ) -> Result<(), AllocError> {
        self.waiting.clear();
        self.waiting.push(node)?;
        for _ in 0..net.gates.len().saturating_mul(8) {
            let Some(node) = self.waiting.pop() else {
                break;
            };
            let count = number_at(&net.counts, node);
            let next = if is_more {
                count.wrapping_add(1)
            } else {
                count.wrapping_sub(1)
            };
            put_number(&mut net.counts, node, next);
            self.touched.push(Touched { node, is_more })?;
            if count.min(next) == 0 {
                self.turn(net, areas, node, is_more)?;
            }
        }
        Ok(())
    }

    /// One reader more or less of each of these nodes.
    pub(crate) fn read_all(
        &mut self,
        net: &mut Net,
        areas: &[u32],
        nodes: &[u32],
        is_more: bool,
    ) -> Result<(), AllocError> {
        for node in nodes {
            self.read(net, areas, *node, is_more)?;
        }
        Ok(())
    }

    /// Puts the counts back as they were when the trial began.
    pub(crate) fn undo(&mut self, net: &mut Net) {
        for touched in &self.touched {
            let count = number_at(&net.counts, touched.node);
            let old = if touched.is_more {
                count.wrapping_sub(1)
            } else {
                count.wrapping_add(1)
            };
            put_number(&mut net.counts, touched.node, old);
        }
        self.touched.clear();
    }
}
