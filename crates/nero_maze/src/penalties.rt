// Which of several least paths a search takes.
ghost use Rattle.std.specs.Prelude.{◌≡◌};

use crate::frontier::Room;
use crate::hull::{Extent, Hull};
use grid_core::Grid;
use std::alloc::{AllocError, Global};

/// What a node's penalty grows by when a tree is to be kept off.
const TREE_PENALTY: u8 = 8;

/// A penalty for each node, and the sums of penalties on the ways by which a search has reached nodes. They decide between ways of one
/// cost, and nothing else.
#[derive(Drop)]
pub(crate) struct Ties {
    penalties: Vec<u8>,
    sums: Vec<u16>,
}

impl Ties {
    /// With these penalties, by the numbers of nodes; a node past their end has none. Takes two bytes for each.
    pub(crate) fn new(alloc: Global, penalties: Vec<u8>) -> Result<Self, AllocError> {
        let sums = vec![in alloc; 0; penalties.len()]?;
        Ok(Ties { penalties, sums })
    }

    /// The sum on the way by which a node was reached.
    pub(crate) fn sum(&self, node: u32) -> u16 {
        match self.sums.get(node as usize) {
            Some(sum) => *sum,
            None => 0,
        }
    }

    /// The sum on the way by which a node was reached and on to a neighbour.
    pub(crate) fn sum_on(&self, from: u32, to: u32) -> u16 {
        let penalty = match self.penalties.get(to as usize) {
            Some(penalty) => u16::from(*penalty),
            None => 0,
        };
        self.sum(from).saturating_add(penalty)
    }

    /// A node was reached with this sum.
    pub(crate) fn set(&mut self, node: u32, sum: u16) {
        let at = node as usize;
        if at < self.sums.len() {
            self.sums[at] = sum;
        }
    }

    /// The nodes of the net's tree, which the hull holds, get greater penalties, up to 255, where nodes have penalties at all. It goes over
    /// the hull alone.
    pub(crate) fn add_tree(&mut self, room: &Room, hull: &Hull, net: u32) {
        for layer in hull.layers.least..=hull.layers.most {
            for row in hull.rows.least..=hull.rows.most {
                let start = start_of_row(&room.grid, layer, row);
                self.add_row(room, &hull.columns, net, start);
            }
        }
    }

    /// The same for the nodes of a row, the first of which has this number.
    fn add_row(&mut self, room: &Room, columns: &Extent, net: u32, start: usize) {
        for column in columns.least..=columns.most {
            let at = start.saturating_add(column as usize);
            if at < self.penalties.len() && is_in_tree(&room.owners, &room.links, net, at) {
                self.penalties[at] = self.penalties[at].saturating_add(TREE_PENALTY);
            }
        }
    }
}

/// The number of the first node of a row.
fn start_of_row(grid: &Grid, layer: u32, row: u32) -> usize {
    let rows = u64::from(layer).saturating_mul(u64::from(grid.rows));
    let above = rows.saturating_add(u64::from(row));
    above.saturating_mul(u64::from(grid.columns)) as usize
}

/// Whether a node is in the net's tree.
fn is_in_tree(owners: &[u32], links: &[u8], net: u32, at: usize) -> bool {
    match (owners.get(at), links.get(at)) {
        (Some(owner), Some(link)) => *owner == net && *link != 0,
        _ => false,
    }
}
