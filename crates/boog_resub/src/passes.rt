// Passes over the gates, up and down, until nothing is gained.

use crate::lists::copied;
use crate::work::Work;
use arrayvec::ArrayVec;
use cell_match::{CellWord, Gate};
use std::alloc::{AllocError, Global};

/// How many passes there are at most, and how many in a row that gain nothing.
const PASSES: u32 = 12;

const IDLE: u32 = 3;

/// A node's other gate, and leaves over which both have one function.
#[derive(Drop)]
pub struct Step {
    pub node: u32,
    pub gate: Gate,
    pub leaves: ArrayVec<u32, 6>,
}

/// Puts another gate in place of a node's where that gains most columns, or none and is no later, with the window that the pass takes.
fn improve(
    work: &mut Work,
    steps: &mut Vec<Step>,
    cells: &[CellWord],
    areas: &[u32],
    node: u32,
    pass: u32,
) -> Result<(), AllocError> {
    let window = work.window(cells, node, pass % 4 < 2);
    let Some(gate) = work.best(areas, &window)? else {
        return Ok(());
    };
    work.change(areas, node, &gate)?;
    let leaves = copied(window.leaves.as_slice());
    steps.push(Step { node, gate, leaves })?;
    Ok(())
}

/// Steps that make a cover narrower, each over the cover that the ones before it made. The cover has a gate for each node that is marked,
/// of which those count that roots need; `areas` has the columns of each cell. Takes memory for each node, and time for each node and pass.
pub fn steps(
    alloc: Global,
    cells: &[CellWord],
    areas: &[u32],
    gates: &[Option<Gate>],
    marks: &[bool],
    roots: &[u32],
) -> Result<Vec<Step>, AllocError> {
    let mut work = Work::new(alloc, cells, areas, gates, marks, roots)?;
    let mut steps = Vec::new(alloc);
    let nodes = work.net.nodes();
    let mut idle: u32 = 0;
    for pass in 0..PASSES {
        let before = work.gained;
        let is_up = pass % 2 == 0;
        if !is_up {
            work.timing.forget_rests();
        }
        for count in 0..nodes {
            let node = if is_up {
                count
            } else {
                nodes.wrapping_sub(count).wrapping_sub(1)
            };
            if work.net.is_read(node) && work.net.gate(node).is_some() {
                improve(&mut work, &mut steps, cells, areas, node, pass)?;
            }
            if is_up {
                work.timing.note_arrival(&work.net, node);
            } else {
                work.timing.note_rests(&work.net, node);
            }
        }
        idle = if work.gained > before {
            0
        } else {
            idle.saturating_add(1)
        };
        if idle >= IDLE {
            break;
        }
    }
    Ok(steps)
}
