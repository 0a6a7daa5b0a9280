// The passes.

use crate::nets::{Net, needed_alone};
use crate::pass::passed;
use crate::sweep::swept;
use and_graph::{AndGraph, Signal};
use std::alloc::{AllocError, Global};

/// How many passes there are at most; each second one takes other gates where they need as much.
const PASSES: u32 = 4;

/// The most gates of a net that is made anew: a second is passed by about this many.
const MOST_GATES: usize = 1_000;

/// A net of the same roots that needs fewer gates and inverters, where it finds one. If it is to be swept, then nodes that seem to be
/// one function become one: with more than 12 inputs they may be another; `None` where no two seem to be one. `None` too where the roots
/// need more than `MOST_GATES` gates. Takes memory for the gates that are tried, and for a few cuts of each node, and time for both.
pub fn rewritten(
    alloc: Global,
    graph: &AndGraph,
    roots: &[Signal],
    is_swept: bool,
) -> Result<Option<Net>, AllocError> {
    let mut net = needed_alone(alloc, graph, roots)?;
    if net.graph.len() > MOST_GATES {
        return Ok(None);
    }
    if is_swept {
        let swept = swept(alloc, &net)?;
        if swept.graph.len() == net.graph.len() {
            return Ok(None);
        }
        net = swept;
    }
    let mut weight = net.weight(alloc)?;
    let mut idle = 0u32;
    for k in 0..PASSES {
        net = passed(alloc, &net, k % 2 == 1)?;
        let now = net.weight(alloc)?;
        idle = if now < weight {
            0
        } else {
            idle.saturating_add(1)
        };
        if idle > 1 {
            break;
        }
        weight = now;
    }
    Ok(Some(net))
}
