// The wires and vias of a net.
ghost use Rattle.std.specs.Prelude.{◌↔◌, Some, AllPairs, IsTrue, IfOk, map};
ghost use Rattle.std.specs.Option.{option_copied, option_map};
ghost use Rattle.vlsi_base.specs.Member.{In};
ghost use Rattle.grid_core.specs.declared.grid.Node.{Node};
ghost use Rattle.grid_core.specs.Shown.{shown_tree};
ghost use Rattle.maze_drawing.specs.Wiring.{HasStep, HasVia, IsGreatestRun, IsOnWire, IsWiringOf, via_precedes};
ghost use Rattle.maze_wires.specs.declared.wires.Wire.{Wire};
ghost use Rattle.maze_wires.specs.Shown.{comes_before, shown_wire, shown_net};

use crate::links::{Next, links_of};
use crate::merging::merged;
use crate::nodes::{add_feet, nodes_of};
use crate::order::{sort_steps, sort_vias, sort_wires};
use grid_core::{NetTree, Node};
use std::alloc::{AllocError, Global};

/// A wire: its lesser end, and how many steps of the grid it is long.
#[derive(Clone, Copy, Drop)]
pub struct Wire {
    pub from: Node,
    pub steps: u32,
}

/// The wires of a net, by metal, column and row, and its vias by their lower nodes, by column, row and metal.
#[derive(Drop)]
pub struct NetWires {
    pub wires: Vec<Wire>,
    pub vias: Vec<Node>,
}

/// The wires of a tree.
fn wires_of(alloc: Global, tree: &NetTree) -> Result<Vec<Wire>, AllocError>
    ensures runs { IfOk result (λ wires. (w : Wire) → In w wires.items → IsGreatestRun (Some (shown_tree tree.now)) (shown_wire w)) }
    ensures whole { IfOk result (λ wires. (p : Node) → HasStep (Some (shown_tree tree.now)) p
        → (w : Wire) × In w wires.items × IsOnWire (shown_wire w) p) }
    ensures ordered { IfOk result (λ wires. AllPairs (λ a b. IsTrue (comes_before a b)) wires.items) }
{
    let mut steps = links_of(alloc, tree, Next::Ahead)?;
    sort_steps(&mut steps)?;
    let mut wires = merged(alloc, &steps)?;
    sort_wires(&mut wires)?;
    Ok(wires)
}

/// The vias of a tree, and those from these terminals up to its nodes.
fn vias_of(alloc: Global, tree: &NetTree, terminals: &[Node]) -> Result<Vec<Node>, AllocError>
    ensures vias { IfOk result (λ vias. (v : Node) → In v vias.items ↔ HasVia (Some (shown_tree tree.now)) terminals.now v) }
    ensures ordered { IfOk result (λ vias. AllPairs (λ a b. IsTrue (via_precedes a b)) vias.items) }
{
    let mut vias = links_of(alloc, tree, Next::Above)?;
    let nodes = nodes_of(alloc, tree)?;
    add_feet(&mut vias, &nodes, terminals)?;
    sort_vias(&mut vias)?;
    Ok(vias)
}

/// The wires and vias of a net that has this tree, where the terminals on metal 1 are reached at these nodes above them. Takes memory
/// for a few nodes for each node of the tree, and time for these, times the logarithm of their number.
pub fn net_wires(
    alloc: Global,
    tree: Option<&NetTree>,
    terminals: &[Node],
) -> Result<NetWires, AllocError>
    ensures { IfOk result (λ net. IsWiringOf (option_map shown_tree (option_copied tree.entry)) terminals.now (shown_net net)) }
{
    let Some(tree) = tree else {
        return Ok(NetWires {
            wires: Vec::new(alloc),
            vias: Vec::new(alloc),
        });
    };
    let wires = wires_of(alloc, tree)?;
    let vias = vias_of(alloc, tree, terminals)?;
    Ok(NetWires { wires, vias })
}
