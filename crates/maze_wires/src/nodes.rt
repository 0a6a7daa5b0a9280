// The nodes of a tree, and the vias at terminals.
ghost use Rattle.std.specs.Prelude.{◌≡◌, ◌↔◌, ◌⊎◌, ◌∷◌, [], Some, AllPairs, IsTrue, IfOk, OnOk, flat_map};
ghost use Rattle.vlsi_base.specs.Member.{In};
ghost use Rattle.grid_core.specs.declared.grid.Node.{Node};
ghost use Rattle.grid_core.specs.Routes.{tree_nodes};
ghost use Rattle.grid_core.specs.Shown.{shown_tree};
ghost use Rattle.maze_drawing.specs.Wiring.{via_precedes};
ghost use Rattle.maze_wires.specs.Feet.{IsFoot};

use crate::order::{sort_vias, via_key};
use grid_core::{NetTree, Node};
use std::alloc::{AllocError, Global};

/// The nodes of a tree: the first one, then those of each path. Takes memory for them.
fn all_nodes(alloc: Global, tree: &NetTree) -> Result<Vec<Node>, AllocError>
    ensures { IfOk result (λ nodes. nodes.items ≡ tree.now.start ∷ flat_map (λ path. path.items) tree.now.paths.items) }
{
    let mut nodes = Vec::new(alloc);
    nodes.push(tree.start)?;
    for path in &tree.paths {
        nodes.extend_from_slice(path)?;
    }
    Ok(nodes)
}

/// The nodes of a tree, in the order of vias and each once. Takes memory for them.
pub(crate) fn nodes_of(alloc: Global, tree: &NetTree) -> Result<Vec<Node>, AllocError>
    ensures same { IfOk result (λ nodes. (p : Node) → In p nodes.items ↔ In p (tree_nodes (Some (shown_tree tree.now)))) }
    ensures ordered { IfOk result (λ nodes. AllPairs (λ a b. IsTrue (via_precedes a b)) nodes.items) }
{
    let mut nodes = all_nodes(alloc, tree)?;
    sort_vias(&mut nodes)?;
    Ok(nodes)
}

/// Whether the node is among those that stand in the order of vias.
fn has_node(nodes: &[Node], node: &Node) -> bool
    requires { AllPairs (λ a b. IsTrue (via_precedes a b)) nodes.now }
    ensures { IsTrue result ↔ In node.now nodes.now }
{
    let key = via_key(node);
    nodes
        .binary_search_by_key(&key, |other| via_key(other))
        .is_ok()
}

/// Adds the node below a terminal, if this is on metal 2 and among the nodes: there a via leads up from a pin.
fn add_foot(vias: &mut Vec<Node>, nodes: &[Node], terminal: &Node) -> Result<(), AllocError>
    requires { AllPairs (λ a b. IsTrue (via_precedes a b)) nodes.now }
    ensures { OnOk result ((v : Node) → In v vias.new.items ↔ (In v vias.old.items ⊎ IsFoot nodes.now (terminal.now ∷ []) v)) }
{
    if terminal.metal != 2 {
        return Ok(());
    }
    if !has_node(nodes, terminal) {
        return Ok(());
    }
    vias.push(Node {
        metal: 1,
        column: terminal.column,
        row: terminal.row,
    })?;
    Ok(())
}

/// Adds the nodes below those of the terminals that are among the nodes.
pub(crate) fn add_feet(
    vias: &mut Vec<Node>,
    nodes: &[Node],
    terminals: &[Node],
) -> Result<(), AllocError>
    requires { AllPairs (λ a b. IsTrue (via_precedes a b)) nodes.now }
    ensures { OnOk result ((v : Node) → In v vias.new.items ↔ (In v vias.old.items ⊎ IsFoot nodes.now terminals.now v)) }
{
    for terminal in terminals {
        add_foot(vias, nodes, terminal)?;
    }
    Ok(())
}
