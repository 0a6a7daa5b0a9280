// Steps and vias along the paths of a tree.
ghost use Rattle.std.specs.Prelude.{◌≡◌, ◌++◌, IsTrue, IfOk, OnOk, flat_map};
ghost use Rattle.std.specs.List.{All};
ghost use Rattle.maze_drawing.specs.Merge.{is_same_node};
ghost use Rattle.maze_wires.specs.Links.{next_of, IsShort, linked, links};

use crate::order::{is_above, is_ahead};
use grid_core::{NetTree, Node};
use std::alloc::{AllocError, Global};

/// What leads from a node to its neighbour.
#[derive(Clone, Copy)]
pub(crate) enum Next {
    /// A step, to the node ahead.
    Ahead,
    /// A via, to the node above.
    Above,
}

/// Whether it leads from one node to the other.
fn leads(next: Next, from: &Node, to: &Node) -> bool
    ensures value { result ≡ is_same_node to.now (next_of next from.now) }
    ensures short { IsTrue result → IsShort next from.now }
{
    match next {
        Next::Ahead => is_ahead(from, 1, to),
        Next::Above => is_above(from, to),
    }
}

/// Adds the first node, where it leads to the second.
fn add_link(found: &mut Vec<Node>, next: Next, from: &Node, to: &Node) -> Result<(), AllocError>
    requires { All (IsShort next) found.old.items }
    ensures is { OnOk result (found.new.items ≡ found.old.items ++ linked next from.now to.now) }
    ensures short { OnOk result (All (IsShort next) found.new.items) }
{
    if !leads(next, from, to) {
        return Ok(());
    }
    found.push(*from)?;
    Ok(())
}

/// Adds the nodes of a path from which a step, or a via, leads to a neighbour.
fn add_path(found: &mut Vec<Node>, next: Next, path: &[Node]) -> Result<(), AllocError>
    requires { All (IsShort next) found.old.items }
    ensures is { OnOk result (found.new.items ≡ found.old.items ++ links next path.now) }
    ensures short { OnOk result (All (IsShort next) found.new.items) }
{
    let Some((first, rest)) = path.split_first() else {
        return Ok(());
    };
    let mut last = *first;
    for node in rest {
        add_link(found, next, &last, node)?;
        add_link(found, next, node, &last)?;
        last = *node;
    }
    Ok(())
}

/// The lesser ends of a tree's steps, or the lower nodes of its vias, path by path. Takes memory for them.
pub(crate) fn links_of(alloc: Global, tree: &NetTree, next: Next) -> Result<Vec<Node>, AllocError>
    ensures is { IfOk result (λ found. found.items ≡ flat_map (λ path. links next path.items) tree.now.paths.items) }
    ensures short { IfOk result (λ found. All (IsShort next) found.items) }
{
    let mut found = Vec::new(alloc);
    for path in &tree.paths {
        add_path(&mut found, next, path)?;
    }
    Ok(found)
}
