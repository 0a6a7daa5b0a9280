// The trees of nets, as the log and the links tell them.
ghost use Rattle.std.specs.Prelude.{◌≡◌, ◌≢◌, ℕ, ◌<◌, ◌≤◌, [], ◌∷◌, List, None, IfOk, OnOk, length, map, slice_index};
ghost use Rattle.std.specs.Option.{option_map};
ghost use Rattle.grid_core.specs.Numbers.{nodes, node_of};
ghost use Rattle.grid_core.specs.Routes.{grown};
ghost use Rattle.grid_core.specs.Shown.{shown_tree, shown_routes, tree_in};
ghost use Rattle.nero_maze.specs.Search.{IsRoom};
ghost use Rattle.nero_maze.specs.Claims.{Told};
ghost use Rattle.nero_maze.specs.Routing.{routes_of, latest_path};
ghost use Rattle.nero_maze.specs.Board.{follow, moves_of, IsSound};

use crate::board::{Board, ROOT, TOUCHED};
use crate::frontier::Room;
use crate::way::step;
use grid_core::{NetTree, Node, node_at};
use std::alloc::{AllocError, Global};

/// The least link of a node that is next to the tree which its path joined: this and the way there. A smaller one, of another node of
/// a path, is one more than the way to the next.
const LAST: u8 = 5;

/// The nodes of a path, from the node at which it ended back to the one at which it joined its tree.
fn path_from(room: &Room, alloc: Global, end: u32) -> Result<Vec<Node>, AllocError>
    requires room { IsRoom room.now }
    requires end { end < nodes room.now.grid }
    requires told { (rest : List ℕ) × Told room.now.grid room.now.links.items end rest × (length rest ≤ nodes room.now.grid) }
    ensures { IfOk result (λ path. path.items
        ≡ map (node_of room.now.grid) (end ∷ follow room.now.grid room.now.links.items (nodes room.now.grid) end)) }
{
    let mut path = Vec::new(alloc);
    path.push(node_at(&room.grid, end))?;
    let mut node = end;
    while room.links[node as usize] < LAST {
        let Some(on) = step(&room.grid, node, room.links[node as usize] - 1) else {
            return Ok(path);
        };
        path.push(node_at(&room.grid, on))?;
        node = on;
    }
    if let Some(last) = step(&room.grid, node, room.links[node as usize] - LAST) {
        path.push(node_at(&room.grid, last))?;
    }
    Ok(path)
}

/// A path of one node.
fn path_of_one(alloc: Global, node: Node) -> Result<Vec<Node>, AllocError>
    ensures { IfOk result (λ path. path.items ≡ node ∷ []) }
{
    let mut path = Vec::new(alloc);
    path.push(node)?;
    Ok(path)
}

/// No tree for each of so many nets.
fn no_trees(alloc: Global, nets: usize) -> Result<Vec<Option<NetTree>>, AllocError>
    ensures size { IfOk result (λ trees. length trees.items ≡ nets) }
    ensures none { IfOk result (λ trees. (k : ℕ) → tree_in (shown_routes trees.items) k ≡ None) }
{
    let mut trees = Vec::with_capacity(alloc, nets)?;
    for _ in 0..nets {
        trees.push(None)?;
    }
    Ok(trees)
}

/// A tree that has begun gets a path.
fn grow(tree: &mut Option<NetTree>, path: Vec<Node>) -> Result<(), AllocError>
    ensures { OnOk result (option_map shown_tree tree.new ≡ grown path.items (option_map shown_tree tree.old)) }
{
    if let Some(begun) = tree {
        begun.paths.push(path)?;
    }
    Ok(())
}

/// The trees of so many nets, in the order in which the log tells how they grew. Takes memory for what is told.
pub(crate) fn trees_of(
    board: &Board,
    alloc: Global,
    nets: usize,
) -> Result<Vec<Option<NetTree>>, AllocError>
    requires sound { IsSound board.now }
    requires nets { (k : ℕ) → nets ≤ k → routes_of (moves_of board.now) k ≡ None }
    ensures size { IfOk result (λ trees. length trees.items ≡ nets) }
    ensures same { IfOk result (λ trees. (k : ℕ) → tree_in (shown_routes trees.items) k ≡ routes_of (moves_of board.now) k) }
{
    let mut trees = no_trees(alloc, nets)?;
    for i in 0..board.log.count {
        let at = board.log.order[i];
        let net = board.room.owners[at as usize] as usize;
        let node = node_at(&board.room.grid, at);
        if board.log.marks[at as usize] == TOUCHED {
            grow(&mut trees[net], path_of_one(alloc, node)?)?;
        } else if board.room.links[at as usize] == ROOT {
            trees[net] = Some(NetTree {
                start: node,
                paths: Vec::new(alloc),
            });
        } else {
            grow(&mut trees[net], path_from(&board.room, alloc, at)?)?;
        }
    }
    Ok(trees)
}

/// The path of the latest move that the log tells, from its end back to the node at which it joined its tree. Takes memory for its nodes.
pub(crate) fn latest_told(board: &Board, alloc: Global) -> Result<Vec<Node>, AllocError>
    requires sound { IsSound board.now }
    ensures { IfOk result (λ path. path.items ≡ latest_path (moves_of board.now)) }
{
    if board.log.count == 0 {
        return Ok(Vec::new(alloc));
    }
    let at = board.log.order[board.log.count - 1];
    let node = node_at(&board.room.grid, at);
    if board.log.marks[at as usize] == TOUCHED {
        return path_of_one(alloc, node);
    }
    if board.room.links[at as usize] == ROOT {
        return path_of_one(alloc, node);
    }
    path_from(&board.room, alloc, at)
}
