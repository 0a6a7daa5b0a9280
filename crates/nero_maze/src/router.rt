// The router.
ghost use Rattle.std.specs.Prelude.{◌≡◌, ◌≢◌, ◌<◌, ◌∷◌, [], List, None, IfOk, IfErr, IfNone, IfSome};
ghost use Rattle.grid_core.specs.declared.grid.Node.{Node as AnyNode};
ghost use Rattle.grid_core.specs.Grid.{IsInGrid, IsPath};
ghost use Rattle.grid_core.specs.Owners.{IsFree};
ghost use Rattle.grid_core.specs.Routes.{tree_nodes};
ghost use Rattle.nero_maze.specs.Routing.{latest_path, tree_of, IsPoint, IsBare, Begins, Connects, TakesOut, Blocks, NoneFrom, AreTrees};

use crate::board::{Board, block, flags_of, join, keep_off, root, tear};
use crate::frontier::{Frontier, Room, unmarked, zeros};
use crate::history::{latest_told, trees_of};
use crate::hull::hulls_of_owners;
use crate::penalties::Ties;
use grid_core::{Node, Occupied, Routes, number_of};
use std::alloc::{AllocError, Global};
use std::marker::Model;

/// No path of free nodes leads from the net's tree to the target.
#[derive(Clone, Copy, Drop)]
pub struct NoPath;

/// Trees of nets that grow over the free nodes of a grid, each by least paths.
#[derive(Drop)]
pub struct Router {
    board: Board,
}

impl Model for Router {
    ghost use Rattle.nero_maze.specs.Routing.{Routing};

    ghost Value = { Routing };

    ghost use Rattle.nero_maze.specs.Board.{routing_of, IsSound};

    ghost view = { λ r. routing_of r.board };

    ghost invariant = { λ r. IsSound r.board };
}

impl Router {
    /// No net has a tree. Takes twelve bytes a node beside the table of owners, and all that later calls need.
    pub fn begin(alloc: Global, occupied: Occupied) -> Result<Self, AllocError>
        ensures { IfOk result (λ r. IsBare occupied r) }
    {
        Self::begin_with(alloc, occupied, Vec::new(alloc))
    }

    /// As `begin`, with a penalty for each node by its number: among least paths one is preferred whose nodes have a small sum of them.
    /// A node past their end has none. Takes two bytes more for each.
    pub fn begin_with(
        alloc: Global,
        occupied: Occupied,
        penalties: Vec<u8>,
    ) -> Result<Self, AllocError>
        ensures { IfOk result (λ r. IsBare occupied r) }
    {
        let grid = occupied.grid();
        let owners = occupied.into_words();
        let reserved = flags_of(alloc, &owners)?;
        let hulls = hulls_of_owners(alloc, &owners)?;
        let count = owners.len();
        let links = zeros(alloc, count)?;
        let reached = unmarked(alloc, count)?;
        let log = unmarked(alloc, count)?;
        let ties = Ties::new(alloc, penalties)?;
        let room = Room {
            grid,
            owners,
            links,
        };
        Ok(Router {
            board: Board {
                room,
                reserved,
                frontier: Frontier {
                    order: reached.order,
                    marks: reached.marks,
                    count: reached.count,
                    ties,
                },
                log,
                hulls,
            },
        })
    }

    /// Begins the net's tree at a node that is free for it. Takes no memory.
    pub fn seat(&mut self, net: u32, node: Node)
        requires net { net < 4294967295 }
        requires bare { tree_of self.old net ≡ None }
        requires free { IsFree self.old.occupied net node }
        ensures { Begins net node self.old self.new }
    {
        let at = number_of(&self.board.room.grid, node);
        root(&mut self.board, net, at);
    }

    /// Connects the target with the net's tree by a least path over nodes that are free for the net, and gives its cost. Refused
    /// exactly where there is no path, and then nothing changes. Takes no memory.
    pub fn connect(&mut self, net: u32, target: Node) -> Result<u64, NoPath>
        requires begun { tree_of self.old net ≢ None }
        requires within { IsInGrid self.old.occupied.grid target }
        requires new { IsPoint (tree_of self.old net) target → ⊥ }
        ensures path { IfOk result (λ c. (path : List AnyNode) × Connects net target c self.old self.new path) }
        ensures none { IfErr result (λ _. (path : List AnyNode)
            → IsPath (IsFree self.old.occupied net) (tree_nodes (tree_of self.old net)) target path → ⊥) }
        ensures same { IfErr result (λ _. self.new ≡ self.old) }
    {
        let at = number_of(&self.board.room.grid, target);
        match join(&mut self.board, net, at) {
            Some(cost) => Ok(cost),
            None => Err(NoPath),
        }
    }

    /// Later paths keep off the nodes that the net's tree has now, where others cost no more and the nodes have penalties. Takes no memory,
    /// and goes over the least box that holds the tree.
    pub fn avoid(&mut self, net: u32)
        ensures { self.new ≡ self.old }
    {
        keep_off(&mut self.board, net);
    }

    /// Takes the paths of a net out: its tree is its first point again, and every other tree stays. Their nodes are owned by whom they are
    /// reserved for, as when the router began. Takes no memory, and goes over these paths and once over the points of all trees.
    pub fn take_out(&mut self, net: u32)
        requires begun { tree_of self.old net ≢ None }
        ensures { TakesOut net self.old self.new }
    {
        tear(&mut self.board, net);
    }

    /// A net that blocks the way to a target to which no path of free nodes leads from the net's tree: where nodes of other nets' trees
    /// count as free and nodes that are reserved for other nets don't, a least path leads there, and the tree of the net that is given has
    /// the first node on it, counted from the net's tree, that isn't free. None exactly where there is no such path. Nothing changes.
    /// Takes no memory.
    pub fn blocker(&mut self, net: u32, target: Node) -> Option<u32>
        requires begun { tree_of self.old net ≢ None }
        requires within { IsInGrid self.old.occupied.grid target }
        requires stuck { (path : List AnyNode) → IsPath (IsFree self.old.occupied net) (tree_nodes (tree_of self.old net)) target path → ⊥ }
        ensures blocks { IfSome result (λ b. Blocks self.old net target b) }
        ensures none { IfNone result ((path : List AnyNode)
            → IsPath (IsFree self.old.reserved net) (tree_nodes (tree_of self.old net)) target path → ⊥) }
        ensures same { self.new ≡ self.old }
    {
        let at = number_of(&self.board.room.grid, target);
        block(&mut self.board, net, at)
    }

    /// The path of the latest move, from its target back to the node at which it joined its tree; where a tree began, its first point
    /// alone. Empty where no tree has begun. Takes memory for the path, and goes over its nodes alone.
    pub fn last_path(&self, alloc: Global) -> Result<Vec<Node>, AllocError>
        ensures { IfOk result (λ path. path.items ≡ latest_path self.now.moves) }
    {
        latest_told(&self.board, alloc)
    }

    /// The trees of all nets, of which there are so many, by their numbers. Takes memory for the trees, and goes over their nodes alone.
    pub fn routes(&self, alloc: Global, nets: usize) -> Result<Routes, AllocError>
        requires nets { NoneFrom nets self.now }
        ensures { IfOk result (λ r. AreTrees nets self.now r) }
    {
        Ok(Routes::new(trees_of(&self.board, alloc, nets)?))
    }
}
