// A table of the owners of nodes.
ghost use Rattle.std.specs.Prelude.{◌≡◌, ◌<◌, ◌∷◌, [], IfOk, length};
ghost use Rattle.grid_core.specs.Grid.{IsInGrid};
ghost use Rattle.grid_core.specs.Numbers.{nodes, number};
ghost use Rattle.grid_core.specs.Owners.{owner_of, IsBegun, IsTaken};

use crate::grid::{Grid, Node, number_of};
use std::alloc::{AllocError, Global};
use std::marker::Model;

/// The word of a node that has no owner.
pub const NOBODY: u32 = 4294967295;

/// An owner for each node of a grid, or none. Four bytes a node.
#[derive(Drop)]
pub struct Occupied {
    grid: Grid,
    words: Vec<u32>,
}

impl Model for Occupied {
    ghost use Rattle.std.specs.Prelude.{◌≡◌, ◌<◌, length};
    ghost use Rattle.grid_core.specs.Numbers.{nodes};
    ghost use Rattle.grid_core.specs.Owners.{Owners};

    ghost Value = { Owners };

    ghost view = { λ o. record { grid = o.grid; words = o.words.items } };

    ghost invariant = { λ o. (length o.words.items ≡ nodes o.grid) × (nodes o.grid < 4294967295) };
}

/// How many nodes a grid has.
fn count_nodes(grid: &Grid) -> usize
    requires few { nodes grid.now < 4294967295 }
    ensures { result ≡ nodes grid.now }
{
    let plane = u64::from(grid.columns) * u64::from(grid.rows);
    let layers = u64::from(grid.metals.saturating_sub(1));
    (plane * layers) as usize
}

impl Occupied {
    /// No node has an owner. Takes memory for a word a node.
    pub fn begin(alloc: Global, grid: Grid) -> Result<Self, AllocError>
        requires few { nodes grid < 4294967295 }
        ensures { IfOk result (λ o. IsBegun grid o) }
    {
        let count = count_nodes(&grid);
        let words = vec![in alloc; NOBODY; count]?;
        Ok(Occupied { grid, words })
    }

    /// The grid.
    pub fn grid(&self) -> Grid
        ensures grid { result ≡ self.now.grid }
        ensures few { nodes self.now.grid < 4294967295 }
        ensures size { length self.now.words ≡ nodes self.now.grid }
    {
        self.grid
    }

    /// The node gets this owner. Takes no memory.
    pub fn block(&mut self, node: Node, owner: u32)
        requires within { IsInGrid self.old.grid node }
        requires owner { owner < 4294967295 }
        ensures { IsTaken self.old owner (node ∷ []) self.new }
    {
        let at = number_of(&self.grid, node);
        self.words[at as usize] = owner;
    }

    /// The owner of a node: that of its last `block`, or none. Takes no memory.
    pub fn owner(&self, node: Node) -> Option<u32>
        requires { IsInGrid self.now.grid node }
        ensures { result ≡ owner_of self.now node }
    {
        let word = self.words[number_of(&self.grid, node) as usize];
        if word == NOBODY { None } else { Some(word) }
    }

    /// The words of the nodes in the order of their numbers: the owner, or `NOBODY`.
    pub fn into_words(self) -> Vec<u32>
        ensures words { result.items ≡ self.words }
    {
        self.words
    }
}
