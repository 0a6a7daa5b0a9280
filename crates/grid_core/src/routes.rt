// The routes of nets in memory.
ghost use Rattle.std.specs.Prelude.{◌≡◌, length};
ghost use Rattle.std.specs.Option.{option_copied, option_map};
ghost use Rattle.grid_core.specs.Shown.{shown_tree, shown_routes, tree_in};

use crate::grid::Node;
use std::marker::Model;

/// The tree of a net: its first point, and for each later point the path that connected it, from that point back to the tree.
#[derive(Debug, Drop)]
pub struct NetTree {
    pub start: Node,
    pub paths: Vec<Vec<Node>>,
}

/// The trees of nets by their numbers: none where no tree has begun.
#[derive(Debug, Drop)]
pub struct Routes {
    trees: Vec<Option<NetTree>>,
}

impl Model for Routes {
    ghost use Rattle.std.specs.Prelude.{List, Option};
    ghost use Rattle.grid_core.specs.Routes.{Tree};

    ghost Value = { List (Option Tree) };

    ghost use Rattle.grid_core.specs.Shown.{shown_routes};

    ghost view = { λ r. shown_routes r.trees.items };
}

impl Routes {
    /// These trees, by the numbers of nets. Takes no memory.
    pub fn new(trees: Vec<Option<NetTree>>) -> Self
        ensures trees { result ≡ shown_routes trees.items }
    {
        Routes { trees }
    }

    /// How many nets there are.
    pub fn len(&self) -> usize
        ensures { result ≡ length self.now }
    {
        self.trees.len()
    }

    /// The tree of a net; none where it hasn't begun, or where there is no such net.
    pub fn tree(&self, net: usize) -> Option<&NetTree>
        ensures { option_map shown_tree (option_copied result) ≡ tree_in self.now net }
    {
        match self.trees.get(net) {
            Some(Some(tree)) => Some(tree),
            _ => None,
        }
    }
}
