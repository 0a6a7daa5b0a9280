// Nodes and their numbers.
ghost use Rattle.std.specs.Prelude.{◌≡◌, ◌<◌};
ghost use Rattle.grid_core.specs.Grid.{IsInGrid};
ghost use Rattle.grid_core.specs.Numbers.{nodes, number, node_of};

/// A grid: its highest metal, and how many columns and rows of nodes each metal from 2 to that one has.
#[derive(Clone, Copy, Drop)]
pub struct Grid {
    pub metals: u8,
    pub columns: u32,
    pub rows: u32,
}

/// A node of a grid. Columns and rows are counted from 0.
#[derive(Clone, Copy, Debug, Drop)]
pub struct Node {
    pub metal: u8,
    pub column: u32,
    pub row: u32,
}

/// The number of a node: metal by metal, row by row.
pub fn number_of(grid: &Grid, node: Node) -> u32
    requires few { nodes grid.now < 4294967295 }
    requires within { IsInGrid grid.now node }
    ensures number { result ≡ number grid.now node }
    ensures below { result < nodes grid.now }
{
    let layer = u32::from(node.metal) - 2;
    layer * (grid.columns * grid.rows) + (node.row * grid.columns + node.column)
}

/// The node with a number.
pub fn node_at(grid: &Grid, at: u32) -> Node
    requires few { nodes grid.now < 4294967295 }
    requires below { at < nodes grid.now }
    ensures node { result ≡ node_of grid.now at }
    ensures within { IsInGrid grid.now result }
    ensures number { number grid.now result ≡ at }
{
    let plane = grid.columns * grid.rows;
    let place = at % plane;
    Node {
        metal: (at / plane + 2) as u8,
        column: place % grid.columns,
        row: place / grid.columns,
    }
}
