// Covers of trees by the cells of a library.
ghost use Rattle.std.specs.Prelude.{◌≡◌, ◌<◌, ◌+◌, ◌^◌, ℕ, length, IfOk, IfErr, OnOk};
ghost use Rattle.graph_theory.specs.Graph.{EachReadsEarlier};
ghost use Rattle.boog_tree.specs.Trees.{root_uses};
ghost use Rattle.boog_area.specs.Covers.{IsTreeCover};
ghost use Rattle.boog_area.specs.Refused.{CoversTrees, IsTreeRefusal};

use crate::error::TreeError;
use crate::kinds::missing_kind;
use boog_part::NeededPart;
use boog_tree::{LeastCover, least_area as least_by_cells};
use cell_checks::Library;
use gate_cells::{GateCells, gate_cells};
use std::alloc::{AllocError, Global};

/// A cover of each tree of a graph by usable cells of a library, of least area, with what shows that none has less.
#[derive(Drop)]
pub struct TreeCover {
    /// The gates of the library, by rising width: the cell of a pick is a number in these lists.
    pub cells: GateCells,
    /// The roots of the trees, a pick for each gate, and a bound in columns for each number.
    pub cover: LeastCover,
}

/// A cover of each tree by the cells of a library that has an inverter and a gate of two inputs. Takes memory for enough cuts within trees.
fn cover_trees(
    alloc: Global,
    held: u32,
    graph: &NeededPart,
    library: &Library,
) -> Result<TreeCover, AllocError>
    requires covered { CoversTrees library.now }
    requires numbers { held + length graph.now.nodes < 2 ^ 32 }
    requires earlier { EachReadsEarlier held graph.now.nodes }
    requires roots { (x : ℕ) → 0 < root_uses x graph.now → x < held + length graph.now.nodes }
    ensures { IfOk result (λ t. IsTreeCover library.now held graph.now t) }
{
    let cells = gate_cells(alloc, library)?;
    let cover = least_by_cells(alloc, &cells.words, &cells.areas, held, graph)?;
    Ok(TreeCover { cells, cover })
}

/// A cover of each tree of a graph by usable cells of a library, of least area: no cover of a tree has less than the bound of its root. The
/// first node of the graph has number `held`. It is refused by `NoCover` exactly where no usable cell is an inverter, or else none a nand of two
/// inputs, whether the graph has such a node or not. Takes memory for enough cuts of all nodes within their trees, and time for each pair of these
/// of a node's two sons.
pub fn least_area(
    alloc: Global,
    held: u32,
    graph: &NeededPart,
    library: &Library,
) -> Result<TreeCover, TreeError>
    requires numbers { held + length graph.now.nodes < 2 ^ 32 }
    requires earlier { EachReadsEarlier held graph.now.nodes }
    requires roots { (x : ℕ) → 0 < root_uses x graph.now → x < held + length graph.now.nodes }
    ensures least { IfOk result (λ t. IsTreeCover library.now held graph.now t) }
    ensures covered { OnOk result (CoversTrees library.now) }
    ensures refused { IfErr result (λ e. IsTreeRefusal library.now e) }
{
    if let Some(kind) = missing_kind(library.cells()) {
        return Err(TreeError::NoCover(kind));
    }
    let cover = cover_trees(alloc, held, graph, library)?;
    Ok(cover)
}
