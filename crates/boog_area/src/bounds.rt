// Bounds that are checked by themselves.
ghost use Rattle.std.specs.Prelude.{◌≡◌, ◌↔◌, ◌<◌, ◌+◌, ◌^◌, ℕ, IsTrue, length, IfOk};
ghost use Rattle.graph_theory.specs.Graph.{EachReadsEarlier};
ghost use Rattle.boog_tree.specs.Trees.{root_uses};
ghost use Rattle.boog_area.specs.Covers.{AreCellBounds};

use boog_part::NeededPart;
use boog_tree::check_bounds as check_by_cells;
use cell_checks::Library;
use gate_cells::gate_cells;
use std::alloc::{AllocError, Global};

/// Whether these are bounds below which no cover of a tree by usable cells of the library is, one for each number, in columns: whoever made
/// them, a yes shows it by `cell_bounds_are_least`. Takes memory for enough cuts of all nodes within their trees.
pub fn check_bounds(
    alloc: Global,
    held: u32,
    graph: &NeededPart,
    library: &Library,
    bounds: &[u64],
) -> Result<bool, AllocError>
    requires numbers { held + length graph.now.nodes < 2 ^ 32 }
    requires earlier { EachReadsEarlier held graph.now.nodes }
    requires roots { (x : ℕ) → 0 < root_uses x graph.now → x < held + length graph.now.nodes }
    requires many { length bounds.now ≡ held + length graph.now.nodes }
    ensures { IfOk result (λ yes. IsTrue yes ↔ AreCellBounds library.now held graph.now bounds.now) }
{
    let cells = gate_cells(alloc, library)?;
    let yes = check_by_cells(alloc, &cells.words, &cells.areas, held, graph, bounds)?;
    Ok(yes)
}
