// Bounds that are checked by themselves.
ghost use Rattle.std.specs.Prelude.{◌≡◌, ◌↔◌, ◌<◌, ◌≤◌, ◌+◌, ◌^◌, ℕ, IsTrue, length, IfOk};
ghost use Rattle.graph_theory.specs.Graph.{EachReadsEarlier};
ghost use Rattle.cell_match.specs.Cells.{inputs_of};
ghost use Rattle.boog_tree.specs.Trees.{root_uses};
ghost use Rattle.boog_tree.specs.Counted.{AreInner};
ghost use Rattle.boog_tree.specs.Picked.{AreRising, IsWithin};
ghost use Rattle.boog_tree.specs.Bounds.{AreBounds};

use crate::cuts::parts_of;
use crate::enough::enough_cuts;
use crate::inner::{inner_gates, is_gate};
use crate::pick::{Pick, best_pick};
use boog_part::NeededPart;
use cell_match::{CellWord, Table};
use std::alloc::{AllocError, Global};

/// Whether a bound is at most what the best match costs; what is no gate has the bound 0.
fn is_within(gate: bool, bound: u64, pick: &Option<Pick>) -> bool
    ensures { IsTrue result ↔ IsWithin gate bound pick.now }
{
    if !gate && bound != 0 {
        return false;
    }
    match pick {
        Some(pick) => u128::from(bound) <= pick.cost,
        None => true,
    }
}

/// Whether each bound is at most what the best match of its number costs. Takes memory for enough cuts within trees.
fn are_within(
    alloc: Global,
    cells: &[CellWord],
    areas: &[u32],
    held: u32,
    graph: &NeededPart,
    inner: &[bool],
    bounds: &[u64],
) -> Result<bool, AllocError>
    requires narrow { (k : ℕ) → inputs_of cells.now k ≤ 6 }
    requires areas { AreRising cells.now areas.now }
    requires numbers { held + length graph.now.nodes < 2 ^ 32 }
    requires earlier { EachReadsEarlier held graph.now.nodes }
    requires inner { AreInner held graph.now inner.now }
    requires many { length bounds.now ≡ held + length graph.now.nodes }
    ensures { IfOk result (λ yes. IsTrue yes ↔ AreBounds cells.now areas.now held graph.now bounds.now) }
{
    let table = Table::new(alloc, cells)?;
    let mut parts = Vec::new(alloc);
    for number in 0..inner.len() {
        let cuts = enough_cuts(alloc, held, graph, &parts, inner, bounds)?;
        let pick = best_pick(cells, areas, &table, &cuts, inner, bounds);
        let gate = is_gate(held as usize, graph.nodes(), number);
        if !is_within(gate, bounds[number], &pick) {
            return Ok(false);
        }
        parts.push(parts_of(alloc, number as u32, inner[number], cuts)?)?;
    }
    Ok(true)
}

/// Whether these are bounds below which no cover of a tree is, one for each number: whoever made them, a yes shows it by `bounds_are_least`.
/// Nothing else is asked of them. Takes memory for enough cuts within trees.
pub fn check_bounds(
    alloc: Global,
    cells: &[CellWord],
    areas: &[u32],
    held: u32,
    graph: &NeededPart,
    bounds: &[u64],
) -> Result<bool, AllocError>
    requires narrow { (k : ℕ) → inputs_of cells.now k ≤ 6 }
    requires areas { AreRising cells.now areas.now }
    requires numbers { held + length graph.now.nodes < 2 ^ 32 }
    requires earlier { EachReadsEarlier held graph.now.nodes }
    requires roots { (x : ℕ) → 0 < root_uses x graph.now → x < held + length graph.now.nodes }
    requires many { length bounds.now ≡ held + length graph.now.nodes }
    ensures { IfOk result (λ yes. IsTrue yes ↔ AreBounds cells.now areas.now held graph.now bounds.now) }
{
    let inner = inner_gates(alloc, held, graph)?;
    are_within(alloc, cells, areas, held, graph, &inner, bounds)
}
