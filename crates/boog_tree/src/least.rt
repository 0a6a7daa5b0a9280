// The least area of all trees.
ghost use Rattle.std.specs.Prelude.{◌≡◌, ◌<◌, ◌≤◌, ◌+◌, ◌^◌, not, ◌&&◌, ◌++◌, ◌∷◌, [], ℕ, length, IfOk, OnOk, IfSome};
ghost use Rattle.bool_expr.specs.Expression.{bit};
ghost use Rattle.graph_theory.specs.Graph.{EachReadsEarlier};
ghost use Rattle.cell_match.specs.Cells.{inputs_of};
ghost use Rattle.boog_tree.specs.Direct.{HasGates};
ghost use Rattle.boog_tree.specs.Trees.{root_uses, tree_roots};
ghost use Rattle.boog_tree.specs.Counted.{AreInner};
ghost use Rattle.boog_tree.specs.Picked.{AreRising};
ghost use Rattle.boog_tree.specs.Swept.{AddsParts, gate_of, cost_of};
ghost use Rattle.boog_tree.specs.Bounds.{ArePicks, AreBounds, IsLeast};

use crate::cuts::{MOST_MEMBERS, parts_of};
use crate::enough::enough_cuts;
use crate::inner::{inner_gates, is_gate};
use crate::pick::{Pick, best_pick};
use boog_part::NeededPart;
use cell_match::{CellWord, Cut, Gate, Table};
use std::alloc::{AllocError, Global};

/// A cover of each tree of a graph, and what shows that none has less area.
#[derive(Drop)]
pub struct LeastCover {
    /// The roots of the trees, by their numbers.
    pub trees: Vec<u32>,
    /// A match for each gate, by its number.
    pub picks: Vec<Option<Gate>>,
    /// For each number the least area from there on down, in columns; 0 for what is no gate.
    pub bounds: Vec<u64>,
}

/// Whether a gate belongs to no other tree than its own.
fn is_root(gate: bool, inner: bool) -> bool
    ensures { result ≡ (gate && not inner) }
{
    gate && !inner
}

/// The roots of all trees, by their numbers. Takes memory for them.
fn roots(
    alloc: Global,
    held: u32,
    graph: &NeededPart,
    inner: &[bool],
) -> Result<Vec<u32>, AllocError>
    requires numbers { held + length graph.now.nodes < 2 ^ 32 }
    requires inner { AreInner held graph.now inner.now }
    ensures { IfOk result (λ trees. trees.items ≡ tree_roots held graph.now) }
{
    let mut trees = Vec::new(alloc);
    for number in 0..inner.len() {
        let gate = is_gate(held as usize, graph.nodes(), number);
        if is_root(gate, inner[number]) {
            trees.push(number as u32)?;
        }
    }
    Ok(trees)
}

/// What is known of the numbers so far: what may stand for each at a pin, its match, and its bound.
#[derive(Drop)]
struct Swept {
    parts: Vec<Vec<Cut<MOST_MEMBERS>>>,
    picks: Vec<Option<Gate>>,
    bounds: Vec<u64>,
}

impl Swept {
    /// The match and the bound of the next number, whose cuts these are.
    fn add(
        &mut self,
        alloc: Global,
        inner: &[bool],
        cuts: Vec<Cut<MOST_MEMBERS>>,
        pick: Option<Pick>,
    ) -> Result<(), AllocError>
        requires there { length self.old.parts.items < length inner.now }
        requires few { length inner.now < 2 ^ 32 }
        requires small { IfSome pick (λ p. p.cost < 2 ^ 64) }
        ensures parts { OnOk result (AddsParts self.old.parts.items (bit inner.now (length self.old.parts.items)) cuts.items self.new.parts.items) }
        ensures picks { OnOk result (self.new.picks.items ≡ self.old.picks.items ++ gate_of pick ∷ []) }
        ensures bounds { OnOk result (self.new.bounds.items ≡ self.old.bounds.items ++ cost_of pick ∷ []) }
    {
        let number = self.parts.len();
        let parts = parts_of(alloc, number as u32, inner[number], cuts)?;
        self.parts.push(parts)?;
        let (gate, bound) = match pick {
            Some(pick) => (Some(pick.gate), pick.cost as u64),
            None => (None, 0),
        };
        self.picks.push(gate)?;
        self.bounds.push(bound)?;
        Ok(())
    }
}

/// The matches and bounds of all numbers, from the first on. Takes memory for them and for all cuts.
fn sweep(
    alloc: Global,
    cells: &[CellWord],
    areas: &[u32],
    held: u32,
    graph: &NeededPart,
    inner: &[bool],
) -> Result<Swept, AllocError>
    requires narrow { (k : ℕ) → inputs_of cells.now k ≤ 6 }
    requires areas { AreRising cells.now areas.now }
    requires gates { HasGates cells.now }
    requires numbers { held + length graph.now.nodes < 2 ^ 32 }
    requires earlier { EachReadsEarlier held graph.now.nodes }
    requires inner { AreInner held graph.now inner.now }
    ensures picks { IfOk result (λ s. ArePicks cells.now areas.now held graph.now s.bounds.items s.picks.items) }
    ensures bounds { IfOk result (λ s. AreBounds cells.now areas.now held graph.now s.bounds.items) }
{
    let table = Table::new(alloc, cells)?;
    let mut swept = Swept {
        parts: Vec::new(alloc),
        picks: Vec::new(alloc),
        bounds: Vec::new(alloc),
    };
    for _ in 0..inner.len() {
        let cuts = enough_cuts(alloc, held, graph, &swept.parts, inner, &swept.bounds)?;
        let pick = best_pick(cells, areas, &table, &cuts, inner, &swept.bounds);
        swept.add(alloc, inner, cuts, pick)?;
    }
    Ok(swept)
}

/// A cover of each tree of a graph by the cells, of least area: no cover of a tree has less than the bound of its root. The first node of the
/// graph has number `held`; the cells come by rising area, which `areas` has in columns. Takes memory for enough cuts within trees.
pub fn least_area(
    alloc: Global,
    cells: &[CellWord],
    areas: &[u32],
    held: u32,
    graph: &NeededPart,
) -> Result<LeastCover, AllocError>
    requires narrow { (k : ℕ) → inputs_of cells.now k ≤ 6 }
    requires areas { AreRising cells.now areas.now }
    requires gates { HasGates cells.now }
    requires numbers { held + length graph.now.nodes < 2 ^ 32 }
    requires earlier { EachReadsEarlier held graph.now.nodes }
    requires roots { (x : ℕ) → 0 < root_uses x graph.now → x < held + length graph.now.nodes }
    ensures { IfOk result (λ c. IsLeast cells.now areas.now held graph.now c) }
{
    let inner = inner_gates(alloc, held, graph)?;
    let trees = roots(alloc, held, graph, &inner)?;
    let Swept { picks, bounds, .. } = sweep(alloc, cells, areas, held, graph, &inner)?;
    Ok(LeastCover {
        trees,
        picks,
        bounds,
    })
}
