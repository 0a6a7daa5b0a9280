// A cover of a graph.
ghost use Rattle.std.specs.Prelude.{◌≡◌, ◌⊎◌, ◌<◌, ◌≤◌, ◌+◌, ◌^◌, ℕ, List, map, length, Option, Some, None, slice_index, IfOk, IfSome};
ghost use Rattle.graph_theory.specs.Graph.{EachReadsEarlier};
ghost use Rattle.cell_match.specs.declared.gate.Gate.{Gate};
ghost use Rattle.cell_match.specs.Places.{times};
ghost use Rattle.boog_tight.specs.Cover.{leaves_of, gate_at, uses, IsCover};
ghost use Rattle.cell_match.specs.Cells.{inputs_of};
ghost use Rattle.cell_match.specs.Matches.{IsTable};
ghost use Rattle.boog_tight.specs.Kept.{Keeps, leaf_count};
ghost use Rattle.boog_tight.specs.Tight.{IsTight};
ghost use Rattle.boog_tight.specs.Uses.{AreUses};
ghost use Rattle.boog_cover.specs.Pruned.{IsFull, IsPruned};
ghost use Rattle.boog_cover.specs.Covered.{HasCells, IsCoveredWith, IsCovered};

use crate::lesser::{are_marked, needed_marks, replaced};
use crate::needed::prune;
use crate::rounds::{chosen, columns_of};
use boog_cuts::{CutTable, cuts};
use boog_resub::steps;
use boog_tight::{count_on, tighten};
use cell_match::{CellWord, Gate, Table};
use std::alloc::{AllocError, Global};
use subject_graph::Graph;

fn count_gate(counts: &mut [u32], gate: &Option<Gate>)
    requires inside { (x : ℕ) → 0 < times x (leaves_of gate.now) → x < length counts.old }
    requires room { (x : ℕ) → slice_index counts.old x + times x (leaves_of gate.now) < 2 ^ 32 }
    ensures { (x : ℕ) → slice_index counts.new x ≡ slice_index counts.old x + times x (leaves_of gate.now) }
{
    if let Some(gate) = gate {
        count_on(counts, gate.leaves.as_slice());
    }
}

/// Counts how many pins and roots read each node.
fn count(counts: &mut [u32], gates: &[Option<Gate>], roots: &[u32])
    requires long { length counts.old ≡ length gates.now }
    requires none { (x : ℕ) → slice_index counts.old x ≡ 0 }
    requires once { (a x : ℕ) → times x (leaves_of (gate_at gates.now a)) ≤ 1 }
    requires inside { (x : ℕ) → 0 < uses gates.now roots.now x → x < length gates.now }
    requires few { length gates.now + length roots.now < 2 ^ 32 }
    ensures { AreUses gates.now roots.now counts.new }
{
    for i in 0..gates.len() {
        count_gate(counts, &gates[i]);
    }
    count_on(counts, roots);
}

/// How many pins the gates read.
fn leaf_count(gates: &[Option<Gate>]) -> usize
    requires { length gates.now < 2 ^ 32 }
    ensures { result ≡ leaf_count gates.now }
{
    let mut count = 0;
    for gate in gates {
        if let Some(gate) = gate {
            count += gate.leaves.len();
        }
    }
    count
}

/// Takes out what is not needed. Takes memory for a mark for each number.
fn needed(
    alloc: Global,
    gates: Vec<Option<Gate>>,
    held: usize,
    roots: &[u32],
) -> Result<Vec<Option<Gate>>, AllocError>
    requires roots { (x : ℕ) → 0 < times x roots.now → x < length gates.items }
    requires full { IsFull held gates.items }
    ensures { IfOk result (λ kept. IsPruned held gates.items kept.items roots.now) }
{
    let mut gates = gates;
    let mut marks = vec![in alloc; false; gates.len()]?;
    prune(&mut gates, &mut marks, held, roots);
    Ok(gates)
}

/// Puts pairs of gates into one cell until no pair can be. Takes memory for a count for each number.
fn tightened(
    alloc: Global,
    cells: &[CellWord],
    table: &Table,
    gates: Vec<Option<Gate>>,
    held: usize,
    roots: &[u32],
) -> Result<Vec<Option<Gate>>, AllocError>
    requires few { (k : ℕ) → inputs_of cells.now k ≤ 6 }
    requires table { IsTable cells.now table.now.maps.items }
    requires cover { IsCover cells.now held gates.items roots.now }
    requires inside { (x : ℕ) → 0 < uses gates.items roots.now x → x < length gates.items }
    requires room { length gates.items + length roots.now < 2 ^ 32 }
    ensures keeps { IfOk result (λ kept. Keeps cells.now held roots.now gates.items kept.items) }
    ensures tight { IfOk result (λ kept. IsTight cells.now kept.items roots.now) }
{
    let mut gates = gates;
    let mut counts = vec![in alloc; 0u32; gates.len()]?;
    count(&mut counts, &gates, roots);
    tighten(cells, table, &mut gates, &mut counts, held, roots);
    Ok(gates)
}

/// Gates of cells of at most K inputs for most nodes, that cover the graph. Takes memory for the cuts of each node.
fn covered<const K: usize>(
    alloc: Global,
    cells: &[CellWord],
    areas: &[u32],
    table: &Table,
    held: u32,
    graph: &Graph,
    roots: &[u32],
) -> Result<Vec<Option<Gate>>, AllocError>
    requires some { 2 ≤ K }
    requires few { K ≤ 6 }
    requires inputs { (k : ℕ) → inputs_of cells.now k ≤ 6 }
    requires table { IsTable cells.now table.now.maps.items }
    requires has { HasCells cells.now }
    requires numbers { held + length graph.now.nodes + length roots.now < 2 ^ 32 }
    requires earlier { EachReadsEarlier held graph.now.nodes }
    requires roots { (x : ℕ) → 0 < times x roots.now → x < held + length graph.now.nodes }
    ensures { IfOk result (λ gates. IsCoveredWith K cells.now held graph.now.nodes roots.now gates.items) }
{
    let cuts: CutTable<K> = cuts(alloc, held, graph)?;
    let gates = chosen(alloc, cells, areas, table, &cuts, held, graph, roots)?;
    let gates = needed(alloc, gates, held as usize, roots)?;
    tightened(alloc, cells, table, gates, held as usize, roots)
}

/// A cover whose nodes get other gates, step by step, before pairs are put into one; None where it has too many pins, more columns than
/// the one that was begun with, or a gate that reads a node that no root of the graph needs. Takes memory for the cuts of each node.
fn lesser_cover<const K: usize>(
    alloc: Global,
    cells: &[CellWord],
    areas: &[u32],
    table: &Table,
    held: u32,
    graph: &Graph,
    roots: &[u32],
) -> Result<Option<Vec<Option<Gate>>>, AllocError>
    requires some { 2 ≤ K }
    requires few { K ≤ 6 }
    requires inputs { (k : ℕ) → inputs_of cells.now k ≤ 6 }
    requires table { IsTable cells.now table.now.maps.items }
    requires has { HasCells cells.now }
    requires numbers { held + length graph.now.nodes + length roots.now < 2 ^ 32 }
    requires earlier { EachReadsEarlier held graph.now.nodes }
    requires roots { (x : ℕ) → 0 < times x roots.now → x < held + length graph.now.nodes }
    ensures { IfOk result (λ made. IfSome made (λ gates. IsCovered cells.now held graph.now.nodes roots.now gates.items)) }
{
    let cuts: CutTable<K> = cuts(alloc, held, graph)?;
    let begun = chosen(alloc, cells, areas, table, &cuts, held, graph, roots)?;
    let before = columns_of(alloc, &begun, areas, roots)?;
    let marks = needed_marks(alloc, held, graph, roots)?;
    let steps = steps(alloc, cells, areas, &begun, &marks, roots)?;
    let gates = replaced(cells, begun, held as usize, steps);
    if columns_of(alloc, &gates, areas, roots)? > before {
        return Ok(None);
    }
    let left = needed(alloc, gates, held as usize, roots)?;
    if leaf_count(&left) > 2 * graph.nodes().len() {
        return Ok(None);
    }
    if !are_marked(&left, &marks) {
        return Ok(None);
    }
    let last = tightened(alloc, cells, table, left, held as usize, roots)?;
    Ok(Some(last))
}

fn has_wide(cells: &[CellWord]) -> bool {
    cells.iter().any(|cell| cell.inputs > 4)
}

/// A cover by gates of at most 4 inputs where no cell has more, and of at most 6 elsewhere. Takes memory as `cover` does.
fn wide_cover(
    alloc: Global,
    cells: &[CellWord],
    areas: &[u32],
    table: &Table,
    held: u32,
    graph: &Graph,
    roots: &[u32],
) -> Result<Vec<Option<Gate>>, AllocError>
    requires inputs { (k : ℕ) → inputs_of cells.now k ≤ 6 }
    requires table { IsTable cells.now table.now.maps.items }
    requires has { HasCells cells.now }
    requires numbers { held + length graph.now.nodes + length roots.now < 2 ^ 32 }
    requires earlier { EachReadsEarlier held graph.now.nodes }
    requires roots { (x : ℕ) → 0 < times x roots.now → x < held + length graph.now.nodes }
    ensures { IfOk result (λ gates. IsCoveredWith 6 cells.now held graph.now.nodes roots.now gates.items) }
{
    if has_wide(cells) {
        return covered::<6>(alloc, cells, areas, table, held, graph, roots);
    }
    covered::<4>(alloc, cells, areas, table, held, graph, roots)
}

/// Gates of cells that cover the graph, whose first node has number `held`; no cell stands for any pair of them, and together they
/// have at most two pins for each node. Each node's gate is the one of least area, each shared among those that read it; of cells that
/// compute one word the first is taken, so the cells are given by rising area, and `areas` in the same order. Then nodes get other gates
/// over other nodes, step by step, where this takes fewer columns. Where that or cuts of more than two leaves give too many pins, it is
/// left out, or each gate has two. Takes memory for the cuts of each node and for the cells' orders.
pub fn cover(
    alloc: Global,
    cells: &[CellWord],
    areas: &[u32],
    held: u32,
    graph: &Graph,
    roots: &[u32],
) -> Result<Vec<Option<Gate>>, AllocError>
    requires inputs { (k : ℕ) → inputs_of cells.now k ≤ 6 }
    requires has { HasCells cells.now }
    requires numbers { held + length graph.now.nodes + length roots.now < 2 ^ 32 }
    requires earlier { EachReadsEarlier held graph.now.nodes }
    requires roots { (x : ℕ) → 0 < times x roots.now → x < held + length graph.now.nodes }
    ensures { IfOk result (λ gates. IsCovered cells.now held graph.now.nodes roots.now gates.items) }
{
    let table = Table::new(alloc, cells)?;
    if let Some(gates) = lesser_cover::<4>(alloc, cells, areas, &table, held, graph, roots)? {
        return Ok(gates);
    }
    let gates = wide_cover(alloc, cells, areas, &table, held, graph, roots)?;
    if leaf_count(&gates) <= 2 * graph.nodes().len() {
        return Ok(gates);
    }
    covered::<2>(alloc, cells, areas, &table, held, graph, roots)
}
