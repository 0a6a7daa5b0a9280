// The pass.
ghost use Rattle.std.specs.Prelude.{◌≡◌, ◌<◌, ◌≤◌, ◌+◌, ◌^◌, ℕ, length, map, Some, IfSome, IfNone, List, slice_index};
ghost use Rattle.cell_match.specs.Places.{times};
ghost use Rattle.boog_tight.specs.Cover.{gate_at, IsCover};
ghost use Rattle.cell_match.specs.Cells.{inputs_of, IsGate};
ghost use Rattle.cell_match.specs.Computes.{Computes};
ghost use Rattle.boog_tight.specs.Tight.{IsTight, IsTightBelow};
ghost use Rattle.boog_tight.specs.Kept.{Keeps};
ghost use Rattle.cell_match.specs.Matches.{IsTable};
ghost use Rattle.cell_match.specs.declared.gate.Gate.{Gate};
ghost use Rattle.boog_tight.specs.Uses.{AreUses, IsFused, NoneFused, exchanged, read_by};

use crate::uses::{count_off, count_on};
use cell_match::{CellWord, Gate, Table, fuse};

/// A gate that stands for two, the first of which shows the node `inner`.
#[derive(Drop)]
pub struct Fused {
    pub inner: u32,
    pub gate: Gate,
}

/// A gate that stands for this one with the gate of one of its leaves.
fn fused_at(
    cells: &[CellWord],
    table: &Table,
    gates: &[Option<Gate>],
    counts: &[u32],
    outer: &Gate,
    leaf: u32,
) -> Option<Gate>
    requires few { (k : ℕ) → inputs_of cells.now k ≤ 6 }
    requires table { IsTable cells.now table.now.maps.items }
    requires long { length counts.now ≡ length gates.now }
    requires within { leaf < length gates.now }
    requires outer { (j : ℕ) × IsGate cells.now j outer.now }
    requires inner { (h : Gate) → gate_at gates.now leaf ≡ Some h → IsGate cells.now leaf h }
    requires there { 0 < times leaf outer.now.leaves.items }
    ensures some { IfSome result (λ m. (h : Gate) × (gate_at gates.now leaf ≡ Some h) × (slice_index counts.now leaf ≡ 1)
        × Computes cells.now m.cell m.leaves.items h outer.now leaf) }
    ensures none { IfNone result ((h : Gate) (k : ℕ) (order : List ℕ) → gate_at gates.now leaf ≡ Some h → slice_index counts.now leaf ≡ 1
        → Computes cells.now k order h outer.now leaf → ⊥) }
{
    if counts[leaf as usize] != 1 {
        return None;
    }
    match &gates[leaf as usize] {
        Some(inner) => fuse(cells, table, inner, outer, leaf),
        None => None,
    }
}

/// A gate that stands for that of node `j` with the gate of one of its leaves which nothing else reads.
fn find_fused(
    cells: &[CellWord],
    table: &Table,
    gates: &[Option<Gate>],
    counts: &[u32],
    given: usize,
    roots: &[u32],
    j: usize,
) -> Option<Fused>
    requires few { (k : ℕ) → inputs_of cells.now k ≤ 6 }
    requires table { IsTable cells.now table.now.maps.items }
    requires within { j < length gates.now }
    requires cover { IsCover cells.now given gates.now roots.now }
    requires long { length counts.now ≡ length gates.now }
    ensures some { IfSome result (λ f. IsFused cells.now gates.now counts.now j f) }
    ensures none { IfNone result (NoneFused cells.now gates.now counts.now j) }
{
    match &gates[j] {
        None => None,
        Some(outer) => {
            for leaf in outer.leaves.as_slice() {
                let inner = *leaf;
                if let Some(gate) = fused_at(cells, table, gates, counts, outer, inner) {
                    return Some(Fused { inner, gate });
                }
            }
            None
        }
    }
}

/// Puts a gate in place of that of node `j` and of the one that it was found with.
fn exchange(gates: &mut [Option<Gate>], counts: &mut [u32], j: usize, found: Fused)
    requires within { j < length gates.old }
    requires inner { found.inner < length gates.old }
    requires apart { found.inner < j }
    requires long { length counts.old ≡ length gates.old }
    requires inside { (x : ℕ) → 0 < read_by gates.old j x + (read_by gates.old found.inner x + times x found.gate.leaves.items) → x < length gates.old }
    requires enough { (x : ℕ) → read_by gates.old j x + read_by gates.old found.inner x ≤ slice_index counts.old x }
    requires few { (x : ℕ) → times x found.gate.leaves.items ≤ read_by gates.old j x + read_by gates.old found.inner x }
    ensures gates { gates.new ≡ exchanged gates.old found.inner j found.gate }
    ensures counts { (x : ℕ) → slice_index counts.new x + (read_by gates.old j x + read_by gates.old found.inner x)
        ≡ slice_index counts.old x + times x found.gate.leaves.items }
{
    let Fused { inner, gate } = found;
    let inner = inner as usize;
    off(gates, counts, j);
    off(gates, counts, inner);
    count_on(counts, gate.leaves.as_slice());
    gates[inner] = None;
    gates[j] = Some(gate);
}

/// Counts off the leaves of the gate of a node.
fn off(gates: &[Option<Gate>], counts: &mut [u32], j: usize)
    requires within { j < length gates.now }
    requires inside { (x : ℕ) → 0 < read_by gates.now j x → x < length counts.old }
    requires enough { (x : ℕ) → read_by gates.now j x ≤ slice_index counts.old x }
    ensures { (x : ℕ) → slice_index counts.new x + read_by gates.now j x ≡ slice_index counts.old x }
{
    if let Some(gate) = &gates[j] {
        count_off(counts, gate.leaves.as_slice());
    }
}

/// Puts gates together until no cell stands for that of node `j` with another.
fn settle(
    cells: &[CellWord],
    table: &Table,
    gates: &mut [Option<Gate>],
    counts: &mut [u32],
    given: usize,
    roots: &[u32],
    j: usize,
)
    requires few { (k : ℕ) → inputs_of cells.now k ≤ 6 }
    requires table { IsTable cells.now table.now.maps.items }
    requires within { j < length gates.old }
    requires cover { IsCover cells.now given gates.old roots.now }
    requires counts { AreUses gates.old roots.now counts.old }
    requires tight { IsTightBelow cells.now gates.old roots.now j }
    ensures keeps { Keeps cells.now given roots.now gates.old gates.new }
    ensures counts { AreUses gates.new roots.now counts.new }
    ensures tight { IsTightBelow cells.now gates.new roots.now (j + 1) }
{
    while let Some(found) = find_fused(cells, table, gates, counts, given, roots, j) {
        exchange(gates, counts, j, found);
    }
}

/// Puts pairs of gates into one cell until no cell stands for any pair. The counts say how many pins and roots read each node.
/// Takes no memory, and looks at each node once.
pub fn tighten(
    cells: &[CellWord],
    table: &Table,
    gates: &mut [Option<Gate>],
    counts: &mut [u32],
    given: usize,
    roots: &[u32],
)
    requires few { (k : ℕ) → inputs_of cells.now k ≤ 6 }
    requires table { IsTable cells.now table.now.maps.items }
    requires cover { IsCover cells.now given gates.old roots.now }
    requires counts { AreUses gates.old roots.now counts.old }
    ensures keeps { Keeps cells.now given roots.now gates.old gates.new }
    ensures tight { IsTight cells.now gates.new roots.now }
{
    for j in 0..gates.len() {
        settle(cells, table, gates, counts, given, roots, j);
    }
}
