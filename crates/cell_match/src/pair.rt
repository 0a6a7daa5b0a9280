// One cell for two gates.
ghost use Rattle.std.specs.Prelude.{◌≡◌, ◌<◌, ◌≤◌, ◌^◌, ℕ, length, map, List, slice_index, IfSome, IfNone};
ghost use Rattle.cell_match.specs.Places.{times};
ghost use Rattle.cell_match.specs.Cells.{inputs_of, IsGate};
ghost use Rattle.cell_match.specs.Computes.{Computes};
ghost use Rattle.cell_match.specs.Matches.{IsTable};

use crate::gate::{CellWord, Gate};
use crate::nodes::read;
use crate::table::Table;
use crate::word::composed_word;
use arrayvec::ArrayVec;

/// The nodes in this order.
pub(crate) fn arranged(nodes: &[u32], order: &[u8]) -> ArrayVec<u32, 6>
    requires few { length order.now ≤ 6 }
    requires within { (i : ℕ) → 0 < times i order.now → i < length nodes.now }
    ensures { result.items ≡ map (slice_index nodes.now) order.now }
{
    let mut leaves = ArrayVec::new();
    for place in order {
        leaves.push(nodes[*place as usize]);
    }
    leaves
}

/// A gate that computes what the second does with the first put in for node `a`; None where no cell does.
pub fn fuse(cells: &[CellWord], table: &Table, inner: &Gate, outer: &Gate, a: u32) -> Option<Gate>
    requires few { (k : ℕ) → inputs_of cells.now k ≤ 6 }
    requires table { IsTable cells.now table.now.maps.items }
    requires inner { (j : ℕ) × IsGate cells.now j inner.now }
    requires outer { (j : ℕ) × IsGate cells.now j outer.now }
    requires there { 0 < times a outer.now.leaves.items }
    requires other { times a inner.now.leaves.items ≡ 0 }
    ensures some { IfSome result (λ m. Computes cells.now m.cell m.leaves.items inner.now outer.now a) }
    ensures none { IfNone result ((k : ℕ) (order : List ℕ) → Computes cells.now k order inner.now outer.now a → ⊥) }
{
    match read(inner.leaves.as_slice(), outer.leaves.as_slice(), a) {
        None => None,
        Some(nodes) => {
            let word = composed_word(cells, nodes.as_slice(), inner, outer, a);
            match table.find(nodes.len(), word) {
                None => None,
                Some(found) => Some(Gate {
                    cell: found.cell,
                    leaves: arranged(nodes.as_slice(), found.order.as_slice()),
                }),
            }
        }
    }
}
