// A cell for a cut.
ghost use Rattle.std.specs.Prelude.{◌≡◌, ◌<◌, ◌≤◌, ℕ, Bool, List, length, IfSome, IfNone};
ghost use Rattle.cell_match.specs.Places.{times, place};
ghost use Rattle.cell_match.specs.Cells.{inputs_of};
ghost use Rattle.cell_match.specs.Matches.{IsTable};
ghost use Rattle.truth_tab.specs.Table.{bit, value_of};
ghost use Rattle.cell_match.specs.Computes.{cut_value, ComputesCut};

use crate::cut::Cut;
use crate::gate::{CellWord, Gate};
use crate::nodes::places;
use crate::pair::arranged;
use crate::table::Table;
use truth_tab::Truth;

/// A gate of the first cell that computes the cut; None where no cell does.
pub fn matched<const K: usize>(cells: &[CellWord], table: &Table, cut: &Cut<K>) -> Option<Gate>
    requires few { K ≤ 6 }
    requires table { IsTable cells.now table.now.maps.items }
    requires once { (x : ℕ) → times x cut.now.leaves.items ≤ 1 }
    ensures some { IfSome result (λ g. ComputesCut cells.now g.cell g.leaves.items cut.now) }
    ensures few { IfSome result (λ g. length g.leaves.items ≤ K) }
    ensures first { IfSome result (λ g. (k : ℕ) (order : List ℕ) → ComputesCut cells.now k order cut.now → g.cell ≤ k) }
    ensures none { IfNone result ((k : ℕ) (order : List ℕ) → ComputesCut cells.now k order cut.now → ⊥) }
{
    let leaves = cut.leaves.as_slice();
    let word = word_on_leaves(cut);
    match table.find(leaves.len(), word) {
        None => None,
        Some(found) => Some(Gate {
            cell: found.cell,
            leaves: arranged(leaves, found.order.as_slice()),
        }),
    }
}

/// The cut's word over 6 variables, of which it reads those of its leaves alone.
fn word_on_leaves<const K: usize>(cut: &Cut<K>) -> u64
    requires few { K ≤ 6 }
    requires once { (x : ℕ) → times x cut.now.leaves.items ≤ 1 }
    ensures { (v : List Bool) → length v ≡ 6 → value_of result v ≡ cut_value cut.now (λ x. bit v (place x cut.now.leaves.items)) }
{
    let leaves = cut.leaves.as_slice();
    let places = places(leaves, leaves);
    let word: Truth<6> = cut.word.gathered(places.as_slice());
    word.word
}
