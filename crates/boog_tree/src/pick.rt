// The best match at a gate.
ghost use Rattle.std.specs.Prelude.{◌≡◌, ◌<◌, ◌≤◌, ◌+◌, ◌^◌, ℕ, List, length, slice_index, IsTrue, false, IfSome, IfNone, IsSomeAnd};
ghost use Rattle.bool_expr.specs.Expression.{bit};
ghost use Rattle.net_theory.specs.Sources.{IsNumber};
ghost use Rattle.cell_match.specs.Places.{times};
ghost use Rattle.cell_match.specs.declared.cut.Cut.{Cut};
ghost use Rattle.cell_match.specs.Matches.{IsTable};
ghost use Rattle.cell_match.specs.Computes.{ComputesCut};
ghost use Rattle.boog_tree.specs.Sums.{inner_sum};
ghost use Rattle.boog_tree.specs.Picked.{AreRising, IsBestOf, NoneMatches};

use crate::cuts::MOST_MEMBERS;
use cell_match::{CellWord, Cut, Gate, Table, matched};

/// A match, and its area with the bounds of its members in the tree.
#[derive(Drop)]
pub struct Pick {
    pub gate: Gate,
    pub cost: u128,
}

/// The area of a match with the bounds of its members in the tree.
fn cost_of(gate: &Gate, areas: &[u32], inner: &[bool], bounds: &[u64]) -> u128
    requires cell { gate.now.cell < length areas.now }
    requires few { length gate.now.leaves.items ≤ 6 }
    requires inner { (x : ℕ) → 0 < times x gate.now.leaves.items → x < length inner.now }
    requires bounds { (x : ℕ) → 0 < times x gate.now.leaves.items → x < length bounds.now }
    ensures { result ≡ slice_index areas.now gate.now.cell + inner_sum (bit inner.now) (slice_index bounds.now) gate.now.leaves.items }
{
    let mut cost = u128::from(areas[gate.cell]);
    for leaf in gate.leaves.as_slice() {
        let at = *leaf as usize;
        if inner[at] {
            cost += u128::from(bounds[at]);
        }
    }
    cost
}

/// Whether nothing costs less yet.
fn improves(cost: u128, best: &Option<Pick>) -> bool
    ensures yes { IsTrue result → IfSome best.now (λ p. cost ≤ p.cost) }
    ensures no { result ≡ false → IsSomeAnd best.now (λ p. p.cost ≤ cost) }
{
    match best {
        None => true,
        Some(pick) => cost < pick.cost,
    }
}

/// A match than which none at these cuts costs less; None where no cell computes any of them. The cells come by rising area. Takes no memory.
pub fn best_pick(
    cells: &[CellWord],
    areas: &[u32],
    table: &Table,
    cuts: &[Cut<MOST_MEMBERS>],
    inner: &[bool],
    bounds: &[u64],
) -> Option<Pick>
    requires table { IsTable cells.now table.now.maps.items }
    requires areas { AreRising cells.now areas.now }
    requires once { (i : ℕ) (c : Cut 6) → IsNumber cuts.now i c → (x : ℕ) → times x c.leaves.items ≤ 1 }
    requires inner { (i : ℕ) (c : Cut 6) → IsNumber cuts.now i c → (x : ℕ) → 0 < times x c.leaves.items → x < length inner.now }
    requires bounds { (i : ℕ) (c : Cut 6) → IsNumber cuts.now i c → (x : ℕ) → 0 < times x c.leaves.items → x < length bounds.now }
    ensures some { IfSome result (λ p. IsBestOf cells.now areas.now (bit inner.now) (slice_index bounds.now) cuts.now (length cuts.now) p) }
    ensures none { IfNone result (NoneMatches cells.now cuts.now (length cuts.now)) }
{
    let mut best: Option<Pick> = None;
    for cut in cuts {
        if let Some(gate) = matched(cells, table, cut) {
            let cost = cost_of(&gate, areas, inner, bounds);
            if improves(cost, &best) {
                best = Some(Pick { gate, cost });
            }
        }
    }
    best
}
