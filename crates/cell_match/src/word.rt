// The word of two gates.
ghost use Rattle.std.specs.Prelude.{◌≡◌, ◌<◌, ◌≤◌, ◌⊎◌, ℕ, Bool, List, map, length, slice_set, if◌then◌else◌};
ghost use Rattle.truth_tab.specs.Table.{bit, value_of};
ghost use Rattle.cell_match.specs.Places.{times, place, place_but, AreRead};
ghost use Rattle.cell_match.specs.Cells.{inputs_of, IsGate};
ghost use Rattle.cell_match.specs.Computes.{composed};

use crate::gate::{CellWord, Gate};
use crate::nodes::{place, places_but};
use truth_tab::Truth;

/// The second where the first is 1, and the third elsewhere.
fn choice(c: Truth<6>, a: Truth<6>, b: Truth<6>) -> Truth<6>
    ensures { (v : List Bool) → length v ≡ 6
        → value_of result.word v ≡ (if value_of c.word v then value_of a.word v else value_of b.word v) }
{
    let first = c.and(a).not();
    let second = c.not().and(b).not();
    first.and(second).not()
}

/// The function that reads its leaves at their places among the nodes.
fn on_nodes(word: Truth<6>, nodes: &[u32], leaves: &[u32], a: u32) -> Truth<6>
    requires few { length leaves.now ≤ 6 }
    requires few_nodes { length nodes.now ≤ 6 }
    requires known { (x : ℕ) → 0 < times x leaves.now → (x ≡ a) ⊎ (0 < times x nodes.now) }
    ensures { (v : List Bool) → length v ≡ 6
        → value_of result.word v ≡ value_of word.word (map (λ x. bit v (place_but a nodes.now x)) leaves.now) }
{
    let places = places_but(nodes, leaves, a);
    word.gathered(places.as_slice())
}

fn with(word: Truth<6>, at: usize, value: bool) -> Truth<6>
    requires { at < 6 }
    ensures { (w : List Bool) → at < length w → length w ≤ 6 → value_of result.word w ≡ value_of word.word (slice_set w at value) }
{
    word.cofactor(at, value)
}

/// The word of the second gate with the first put in for node `a`, over the nodes of a list.
pub(crate) fn composed_word(
    cells: &[CellWord],
    nodes: &[u32],
    inner: &Gate,
    outer: &Gate,
    a: u32,
) -> u64
    requires few { length nodes.now ≤ 6 }
    requires inner { (j : ℕ) × IsGate cells.now j inner.now }
    requires outer { (j : ℕ) × IsGate cells.now j outer.now }
    requires read { AreRead inner.now.leaves.items outer.now.leaves.items a nodes.now }
    requires there { 0 < times a outer.now.leaves.items }
    requires other { times a inner.now.leaves.items ≡ 0 }
    ensures { (v : List Bool) → length v ≡ 6 → value_of result v ≡ composed cells.now inner.now outer.now a (λ x. bit v (place x nodes.now)) }
{
    let word = cells[outer.cell].word;
    let leaves = outer.leaves.as_slice();
    let at = place(leaves, a);
    let h = on_nodes(cells[inner.cell].word, nodes, inner.leaves.as_slice(), a);
    let one = on_nodes(with(word, at, true), nodes, leaves, a);
    let zero = on_nodes(with(word, at, false), nodes, leaves, a);
    choice(h, one, zero).word
}
