// Cuts of a node, from those of the nodes that it reads.
ghost use Rattle.std.specs.Prelude.{◌≡◌, ◌≢◌, ◌⊎◌, ◌↔◌, ◌<◌, ◌≤◌, ◌+◌, ℕ, Bool, not, ◌&&◌, [], ◌∷◌, List, map, length, IfOk, IfSome, IfNone};
ghost use Rattle.truth_tab.specs.Table.{bit, value_of};
ghost use Rattle.cell_match.specs.Places.{times, place};
ghost use Rattle.cell_match.specs.Computes.{cut_value};
ghost use Rattle.boog_cuts.specs.Cuts.{IsUnion, AllGive, AreCuts};

use arrayvec::ArrayVec;
use cell_match::{Cut, place, places};
use truth_tab::Truth;

/// The cut of a node that is the node itself.
pub fn single<const K: usize>(node: u32) -> Cut<K>
    requires some { 0 < K }
    requires few { K ≤ 6 }
    ensures leaves { result.leaves.items ≡ node ∷ [] }
    ensures value { (f : ℕ → Bool) → cut_value result f ≡ f node }
{
    let mut leaves = ArrayVec::new();
    leaves.push(node);
    Cut {
        leaves,
        word: Truth::var(0),
    }
}

fn copied<const K: usize>(nodes: &[u32]) -> ArrayVec<u32, K>
    requires { length nodes.now ≤ K }
    ensures { result.items ≡ nodes.now }
{
    let mut copy = ArrayVec::new();
    for node in nodes {
        copy.push(*node);
    }
    copy
}

/// The cut of an inverter that has the leaves of a cut of what it reads.
pub fn inverse<const K: usize>(cut: &Cut<K>) -> Cut<K>
    requires { K ≤ 6 }
    ensures leaves { result.leaves.items ≡ cut.now.leaves.items }
    ensures value { (f : ℕ → Bool) → cut_value result f ≡ not (cut_value cut.now f) }
{
    Cut {
        leaves: copied(cut.leaves.as_slice()),
        word: cut.word.not(),
    }
}

/// The nodes of both lists; None where there are more than K.
fn joined<const K: usize>(first: &[u32], second: &[u32]) -> Option<ArrayVec<u32, K>>
    requires few { length first.now ≤ K }
    requires once { (x : ℕ) → times x first.now ≤ 1 }
    ensures some { IfSome result (λ nodes. IsUnion first.now second.now nodes.items) }
    ensures none { IfNone result (K < length first.now + length second.now) }
    ensures wide { IfNone result ((nodes : List ℕ) → IsUnion first.now second.now nodes → K < length nodes) }
{
    let mut nodes: ArrayVec<u32, K> = copied(first);
    for leaf in second {
        let node = *leaf;
        if place(nodes.as_slice(), node) == nodes.len() {
            if nodes.is_full() {
                return None;
            }
            nodes.push(node);
        }
    }
    Some(nodes)
}

/// The function over other nodes, among which its leaves are.
fn on_nodes<const K: usize>(word: Truth<K>, nodes: &[u32], leaves: &[u32]) -> Truth<K>
    requires few { K ≤ 6 }
    requires leaves { length leaves.now ≤ K }
    requires nodes { length nodes.now ≤ K }
    requires known { (x : ℕ) → 0 < times x leaves.now → 0 < times x nodes.now }
    ensures { (f : ℕ → Bool) → value_of result.word (map f nodes.now) ≡ value_of word.entry.word (map f leaves.now) }
{
    let places = places(nodes, leaves);
    word.gathered(places.as_slice())
}

/// The cut of a gate from a cut of each node that it reads; None where it would have more than K leaves.
pub fn merged<const K: usize>(first: &Cut<K>, second: &Cut<K>) -> Option<Cut<K>>
    requires few { K ≤ 6 }
    requires once { (x : ℕ) → times x first.now.leaves.items ≤ 1 }
    ensures leaves { IfSome result (λ c. IsUnion first.now.leaves.items second.now.leaves.items c.leaves.items) }
    ensures value { IfSome result (λ c. (f : ℕ → Bool) → cut_value c f ≡ not (cut_value first.now f && cut_value second.now f)) }
    ensures none { IfNone result (K < length first.now.leaves.items + length second.now.leaves.items) }
    ensures wide { IfNone result ((nodes : List ℕ) → IsUnion first.now.leaves.items second.now.leaves.items nodes → K < length nodes) }
{
    match joined(first.leaves.as_slice(), second.leaves.as_slice()) {
        None => None,
        Some(leaves) => {
            let a = on_nodes(first.word, leaves.as_slice(), first.leaves.as_slice());
            let b = on_nodes(second.word, leaves.as_slice(), second.leaves.as_slice());
            let word = a.and(b).not();
            Some(Cut { leaves, word })
        }
    }
}
