// The cuts of a graph.
ghost use Rattle.std.specs.Prelude.{◌≡◌, ◌<◌, ◌≤◌, ◌+◌, ◌^◌, ℕ, Bool, List, map, length, IfOk};
ghost use Rattle.net_theory.specs.Sources.{IsNumber};
ghost use Rattle.graph_theory.specs.Graph.{fixed, ReadsBelow, EachReadsEarlier};
ghost use Rattle.subject_table.specs.View.{node_view};
ghost use Rattle.cell_match.specs.declared.cut.Cut.{Cut};
ghost use Rattle.boog_cuts.specs.Cuts.{AllGive, AllLeaves, HasDirect, AreCuts, AreNodeCuts, IsCutTable};

use crate::flow::{Flows, best_pairs};
use crate::merge::single;
use crate::nodes::{inv_cuts, nand_cuts};
use arrayvec::ArrayVec;
use cell_match::Cut;
use std::alloc::{AllocError, Global};
use subject_graph::{Graph, Node};
use truth_tab::Truth;

/// For each input, register and node its cuts, the node itself first.
#[derive(Drop)]
pub struct CutTable<const K: usize> {
    pub cuts: Vec<Vec<Cut<K>>>,
}

fn own_cut<const K: usize>(alloc: Global, number: u32) -> Result<Vec<Cut<K>>, AllocError>
    requires some { 2 ≤ K }
    requires few { K ≤ 6 }
    ensures cuts { IfOk result (λ cuts. AreCuts number cuts.items) }
    ensures value { IfOk result (λ cuts. (f : ℕ → Bool) → AllGive f (f number) cuts.items) }
    ensures one { IfOk result (λ cuts. length cuts.items ≡ 1) }
    ensures leaves { IfOk result (λ cuts. AllLeaves (λ x. x ≡ number) cuts.items) }
{
    let mut cuts = Vec::new(alloc);
    cuts.push(single(number))?;
    Ok(cuts)
}

fn fixed_cuts<const K: usize>(
    alloc: Global,
    number: u32,
    value: bool,
) -> Result<Vec<Cut<K>>, AllocError>
    requires some { 2 ≤ K }
    requires few { K ≤ 6 }
    ensures cuts { IfOk result (λ cuts. AreCuts number cuts.items) }
    ensures value { IfOk result (λ cuts. (f : ℕ → Bool) → f number ≡ value → AllGive f (f number) cuts.items) }
    ensures leaves { IfOk result (λ cuts. AllLeaves (λ x. x ≡ number) cuts.items) }
    ensures direct { IfOk result (λ cuts. HasDirect (fixed value) cuts.items) }
{
    let mut cuts = own_cut(alloc, number)?;
    cuts.push(Cut {
        leaves: ArrayVec::new(),
        word: Truth::constant(value),
    })?;
    Ok(cuts)
}

/// The cuts of a node from those of the numbers before it. Takes memory for them.
fn node_cuts<const K: usize>(
    alloc: Global,
    number: u32,
    node: &Node,
    cuts: &[Vec<Cut<K>>],
    flows: &Flows,
) -> Result<Vec<Cut<K>>, AllocError>
    requires some { 2 ≤ K }
    requires few { K ≤ 6 }
    requires next { length cuts.now ≡ number }
    requires reads { ReadsBelow number (node_view node.now) }
    requires sound { (a : ℕ) (list : List (Cut K)) → IsNumber (map (λ v. v.items) cuts.now) a list → AreCuts a list }
    ensures { IfOk result (λ own. AreNodeCuts (node_view node.now) number (map (λ v. v.items) cuts.now) own.items) }
{
    match node {
        Node::Fixed(value) => fixed_cuts(alloc, number, *value),
        Node::Inv(a) => inv_cuts(alloc, number, cuts[*a as usize].as_slice()),
        Node::Nand(a, b) => {
            let first = cuts[*a as usize].as_slice();
            let second = cuts[*b as usize].as_slice();
            let pairs = best_pairs(alloc, first, second, flows)?;
            nand_cuts(alloc, number, first, second, &pairs)
        }
    }
}

/// The same, and enters what the node costs. Takes memory for it.
fn next_cuts<const K: usize>(
    alloc: Global,
    number: u32,
    node: &Node,
    cuts: &[Vec<Cut<K>>],
    flows: &mut Flows,
) -> Result<Vec<Cut<K>>, AllocError>
    requires some { 2 ≤ K }
    requires few { K ≤ 6 }
    requires next { length cuts.now ≡ number }
    requires reads { ReadsBelow number (node_view node.now) }
    requires sound { (a : ℕ) (list : List (Cut K)) → IsNumber (map (λ v. v.items) cuts.now) a list → AreCuts a list }
    ensures { IfOk result (λ own. AreNodeCuts (node_view node.now) number (map (λ v. v.items) cuts.now) own.items) }
{
    let own = node_cuts(alloc, number, node, cuts, flows)?;
    flows.enter(own.as_slice())?;
    Ok(own)
}

/// At most 13 cuts of each node, each with at most K leaves, and of each input and register itself: the node itself, what it reads, and
/// the cheapest others, where each leaf's cost is shared among its readers. The first node of the graph has number `held`. Takes memory
/// for them.
pub fn cuts<const K: usize>(alloc: Global, held: u32, g: &Graph) -> Result<CutTable<K>, AllocError>
    requires some { 2 ≤ K }
    requires few { K ≤ 6 }
    requires numbers { held + length g.now.nodes < 2 ^ 32 }
    requires earlier { EachReadsEarlier held g.now.nodes }
    ensures { IfOk result (λ t. IsCutTable held g.now.nodes (map (λ v. v.items) t.cuts.items)) }
{
    let mut flows = Flows::new(alloc, held, g)?;
    let mut cuts: Vec<Vec<Cut<K>>> = Vec::new(alloc);
    for number in 0..held {
        cuts.push(own_cut(alloc, number)?)?;
    }
    for node in g.nodes() {
        let number = cuts.len() as u32;
        let own = next_cuts(alloc, number, node, &cuts, &mut flows)?;
        cuts.push(own)?;
    }
    Ok(CutTable { cuts })
}
