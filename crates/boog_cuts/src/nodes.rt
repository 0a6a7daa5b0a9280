// The cuts of each node.
ghost use Rattle.std.specs.Prelude.{◌≡◌, ◌⊎◌, ◌<◌, ◌≤◌, ◌+◌, ◌++◌, ◌∷◌, [], ◌^◌, ℕ, Bool, not, ◌&&◌, List, map, length, OnOk, IfOk};
ghost use Rattle.net_theory.specs.Sources.{IsNumber};
ghost use Rattle.cell_match.specs.Places.{times};
ghost use Rattle.cell_match.specs.declared.cut.Cut.{Cut};
ghost use Rattle.cell_match.specs.Computes.{cut_value};
ghost use Rattle.boog_cuts.specs.Cuts.{IsUnion, AllGive, AreCuts};
ghost use Rattle.boog_cuts.specs.Lists.{IsMore, AreMade, IsNandMade, IsInvMade, FromOne, FromTwo, BeginsOne, BeginsTwo};

use crate::flow::Pair;
use crate::merge::{inverse, merged, single};
use cell_match::{Cut, place};
use std::alloc::{AllocError, Global};

/// How many cuts of each node are kept beside the node itself.
pub const KEPT: usize = 12;

/// Whether a cut has these leaves, in whatever order.
fn has_leaves<const K: usize>(cuts: &[Cut<K>], leaves: &[u32]) -> bool {
    for cut in cuts {
        if cut.leaves.len() == leaves.len() && holds_all(cut.leaves.as_slice(), leaves) {
            return true;
        }
    }
    false
}

fn holds_all(nodes: &[u32], leaves: &[u32]) -> bool {
    for leaf in leaves {
        if place(nodes, *leaf) == nodes.len() {
            return false;
        }
    }
    true
}

/// Adds the cut of a gate from these two, where there is one that is not there yet, and room for it. Takes memory for it.
fn add<const K: usize>(
    cuts: &mut Vec<Cut<K>>,
    first: &Cut<K>,
    second: &Cut<K>,
) -> Result<(), AllocError>
    requires few { K ≤ 6 }
    requires once { (x : ℕ) → times x first.now.leaves.items ≤ 1 }
    ensures { OnOk result (IsMore (IsNandMade first.now second.now) cuts.old.items cuts.new.items) }
{
    if cuts.len() > KEPT {
        return Ok(());
    }
    if let Some(cut) = merged(first, second) {
        if !has_leaves(cuts, cut.leaves.as_slice()) {
            cuts.push(cut)?;
        }
    }
    Ok(())
}

/// The cuts of an inverter from those of the node that it reads. Takes memory for them.
pub(crate) fn inv_cuts<const K: usize>(
    alloc: Global,
    number: u32,
    first: &[Cut<K>],
) -> Result<Vec<Cut<K>>, AllocError>
    requires some { 0 < K }
    requires few { K ≤ 6 }
    requires there { 0 < length first.now }
    ensures made { IfOk result (λ cuts. AreMade (FromOne first.now) number cuts.items) }
    ensures begins { IfOk result (λ cuts. BeginsOne first.now cuts.items) }
{
    let mut cuts = Vec::new(alloc);
    cuts.push(single(number))?;
    cuts.push(inverse(&first[0]))?;
    for i in 1..first.len() {
        if cuts.len() <= KEPT {
            cuts.push(inverse(&first[i]))?;
        }
    }
    Ok(cuts)
}

/// The cuts of a gate from those of the nodes that it reads: the direct one, and those of these pairs. Takes memory for them.
pub(crate) fn nand_cuts<const K: usize>(
    alloc: Global,
    number: u32,
    first: &[Cut<K>],
    second: &[Cut<K>],
    pairs: &[Pair],
) -> Result<Vec<Cut<K>>, AllocError>
    requires some { 2 ≤ K }
    requires few { K ≤ 6 }
    requires there { 0 < length first.now }
    requires there_too { 0 < length second.now }
    requires fit { (a b : Cut K) → IsNumber first.now 0 a → IsNumber second.now 0 b → length a.leaves.items + length b.leaves.items ≤ 2 }
    requires once { (i : ℕ) (c : Cut K) → IsNumber first.now i c → (x : ℕ) → times x c.leaves.items ≤ 1 }
    ensures made { IfOk result (λ cuts. AreMade (FromTwo first.now second.now) number cuts.items) }
    ensures begins { IfOk result (λ cuts. BeginsTwo first.now second.now cuts.items) }
{
    let mut cuts = Vec::new(alloc);
    cuts.push(single(number))?;
    if let Some(cut) = merged(&first[0], &second[0]) {
        cuts.push(cut)?;
    } else {
        unreachable!();
    }
    for pair in pairs {
        if pair.first < first.len() && pair.second < second.len() {
            add(&mut cuts, &first[pair.first], &second[pair.second])?;
        }
    }
    Ok(cuts)
}
