// The cuts of gates within their trees.
ghost use Rattle.std.specs.Prelude.{◌≡◌, ◌<◌, ◌≤◌, ◌+◌, ◌^◌, [], ℕ, length, if◌then◌else◌, IfOk, OnOk};
ghost use Rattle.graph_theory.specs.Graph.{EachReadsEarlier};
ghost use Rattle.cell_match.specs.Places.{times};
ghost use Rattle.boog_tree.specs.Trees.{root_uses};
ghost use Rattle.boog_tree.specs.Counted.{AreInner};
ghost use Rattle.boog_tree.specs.Cuts.{AreTreeCuts, AreTreeParts, AreOnce};
ghost use Rattle.boog_tree.specs.Joined.{AreInverses, IsGrownBy, AreJoined, HasItself};

use crate::inner::inner_gates;
use boog_cuts::{inverse, merged, single};
use boog_part::NeededPart;
use cell_match::Cut;
use std::alloc::{AllocError, Global};
use subject_graph::Node;

/// The most members of a cut that a cell can read.
pub const MOST_MEMBERS: usize = 6;

/// The inverses of cuts. Takes memory for them.
pub(crate) fn inverses<const K: usize>(
    alloc: Global,
    first: &[Cut<K>],
) -> Result<Vec<Cut<K>>, AllocError>
    requires { K ≤ 6 }
    ensures { IfOk result (λ cuts. AreInverses first.now cuts.items) }
{
    let mut cuts = Vec::new(alloc);
    for cut in first {
        cuts.push(inverse(cut))?;
    }
    Ok(cuts)
}

/// Adds what a cut gives with each of these, where they have few enough members together. Takes memory for them.
fn join_with<const K: usize>(
    cuts: &mut Vec<Cut<K>>,
    first: &Cut<K>,
    seconds: &[Cut<K>],
) -> Result<(), AllocError>
    requires few { K ≤ 6 }
    requires once { (x : ℕ) → times x first.now.leaves.items ≤ 1 }
    ensures { OnOk result (IsGrownBy cuts.old.items first.now seconds.now cuts.new.items) }
{
    for second in seconds {
        if let Some(cut) = merged(first, second) {
            cuts.push(cut)?;
        }
    }
    Ok(())
}

/// What each cut of the first gives with each of the second, where they have few enough members together. Takes memory for them.
fn joined<const K: usize>(
    alloc: Global,
    firsts: &[Cut<K>],
    seconds: &[Cut<K>],
) -> Result<Vec<Cut<K>>, AllocError>
    requires few { K ≤ 6 }
    requires once { AreOnce firsts.now }
    ensures { IfOk result (λ cuts. AreJoined firsts.now seconds.now cuts.items) }
{
    let mut cuts = Vec::new(alloc);
    for first in firsts {
        join_with(&mut cuts, first, seconds)?;
    }
    Ok(cuts)
}

/// The cuts of the next number within its tree. `parts` has for each number before it what may stand for that at a pin. Takes memory for the
/// cuts.
fn next_cuts<const K: usize>(
    alloc: Global,
    held: u32,
    graph: &NeededPart,
    parts: &[Vec<Cut<K>>],
) -> Result<Vec<Cut<K>>, AllocError>
    requires few { K ≤ 6 }
    requires there { length parts.now < held + length graph.now.nodes }
    requires earlier { EachReadsEarlier held graph.now.nodes }
    requires parts { AreTreeParts held graph.now parts.now }
    ensures { IfOk result (λ cuts. AreTreeCuts held graph.now (length parts.now) cuts.items) }
{
    let first = held as usize;
    if parts.len() < first {
        return Ok(Vec::new(alloc));
    }
    match &graph.nodes()[parts.len() - first] {
        Node::Fixed(_) => Ok(Vec::new(alloc)),
        Node::Inv(a) => inverses(alloc, parts[*a as usize].as_slice()),
        Node::Nand(a, b) => joined(
            alloc,
            parts[*a as usize].as_slice(),
            parts[*b as usize].as_slice(),
        ),
    }
}

/// What may stand for a number at a pin: the cuts of a gate that belongs to its user's tree, and the number itself. Takes memory for one cut.
pub(crate) fn parts_of<const K: usize>(
    alloc: Global,
    number: u32,
    inner: bool,
    cuts: Vec<Cut<K>>,
) -> Result<Vec<Cut<K>>, AllocError>
    requires some { 0 < K }
    requires few { K ≤ 6 }
    ensures { IfOk result (λ parts. HasItself number (if inner then cuts.entry.items else []) parts.items) }
{
    let mut parts = if inner { cuts } else { Vec::new(alloc) };
    parts.push(single(number))?;
    Ok(parts)
}

/// What may stand at a pin for each number before this one, by the marks of inner gates. Takes memory for all their cuts within trees.
fn parts_before<const K: usize>(
    alloc: Global,
    held: u32,
    graph: &NeededPart,
    inner: &[bool],
    number: u32,
) -> Result<Vec<Vec<Cut<K>>>, AllocError>
    requires some { 0 < K }
    requires few { K ≤ 6 }
    requires there { number < held + length graph.now.nodes }
    requires earlier { EachReadsEarlier held graph.now.nodes }
    requires inner { AreInner held graph.now inner.now }
    ensures many { IfOk result (λ parts. length parts.items ≡ number) }
    ensures parts { IfOk result (λ parts. AreTreeParts held graph.now parts.items) }
{
    let mut parts: Vec<Vec<Cut<K>>> = Vec::new(alloc);
    for before in 0..number {
        let cuts = next_cuts(alloc, held, graph, &parts)?;
        parts.push(parts_of(alloc, before, inner[before as usize], cuts)?)?;
    }
    Ok(parts)
}

/// The cuts of a number within its tree that have at most K members, each with its function; none of what is no gate. The first node of the
/// graph has number `held`. Takes memory, and time, for such cuts of all numbers up to this one: they may be very many where the same inputs are
/// read again and again.
pub fn tree_cuts<const K: usize>(
    alloc: Global,
    held: u32,
    graph: &NeededPart,
    number: u32,
) -> Result<Vec<Cut<K>>, AllocError>
    requires few { K ≤ 6 }
    requires there { number < held + length graph.now.nodes }
    requires numbers { held + length graph.now.nodes < 2 ^ 32 }
    requires earlier { EachReadsEarlier held graph.now.nodes }
    requires roots { (x : ℕ) → 0 < root_uses x graph.now → x < held + length graph.now.nodes }
    ensures { IfOk result (λ cuts. AreTreeCuts held graph.now number cuts.items) }
{
    if K == 0 {
        return Ok(Vec::new(alloc));
    }
    let inner = inner_gates(alloc, held, graph)?;
    let parts: Vec<Vec<Cut<K>>> = parts_before(alloc, held, graph, &inner, number)?;
    next_cuts(alloc, held, graph, &parts)
}
