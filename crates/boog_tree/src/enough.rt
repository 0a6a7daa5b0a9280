// The cuts of gates within their trees, without those that another is as good as.
ghost use Rattle.std.specs.Prelude.{◌≡◌, ◌<◌, ◌≤◌, ◌+◌, ℕ, List, map, length, slice_index, IfOk, OnOk, IfSome};
ghost use Rattle.bool_expr.specs.Expression.{bit};
ghost use Rattle.net_theory.specs.Sources.{IsNumber};
ghost use Rattle.graph_theory.specs.Graph.{EachReadsEarlier};
ghost use Rattle.cell_match.specs.Places.{times};
ghost use Rattle.cell_match.specs.declared.cut.Cut.{Cut};
ghost use Rattle.boog_tree.specs.Counted.{AreInner};
ghost use Rattle.boog_tree.specs.Cuts.{AreOnce};
ghost use Rattle.boog_tree.specs.Alike.{HasAlikeAt, IsKept, IsKeptFrom, AreKept};
ghost use Rattle.boog_tree.specs.Enough.{AreEnoughCuts, AreEnoughParts};

use crate::alike::{are_alike, sum};
use crate::cuts::{MOST_MEMBERS, inverses};
use crate::order::merged_in_order;
use boog_part::NeededPart;
use cell_match::Cut;
use std::alloc::{AllocError, Global};
use subject_graph::Node;

/// The place of a cut that is like this one.
fn place_alike(cuts: &[Cut<MOST_MEMBERS>], cut: &Cut<MOST_MEMBERS>, inner: &[bool]) -> Option<usize>
    ensures there { IfSome result (λ at. at < length cuts.now) }
    ensures alike { IfSome result (λ at. HasAlikeAt (bit inner.now) cuts.now at cut.now) }
{
    for (at, other) in cuts.iter().enumerate() {
        if are_alike(other, cut, inner) {
            return Some(at);
        }
    }
    None
}

/// Puts a cut in the place of another, where its members in the tree cost less.
fn improve(
    cuts: &mut [Cut<MOST_MEMBERS>],
    at: usize,
    cut: Cut<MOST_MEMBERS>,
    inner: &[bool],
    bounds: &[u64],
)
    requires there { at < length cuts.old }
    requires alike { HasAlikeAt (bit inner.now) cuts.old at cut }
    ensures { IsKept (bit inner.now) (slice_index bounds.now) cuts.old cut cuts.new }
{
    let old = sum(cuts[at].leaves.as_slice(), inner, bounds);
    if sum(cut.leaves.as_slice(), inner, bounds) < old {
        cuts[at] = cut;
    }
}

/// Adds a cut, unless one like it is there: then that one stays whose members in the tree cost less. Takes memory for it.
fn keep(
    cuts: &mut Vec<Cut<MOST_MEMBERS>>,
    cut: Cut<MOST_MEMBERS>,
    inner: &[bool],
    bounds: &[u64],
) -> Result<(), AllocError>
    ensures { OnOk result (IsKept (bit inner.now) (slice_index bounds.now) cuts.old.items cut cuts.new.items) }
{
    match place_alike(cuts, &cut, inner) {
        Some(at) => improve(cuts, at, cut, inner, bounds),
        None => cuts.push(cut)?,
    }
    Ok(())
}

/// Keeps what a cut gives with each of these, where they have few enough members together. Takes memory for what is new.
fn keep_with(
    cuts: &mut Vec<Cut<MOST_MEMBERS>>,
    first: &Cut<MOST_MEMBERS>,
    seconds: &[Cut<MOST_MEMBERS>],
    inner: &[bool],
    bounds: &[u64],
) -> Result<(), AllocError>
    requires { (x : ℕ) → times x first.now.leaves.items ≤ 1 }
    ensures { OnOk result (IsKeptFrom (bit inner.now) (slice_index bounds.now) cuts.old.items first.now seconds.now cuts.new.items) }
{
    for second in seconds {
        if let Some(cut) = merged_in_order(first, second, inner) {
            keep(cuts, cut, inner, bounds)?;
        }
    }
    Ok(())
}

/// Of what each cut of the first gives with each of the second the cheapest of those that are alike. Takes memory for them.
fn kept(
    alloc: Global,
    firsts: &[Cut<MOST_MEMBERS>],
    seconds: &[Cut<MOST_MEMBERS>],
    inner: &[bool],
    bounds: &[u64],
) -> Result<Vec<Cut<MOST_MEMBERS>>, AllocError>
    requires { AreOnce firsts.now }
    ensures { IfOk result (λ cuts. AreKept (bit inner.now) (slice_index bounds.now) firsts.now seconds.now cuts.items) }
{
    let mut cuts = Vec::new(alloc);
    for first in firsts {
        keep_with(&mut cuts, first, seconds, inner, bounds)?;
    }
    Ok(cuts)
}

/// Enough cuts of the next number within its tree: of those that differ only in which gates of the tree they read, the one whose members there
/// have the least bounds together. So a number has few cuts even where the same inputs are read again and again. `parts` has for each number
/// before it enough of what may stand for that at a pin. Takes memory for the cuts.
pub(crate) fn enough_cuts(
    alloc: Global,
    held: u32,
    graph: &NeededPart,
    parts: &[Vec<Cut<MOST_MEMBERS>>],
    inner: &[bool],
    bounds: &[u64],
) -> Result<Vec<Cut<MOST_MEMBERS>>, AllocError>
    requires there { length parts.now < held + length graph.now.nodes }
    requires earlier { EachReadsEarlier held graph.now.nodes }
    requires inner { AreInner held graph.now inner.now }
    requires parts { (x : ℕ) (l : List (Cut 6)) → IsNumber (map (λ v. v.items) parts.now) x l → AreEnoughParts held graph.now (slice_index bounds.now) x l }
    ensures { IfOk result (λ cuts. AreEnoughCuts held graph.now (slice_index bounds.now) (length parts.now) cuts.items) }
{
    let first = held as usize;
    if parts.len() < first {
        return Ok(Vec::new(alloc));
    }
    match &graph.nodes()[parts.len() - first] {
        Node::Fixed(_) => Ok(Vec::new(alloc)),
        Node::Inv(a) => inverses(alloc, parts[*a as usize].as_slice()),
        Node::Nand(a, b) => kept(
            alloc,
            parts[*a as usize].as_slice(),
            parts[*b as usize].as_slice(),
            inner,
            bounds,
        ),
    }
}
