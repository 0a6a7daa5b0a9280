// Shapes of one metal that meet, found along bands.
ghost use Rattle.std.specs.Prelude.{◌≡◌, ◌<◌, ◌≤◌, ◌↔◌, length, slice_index_or, IsTrue, OnOk, ◌^◌};
ghost use Rattle.std.specs.List.Sorted.{IsPermutation};
ghost use Rattle.sym_shapes.specs.Joints.{Grows};
ghost use Rattle.sym_shapes.specs.Sweep.{InBand, PlacesWithin, CoversRuns, CoversFrom, Ordered, CoversTouching};

use crate::Shape;
use crate::bands::{cuts, entries};
use crate::forest::Forest;
use crate::holders::join_held;
use crate::shape::touching;
use std::alloc::{AllocError, Global};

/// A shape in one band that it touches, from its left to its right end there: entries stand in the order of their metals, bands
/// and left ends.
#[derive(Clone, Copy, PartialEq, Eq, PartialOrd, Ord)]
pub struct Entry {
    pub metal: u8,
    pub band: u64,
    pub left: i64,
    pub right: i64,
    pub place: u32,
}

/// Whether an entry is in the band of the first, and not right of it.
fn in_band(first: &Entry, entry: &Entry) -> bool
    ensures { IsTrue result ↔ InBand first.now entry.now }
{
    entry.metal == first.metal && entry.band == first.band && entry.left <= first.right
}

/// Where the run of an entry ends: the entries behind it in its band that aren't right of it.
fn run_end(entries: &[Entry], p: usize) -> usize
    requires { p < length entries.now }
    ensures after { p < result }
    ensures within { result ≤ length entries.now }
    ensures last { (d : Entry) → result < length entries.now
        → ¬ (InBand (slice_index_or entries.now p d) (slice_index_or entries.now result d)) }
{
    let mut end = p + 1;
    while end < entries.len() && in_band(&entries[p], &entries[end]) {
        end += 1;
    }
    end
}

/// Puts the shape of an entry into one group with those of its run that it meets.
fn join_run(
    forest: &mut Forest,
    shapes: &[Shape],
    entries: &[Entry],
    p: usize,
) -> Result<(), AllocError>
    requires count { length forest.old.groups ≡ length shapes.now }
    requires places { PlacesWithin shapes.now entries.now }
    requires p_within { p < length entries.now }
    ensures grows { OnOk result (Grows shapes.now forest.old forest.new) }
    ensures covers { OnOk result (CoversFrom shapes.now entries.now forest.new.groups p) }
{
    let first = entries[p].place;
    let end = run_end(entries, p);
    for q in p + 1..end {
        let second = entries[q].place;
        if touching(&shapes[first as usize], &shapes[second as usize]) {
            forest.link(first, second)?;
        }
    }
    Ok(())
}

/// Puts shapes that meet into one group, as far as one entry is in the run of the other.
fn join_runs(forest: &mut Forest, shapes: &[Shape], entries: &[Entry]) -> Result<(), AllocError>
    requires count { length forest.old.groups ≡ length shapes.now }
    requires places { PlacesWithin shapes.now entries.now }
    ensures grows { OnOk result (Grows shapes.now forest.old forest.new) }
    ensures covers { OnOk result (CoversRuns shapes.now entries.now forest.new.groups (length entries.now)) }
{
    for p in 0..entries.len() {
        join_run(forest, shapes, entries, p)?;
    }
    Ok(())
}

/// The entries in order.
fn in_order(entries: &mut Vec<Entry>) -> Result<(), AllocError>
    ensures same { IsPermutation entries.old.items entries.new.items }
    ensures ordered { OnOk result (Ordered entries.new.items) }
{
    entries.sort()?;
    Ok(())
}

/// Puts each two shapes that meet on one metal into one group. Takes memory for a few entries a shape.
pub fn join_touching(alloc: Global, forest: &mut Forest, shapes: &[Shape]) -> Result<(), AllocError>
    requires room { length shapes.now < 2 ^ 32 }
    requires count { length forest.old.groups ≡ length shapes.now }
    ensures grows { OnOk result (Grows shapes.now forest.old forest.new) }
    ensures covers { OnOk result (CoversTouching shapes.now forest.new.groups) }
{
    let kept = join_held(alloc, forest, shapes)?;
    let cuts = cuts(shapes);
    let mut entries = entries(alloc, shapes, &kept, &cuts)?;
    in_order(&mut entries)?;
    join_runs(forest, shapes, &entries)?;
    Ok(())
}
