// Shapes of one metal that are related, found along bands.
ghost use Rattle.std.specs.Prelude.{◌≡◌, ◌<◌, ◌≤◌, ◌+◌, ◌↔◌, length, IsTrue, OnOk, Contains, Some};
ghost use Rattle.std.specs.List.Sorted.{IsPermutation};
ghost use Rattle.sym_near.specs.Related.{Gains, Relates, pair};
ghost use Rattle.sym_near.specs.Sweep.{InBand, PlacesWithin, Ordered, Skips, SeesFrom, SeesRuns, entry_from};

use crate::near::{Pair, Relation, relates};
use std::alloc::AllocError;
use sym_shapes::Shape;

/// A shape in one band that it touches, from its left to its right end there: entries stand in the order of their metals, bands
/// and left ends.
#[derive(Clone, Copy, PartialEq, Eq, PartialOrd, Ord)]
pub struct Entry {
    pub metal: u8,
    pub band: u64,
    pub left: u64,
    pub right: u64,
    pub place: u32,
}

/// The entries in order.
pub fn in_order(entries: &mut Vec<Entry>) -> Result<(), AllocError>
    ensures same { IsPermutation entries.old.items entries.new.items }
    ensures ordered { OnOk result (Ordered entries.new.items) }
{
    entries.sort()?;
    Ok(())
}

/// Whether an entry is in the band of the first, and not right of it.
fn in_band(first: &Entry, entry: &Entry) -> bool
    ensures { IsTrue result ↔ InBand first.now entry.now }
{
    entry.metal == first.metal && entry.band == first.band && entry.left <= first.right
}

/// Whether an entry is in the band of the first, and begins where that one hasn't ended, the gap left out.
fn overlaps(first: &Entry, entry: &Entry, gap: u32) -> bool
    ensures same { IsTrue result → (entry.now.metal ≡ first.now.metal) × (entry.now.band ≡ first.now.band) }
    ensures before { IsTrue result → entry.now.left + gap ≤ first.now.right }
{
    if entry.metal != first.metal || entry.band != first.band {
        return false;
    }
    match first.right.checked_sub(u64::from(gap)) {
        Some(end) => entry.left <= end,
        None => false,
    }
}

/// Where the entries behind one end that overlap it in its band.
fn overlap_end(entries: &[Entry], gap: u32, p: usize) -> usize
    requires p_within { p < length entries.now }
    requires ordered { Ordered entries.now }
    ensures after { p < result }
    ensures within { result ≤ length entries.now }
    ensures skips { Skips (Some gap) entries.now p result }
{
    let mut low = p + 1;
    let mut high = entries.len();
    while low < high {
        let middle = low + (high - low) / 2;
        if overlaps(&entries[p], &entries[middle], gap) {
            low = middle + 1;
        } else {
            high = middle;
        }
    }
    low
}

/// The first entry behind one at which the sweep looks: all are, or where a gap is given those that don't overlap it.
fn run_start(entries: &[Entry], beside: Option<u32>, p: usize) -> usize
    requires p_within { p < length entries.now }
    requires ordered { Ordered entries.now }
    ensures after { p < result }
    ensures within { result ≤ length entries.now }
    ensures skips { Skips beside entries.now p result }
{
    match beside {
        Some(gap) => overlap_end(entries, gap, p),
        None => p + 1,
    }
}

/// Where the run of an entry ends, from one behind it on: the entries in its band that aren't right of it.
fn run_end(entries: &[Entry], p: usize, start: usize) -> usize
    requires p_within { p < length entries.now }
    requires after { p < start }
    requires within { start ≤ length entries.now }
    ensures from { start ≤ result }
    ensures within { result ≤ length entries.now }
    ensures last { result < length entries.now → ¬ (InBand (entry_from entries.now p) (entry_from entries.now result)) }
{
    let mut end = start;
    while end < entries.len() && in_band(&entries[p], &entries[end]) {
        end += 1;
    }
    end
}

/// Puts two shapes behind the pairs, if the first is so related to the second.
fn put(
    pairs: &mut Vec<Pair>,
    shapes: &[Shape],
    relation: Relation,
    first: u32,
    second: u32,
) -> Result<(), AllocError>
    requires first { first < length shapes.now }
    requires second { second < length shapes.now }
    ensures gains { OnOk result (Gains shapes.now relation pairs.old.items pairs.new.items) }
    ensures has { OnOk result (Relates shapes.now relation first second → Contains pairs.new.items (pair first second)) }
{
    if !relates(shapes, relation, first, second) {
        return Ok(());
    }
    pairs.push(Pair { first, second })?;
    Ok(())
}

/// Which pairs of shapes are looked for, and at which entries behind each the sweep looks: at all of its run, or where a gap is given
/// at those that don't overlap it.
#[derive(Clone, Copy)]
pub struct Search {
    pub relation: Relation,
    pub beside: Option<u32>,
}

/// Looks at the shape of an entry and at those of its run.
fn look_run(
    pairs: &mut Vec<Pair>,
    shapes: &[Shape],
    search: Search,
    entries: &[Entry],
    p: usize,
) -> Result<(), AllocError>
    requires places { PlacesWithin shapes.now entries.now }
    requires ordered { Ordered entries.now }
    requires p_within { p < length entries.now }
    ensures gains { OnOk result (Gains shapes.now search.relation pairs.old.items pairs.new.items) }
    ensures sees { OnOk result (SeesFrom shapes.now search.relation search.beside entries.now pairs.new.items p) }
{
    let relation = search.relation;
    let first = entries[p].place;
    let start = run_start(entries, search.beside, p);
    let end = run_end(entries, p, start);
    for q in start..end {
        let second = entries[q].place;
        put(pairs, shapes, relation, first, second)?;
        put(pairs, shapes, relation, second, first)?;
    }
    Ok(())
}

/// Looks at the shapes of each entry and of its run.
pub fn look_all(
    pairs: &mut Vec<Pair>,
    shapes: &[Shape],
    search: Search,
    entries: &[Entry],
) -> Result<(), AllocError>
    requires places { PlacesWithin shapes.now entries.now }
    requires ordered { Ordered entries.now }
    ensures gains { OnOk result (Gains shapes.now search.relation pairs.old.items pairs.new.items) }
    ensures sees { OnOk result (SeesRuns shapes.now search.relation search.beside entries.now pairs.new.items (length entries.now)) }
{
    for p in 0..entries.len() {
        look_run(pairs, shapes, search, entries, p)?;
    }
    Ok(())
}
