// Shapes that lie within others of their metal: what touches one touches its holder too, so they needn't be swept.
ghost use Rattle.std.specs.Prelude.{◌≡◌, ℕ, ◌<◌, ◌^◌, length, All, Contains, IsTrue, OnOk, IfOk};
ghost use Rattle.sym_geom.specs.Rect.{Within};
ghost use Rattle.sym_shapes.specs.Holders.{LiesIn, AreSpots, HasHolder, HaveHolders};
ghost use Rattle.sym_shapes.specs.Joints.{Grows};
ghost use Rattle.sym_shapes.specs.Sweep.{Touch};

use crate::Shape;
use crate::forest::Forest;
use crate::shape::touching;
use std::alloc::{AllocError, Global};
use sym_geom::Rect;

/// Where a shape lies. In the order of these fields a shape stands behind all that hold it.
#[derive(Clone, Copy, PartialEq, Eq, PartialOrd, Ord)]
pub struct Spot {
    metal: u8,
    left: i64,
    right_reversed: i64,
    bottom: i64,
    top_reversed: i64,
    pub place: u32,
}

/// A number that is the lower, the higher the coordinate is.
fn reversed(x: &i64) -> i64 {
    i64::saturating_sub(-1, *x)
}

/// The spot of the shape at a place.
fn spot_of(shape: &Shape, place: u32) -> Spot
    ensures { result.place ≡ place }
{
    let rect = shape.rect();
    Spot {
        metal: shape.metal(),
        left: rect.x1,
        right_reversed: reversed(&rect.x2),
        bottom: rect.y1,
        top_reversed: reversed(&rect.y2),
        place,
    }
}

/// The spots of all shapes.
fn spots(alloc: Global, shapes: &[Shape]) -> Result<Vec<Spot>, AllocError>
    requires { length shapes.now < 2 ^ 32 }
    ensures { IfOk result (λ spots. AreSpots (length shapes.now) spots.items) }
{
    let mut spots = Vec::with_capacity(alloc, shapes.len())?;
    for k in 0..shapes.len() {
        spots.push(spot_of(&shapes[k], k as u32))?;
    }
    Ok(spots)
}

/// The spots of all shapes in their order.
fn spots_in_order(alloc: Global, shapes: &[Shape]) -> Result<Vec<Spot>, AllocError>
    requires { length shapes.now < 2 ^ 32 }
    ensures { IfOk result (λ spots. AreSpots (length shapes.now) spots.items) }
{
    let mut spots = spots(alloc, shapes)?;
    spots.sort()?;
    Ok(spots)
}

/// Whether the first rectangle lies within the second.
fn is_within(a: &Rect, b: &Rect) -> bool
    ensures { IsTrue result → Within a.now b.now }
{
    if a.x1 < b.x1 {
        return false;
    }
    if b.x2 < a.x2 {
        return false;
    }
    if a.y1 < b.y1 {
        return false;
    }
    a.y2 <= b.y2
}

/// Whether the first shape touches the second, and lies within it.
fn lies_in(a: &Shape, b: &Shape) -> bool
    ensures touch { IsTrue result → Touch a.now b.now }
    ensures within { IsTrue result → LiesIn a.now b.now }
{
    touching(a, b) && is_within(&a.rect(), &b.rect())
}

/// Puts a shape into the group of the last one that was kept, if it lies in that; else it is kept too.
fn hold_or_keep(
    kept: &mut Vec<u32>,
    forest: &mut Forest,
    shapes: &[Shape],
    place: u32,
) -> Result<(), AllocError>
    requires count { length forest.old.groups ≡ length shapes.now }
    requires within { place < length shapes.now }
    requires places { All (λ k. k < length shapes.now) kept.old.items }
    ensures grows { OnOk result (Grows shapes.now forest.old forest.new) }
    ensures places { OnOk result (All (λ k. k < length shapes.now) kept.new.items) }
    ensures stays { OnOk result ((k : ℕ) → Contains kept.old.items k → Contains kept.new.items k) }
    ensures holder { OnOk result (HasHolder shapes.now kept.new.items forest.new.groups place) }
{
    if let Some(last) = kept.last() {
        let holder = *last;
        if lies_in(&shapes[place as usize], &shapes[holder as usize]) {
            forest.link(place, holder)?;
            return Ok(());
        }
    }
    kept.push(place)?;
    Ok(())
}

/// Puts shapes into one group with others that hold them, as far as these are found at once, and tells the places of all
/// others. Takes memory for two entries a shape.
pub fn join_held(
    alloc: Global,
    forest: &mut Forest,
    shapes: &[Shape],
) -> Result<Vec<u32>, AllocError>
    requires room { length shapes.now < 2 ^ 32 }
    requires count { length forest.old.groups ≡ length shapes.now }
    ensures grows { OnOk result (Grows shapes.now forest.old forest.new) }
    ensures places { IfOk result (λ kept. All (λ k. k < length shapes.now) kept.items) }
    ensures holders { IfOk result (λ kept. HaveHolders shapes.now kept.items forest.new.groups) }
{
    let spots = spots_in_order(alloc, shapes)?;
    let mut kept = Vec::new(alloc);
    for k in 0..spots.len() {
        hold_or_keep(&mut kept, forest, shapes, spots[k].place)?;
    }
    Ok(kept)
}
