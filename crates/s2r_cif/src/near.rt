// Shapes whose boxes would meet though they don't.
ghost use Rattle.std.specs.Prelude.{◌≡◌, ◌↔◌, ◌<◌, ◌^◌, All, IfErr, IfOk, IsTrue, MatchOption, OnOk, length};
ghost use Rattle.sym_geom.specs.Rect.{HasReach};
ghost use Rattle.sym_near.specs.Related.{AreRelated, shape_at};
ghost use Rattle.sym_near.specs.declared.near.Relation.TheVariants as relation;
ghost use Rattle.s2r_cif.specs.Real.{AllWithinGap, AreClose, IsRealTable, grow_of};
ghost use Rattle.s2r_cif.specs.Refused.{IsFirstNear, IsNearRefusal, NoneNear};
ghost use Rattle.s2r_cif.specs.declared.error.RealError.TheVariants as error;

use crate::error::RealError;
use crate::scaling::are_close;
use crate::table::{RealTable, grow_of, widest_gap};
use std::alloc::{AllocError, Global};
use sym_near::{Pair, near_pairs};
use sym_shapes::Shape;

/// Whether two shapes of one metal are so close that their boxes meet.
fn grow_together(table: &RealTable, shapes: &[Shape], pair: &Pair) -> bool
    requires table { IsRealTable table.now }
    requires reach { All (λ s. HasReach s.rect) shapes.now }
    requires first { pair.now.first < length shapes.now }
    requires second { pair.now.second < length shapes.now }
    ensures { let a = shape_at shapes.now pair.now.first in
        IsTrue result ↔ AreClose table.now.scale (grow_of table.now a.metal) a.rect (shape_at shapes.now pair.now.second).rect }
{
    let one = &shapes[pair.first as usize];
    let other = &shapes[pair.second as usize];
    let grow = grow_of(table, one.metal());
    are_close(table.scale, grow, &one.rect(), &other.rect())
}

/// The first of the pairs with this gap that are so close that their boxes meet.
fn first_close(table: &RealTable, shapes: &[Shape], gap: u32, near: &[Pair]) -> Option<Pair>
    requires table { IsRealTable table.now }
    requires reach { All (λ s. HasReach s.rect) shapes.now }
    requires near { AreRelated shapes.now (relation.Near gap) near.now }
    requires within { AllWithinGap table.now gap }
    ensures { MatchOption result (NoneNear table.now shapes.now) (λ p. IsFirstNear table.now shapes.now p.first p.second) }
{
    for pair in near {
        if grow_together(table, shapes, pair) {
            return Some(*pair);
        }
    }
    None
}

/// The first two shapes of one metal that don't touch, but whose boxes would. Takes memory for a few entries a shape, and for the
/// pairs of shapes whose gap is at most the largest at which shapes of some metal grow together.
fn first_near(
    alloc: Global,
    table: &RealTable,
    shapes: &[Shape],
) -> Result<Option<Pair>, AllocError>
    requires table { IsRealTable table.now }
    requires few { length shapes.now < 2 ^ 32 }
    requires reach { All (λ s. HasReach s.rect) shapes.now }
    ensures { IfOk result (λ found. MatchOption found (NoneNear table.now shapes.now) (λ p. IsFirstNear table.now shapes.now p.first p.second)) }
{
    let gap = widest_gap(table);
    let pairs = near_pairs(alloc, shapes, gap)?;
    Ok(first_close(table, shapes, gap, &pairs.near))
}

/// The metal and the rectangles of two shapes that are too near.
fn too_near(shapes: &[Shape], pair: &Pair) -> RealError
    requires first { pair.now.first < length shapes.now }
    requires second { pair.now.second < length shapes.now }
    ensures { let a = shape_at shapes.now pair.now.first in result ≡ error.Near a.metal a.rect (shape_at shapes.now pair.now.second).rect }
{
    let one = &shapes[pair.first as usize];
    let other = &shapes[pair.second as usize];
    RealError::Near {
        metal: one.metal(),
        a: one.rect(),
        b: other.rect(),
    }
}

/// Refuses shapes of one metal that don't touch, but whose boxes would: the first two such.
pub fn keep_apart(alloc: Global, table: &RealTable, shapes: &[Shape]) -> Result<(), RealError>
    requires table { IsRealTable table.now }
    requires few { length shapes.now < 2 ^ 32 }
    requires reach { All (λ s. HasReach s.rect) shapes.now }
    ensures apart { OnOk result (NoneNear table.now shapes.now) }
    ensures refused { IfErr result (λ e. IsNearRefusal table.now shapes.now e) }
{
    match first_near(alloc, table, shapes)? {
        Some(pair) => Err(too_near(shapes, &pair)),
        None => Ok(()),
    }
}
