// Boxes on one layer that are nearer than the table says.
ghost use Rattle.std.specs.Prelude.{◌≡◌, ◌++◌, ◌∷◌, [], ◌⊎◌, ◌<◌, ◌^◌, IfErr, IfOk, OnOk, MatchOption, All, length};
ghost use Rattle.sym_near.specs.Related.{shape_at};
ghost use Rattle.real_boxes.specs.declared.error.ProcessError.TheVariants as error;
ghost use Rattle.real_boxes.specs.Refused.{IsEntryRefusal, IsFirstNear, IsNearRefusal, KeepsApart, NoneNear, on_layer};
ghost use Rattle.real_boxes.specs.Shapes.{shapes_of};

use crate::boxes::{RealBox, layer_of};
use crate::error::ProcessError;
use real_table::Entry;
use std::alloc::{AllocError, Global};
use sym_geom::Rect;
use sym_near::{Pair, near_pairs};
use sym_shapes::Shape;
use vlsi_base::Text;

/// Puts a box, if it is on this layer, as a shape behind those that are there.
fn put_shape(shapes: &mut Vec<Shape>, one: &RealBox, layer: u64) -> Result<(), AllocError>
    ensures { OnOk result (shapes.new.items ≡ shapes.old.items ++ shapes_of (on_layer layer (one.now ∷ []))) }
{
    if one.layer != layer {
        return Ok(());
    }
    shapes.push(Shape::new(1, one.rect, None, 0, None))?;
    Ok(())
}

/// The boxes on a layer as shapes of one metal, in their order.
fn shapes_on(alloc: Global, boxes: &[RealBox], layer: u64) -> Result<Vec<Shape>, AllocError>
    ensures { IfOk result (λ shapes. shapes.items ≡ shapes_of (on_layer layer boxes.now)) }
{
    let mut shapes = Vec::new(alloc);
    for one in boxes {
        put_shape(&mut shapes, one, layer)?;
    }
    Ok(shapes)
}

/// The rectangles of the first and the second shape of a pair.
fn rects_of(shapes: &[Shape], pair: &Pair) -> (Rect, Rect)
    requires first { pair.now.first < length shapes.now }
    requires second { pair.now.second < length shapes.now }
    ensures one { result.0 ≡ (shape_at shapes.now pair.now.first).rect }
    ensures other { result.1 ≡ (shape_at shapes.now pair.now.second).rect }
{
    let one = &shapes[pair.first as usize];
    let other = &shapes[pair.second as usize];
    (one.rect(), other.rect())
}

/// The first two boxes on a layer that don't meet and whose gap is less than this. Takes memory for a few entries a box, and for all
/// such pairs.
fn first_near(
    alloc: Global,
    boxes: &[RealBox],
    layer: u64,
    gap: u32,
) -> Result<Option<(Rect, Rect)>, AllocError>
    requires { length boxes.now < 2 ^ 32 }
    ensures { IfOk result (λ found. MatchOption found (NoneNear (on_layer layer boxes.now) gap) (λ p. IsFirstNear (on_layer layer boxes.now) gap p.0 p.1)) }
{
    let shapes = shapes_on(alloc, boxes, layer)?;
    let pairs = near_pairs(alloc, &shapes, gap)?;
    if pairs.near.is_empty() {
        return Ok(None);
    }
    Ok(Some(rects_of(&shapes, &pairs.near[0])))
}

/// Refuses boxes that a line of the table keeps apart, and that are too near.
fn check_entry(
    alloc: Global,
    entries: &[Entry],
    boxes: &[RealBox],
    entry: &Entry,
) -> Result<(), ProcessError>
    requires { length boxes.now < 2 ^ 32 }
    ensures apart { OnOk result (KeepsApart entries.now boxes.now entry.now) }
    ensures refused { IfErr result (λ e. IsEntryRefusal entries.now boxes.now entry.now e) }
{
    let Entry::Space { real, gap } = entry else {
        return Ok(());
    };
    let layer = layer_of(entries, real.as_bytes()) as u64;
    let found = first_near(alloc, boxes, layer, *gap)?;
    match found {
        Some(two) => Err(too_near(alloc, real, two.0, two.1)),
        None => Ok(()),
    }
}

fn too_near(alloc: Global, real: &Text, a: Rect, b: Rect) -> ProcessError
    ensures { (result ≡ error.Memory) ⊎ (result ≡ error.Near real.now a b) }
{
    match real.copy(alloc) {
        Ok(real) => ProcessError::Near { real, a, b },
        Err(_) => ProcessError::Memory,
    }
}

/// Refuses the first two boxes that are too near, of the first line of the table that keeps them apart.
pub fn keep_apart(alloc: Global, entries: &[Entry], boxes: &[RealBox]) -> Result<(), ProcessError>
    requires { length boxes.now < 2 ^ 32 }
    ensures apart { OnOk result (All (KeepsApart entries.now boxes.now) entries.now) }
    ensures refused { IfErr result (λ e. IsNearRefusal entries.now boxes.now e) }
{
    for entry in entries {
        check_entry(alloc, entries, boxes, entry)?;
    }
    Ok(())
}
