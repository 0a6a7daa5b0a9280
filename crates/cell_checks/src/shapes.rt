// What the checks ask of single shapes.
ghost use Rattle.std.specs.Prelude.{◌≡◌, ◌↔◌, ◌⊎◌, ◌≤ℤ◌, ◌-ℤ◌, ◌+ℤ◌, pos, IsTrue, Any, All, Some, IfSome, IfNone, ℤ, ◌^◌, ◌-◌};
ghost use Rattle.sym_geom.specs.Rect.{Within, Apart};
ghost use Rattle.cell_checks.specs.Checks.{IsInside};
ghost use Rattle.cell_checks.specs.Shapes.{IsRail, FitsPad, IsReachedBy, KeepsIn, HasReach, IsLineAbove, IsFirstLine};

use cell_model::Pin;
use sym_geom::{CELL_MARGIN, LEAST_GAP, PAD_WIDTH, PITCH, ROW_HEIGHT, Rect};
use sym_shapes::Shape;
use vlsi_base::Name;

/// Whether a shape is a connector of this name.
pub fn is_named(shape: &Shape, name: &Name) -> bool
    ensures { IsTrue result ↔ (shape.now.name ≡ Some name.now) }
{
    match shape.name() {
        Some(own) => own.is_same(name),
        None => false,
    }
}

/// Whether one rectangle lies within another.
pub fn within(inner: Rect, outer: Rect) -> bool
    ensures { IsTrue result ↔ Within inner outer }
{
    if inner.x1 < outer.x1 {
        return false;
    }
    if outer.x2 < inner.x2 {
        return false;
    }
    if inner.y1 < outer.y1 {
        return false;
    }
    if outer.y2 < inner.y2 {
        return false;
    }
    true
}

/// Whether an edge lies at least the least gap before the start of a strip.
fn ends_before(edge: &i64, start: &i64) -> bool
    requires { (pos 0 -ℤ pos 1000000000000000) ≤ℤ start.now }
    ensures { IsTrue result ↔ ((edge.now +ℤ pos LEAST_GAP) ≤ℤ start.now) }
{
    if *edge > *start - i64::from(LEAST_GAP) {
        return false;
    }
    true
}

/// Whether an edge lies at least the least gap behind the end of a strip.
fn begins_behind(edge: &i64, end: &i64) -> bool
    requires { end.now ≤ℤ pos 1000000000000000 }
    ensures { IsTrue result ↔ ((end.now +ℤ pos LEAST_GAP) ≤ℤ edge.now) }
{
    if *edge < *end + i64::from(LEAST_GAP) {
        return false;
    }
    true
}

/// Whether the gap of a rectangle to a strip, whose coordinates are no larger than 1,000,000,000,000,000, is at least the least
/// gap.
pub fn is_apart(rect: &Rect, strip: &Rect) -> bool
    requires x1 { (pos 0 -ℤ pos 1000000000000000) ≤ℤ strip.now.x1 }
    requires y1 { (pos 0 -ℤ pos 1000000000000000) ≤ℤ strip.now.y1 }
    requires x2 { strip.now.x2 ≤ℤ pos 1000000000000000 }
    requires y2 { strip.now.y2 ≤ℤ pos 1000000000000000 }
    ensures { IsTrue result ↔ Apart LEAST_GAP rect.now strip.now }
{
    if ends_before(&rect.x2, &strip.x1) {
        return true;
    }
    if begins_behind(&rect.x1, &strip.x2) {
        return true;
    }
    if ends_before(&rect.y2, &strip.y1) {
        return true;
    }
    begins_behind(&rect.y1, &strip.y2)
}

/// Whether a rectangle lies within the box of a cell, away from its sides.
fn is_inside(rect: Rect, width: &i64) -> bool
    requires low { pos 0 ≤ℤ width.now }
    requires high { width.now ≤ℤ pos 20000000000000 }
    ensures { IsTrue result ↔ IsInside width.now rect }
{
    let margin = i64::from(CELL_MARGIN);
    if rect.x1 < margin {
        return false;
    }
    if rect.x2 > *width - margin {
        return false;
    }
    if rect.y1 < 0 {
        return false;
    }
    if rect.y2 > i64::from(ROW_HEIGHT) {
        return false;
    }
    true
}

/// Whether a shape of metal 1 lies within the box or a strip; one of another metal does in any case.
fn keeps_in(shape: &Shape, width: &i64, low: Rect, high: Rect) -> bool
    requires least { pos 0 ≤ℤ width.now }
    requires most { width.now ≤ℤ pos 20000000000000 }
    ensures { IsTrue result ↔ KeepsIn width.now low high shape.now }
{
    if shape.metal() != 1 {
        return true;
    }
    let rect = shape.rect();
    if is_inside(rect, width) {
        return true;
    }
    if within(rect, low) {
        return true;
    }
    within(rect, high)
}

/// Whether each shape of metal 1 lies within the box or a strip.
pub fn all_keep_in(shapes: &[Shape], width: &i64, low: Rect, high: Rect) -> bool
    requires least { pos 0 ≤ℤ width.now }
    requires most { width.now ≤ℤ pos 20000000000000 }
    ensures { IsTrue result ↔ All (KeepsIn width.now low high) shapes.now }
{
    shapes.iter().all(|shape| keeps_in(shape, width, low, high))
}

/// Whether a shape is a connector of this name on metal 1 that holds the rectangle.
fn is_rail(shape: &Shape, name: &Name, rect: Rect) -> bool
    ensures { IsTrue result ↔ IsRail name.now rect shape.now }
{
    if shape.metal() != 1 {
        return false;
    }
    if !is_named(shape, name) {
        return false;
    }
    within(rect, shape.rect())
}

/// Whether one connector of this name on metal 1 holds the rectangle.
pub fn has_rail(shapes: &[Shape], name: &Name, rect: Rect) -> bool
    ensures { IsTrue result ↔ Any (IsRail name.now rect) shapes.now }
{
    shapes.iter().any(|shape| is_rail(shape, name, rect))
}

/// The least line of the grid at which a pad doesn't stand out below a coordinate; none past the greatest number of the type.
fn first_line(low: &i64) -> Option<i64>
    ensures line { IfSome result (λ line. IsFirstLine low.now line) }
    ensures none { IfNone result ((line : ℤ) → line ≤ℤ pos (2 ^ 63 - 1) → IsLineAbove low.now line → ⊥) }
{
    let least = low.checked_add(i64::from(PAD_WIDTH / 2))?;
    let pitch = i64::from(PITCH);
    let past = least.rem_euclid(pitch);
    if past == 0 {
        return Some(least);
    }
    let line = least.checked_add(pitch - past)?;
    Some(line)
}

/// Whether a pad about some line of the grid fits between two coordinates.
fn fits_pad(low: &i64, high: &i64) -> bool
    ensures { IsTrue result ↔ FitsPad low.now high.now }
{
    let _low = *low;
    let Some(most) = high.checked_sub(i64::from(PAD_WIDTH / 2)) else {
        return false;
    };
    let Some(line) = first_line(low) else {
        return false;
    };
    if line > most {
        return false;
    }
    true
}

/// Whether a shape is a connector of this name on metal 1 that holds a pad about a point of the grid.
pub fn reaches(shape: &Shape, name: &Name) -> bool
    ensures { IsTrue result ↔ IsReachedBy name.now shape.now }
{
    if shape.metal() != 1 {
        return false;
    }
    if !is_named(shape, name) {
        return false;
    }
    let rect = shape.rect();
    if !fits_pad(&rect.x1, &rect.x2) {
        return false;
    }
    fits_pad(&rect.y1, &rect.y2)
}

/// Whether a pin has an access node.
fn is_reached(shapes: &[Shape], name: &Name) -> bool
    ensures { IsTrue result ↔ HasReach shapes.now name.now }
{
    shapes.iter().any(|shape| reaches(shape, name))
}

/// Whether each pin has an access node.
pub fn are_reached(shapes: &[Shape], pins: &[Pin]) -> bool
    ensures { IsTrue result ↔ All (λ p. HasReach shapes.now p.port.name) pins.now }
{
    for pin in pins {
        if !is_reached(shapes, &pin.port.name) {
            return false;
        }
    }
    true
}
