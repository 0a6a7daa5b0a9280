// Pairs of shapes that are near, or of which one holds the other.
ghost use Rattle.std.specs.Prelude.{◌↔◌, ◌<◌, ◌+ℤ◌, ◌<ℤ◌, length, pos, IsTrue};
ghost use Rattle.sym_geom.specs.Rect.{Near as IsNear, Within as LiesWithin};
ghost use Rattle.sym_near.specs.Related.{IsHeld, IsOverPin as LiesOverPin, Relates};

use sym_geom::{Rect, touches};
use sym_shapes::Shape;

/// Two shapes, by their places.
#[derive(Clone, Copy, PartialEq, Eq, PartialOrd, Ord)]
pub struct Pair {
    pub first: u32,
    pub second: u32,
}

/// What a shape is to another one of its metal.
#[derive(Clone, Copy)]
pub enum Relation {
    /// It stands before it, they don't touch, and their gap is less than this.
    Near(u32),
    /// It lies within it, and that is larger; or they coincide, and it is drawn over a pin of an instance.
    Held,
}

/// Whether a coordinate is below another, which a gap widens.
pub fn is_below(a: &i64, b: &i64, gap: u32) -> bool
    ensures { IsTrue result ↔ (a.now <ℤ (b.now +ℤ pos gap)) }
{
    match a.checked_sub(*b) {
        Some(rest) => rest < i64::from(gap),
        None => *a < *b,
    }
}

/// Whether the gap of two rectangles is less than this.
fn is_near(gap: u32, a: &Rect, b: &Rect) -> bool
    ensures { IsTrue result ↔ IsNear gap a.now b.now }
{
    if !is_below(&a.x1, &b.x2, gap) {
        return false;
    }
    if !is_below(&b.x1, &a.x2, gap) {
        return false;
    }
    if !is_below(&a.y1, &b.y2, gap) {
        return false;
    }
    is_below(&b.y1, &a.y2, gap)
}

/// Whether the first rectangle lies within the second.
fn is_within(a: &Rect, b: &Rect) -> bool
    ensures { IsTrue result ↔ LiesWithin a.now b.now }
{
    if a.x1 < b.x1 {
        return false;
    }
    if b.x2 < a.x2 {
        return false;
    }
    if a.y1 < b.y1 {
        return false;
    }
    if b.y2 < a.y2 {
        return false;
    }
    true
}

/// Whether the first shape is drawn, and the second is a pin of an instance.
fn is_over_pin(a: &Shape, b: &Shape) -> bool
    ensures { IsTrue result ↔ LiesOverPin a.now b.now }
{
    if a.owner().is_some() {
        return false;
    }
    if b.owner().is_none() {
        return false;
    }
    b.name().is_some()
}

/// Whether the first shape lies within the second, which is larger, or is a pin over which the first is drawn.
fn is_held(a: &Shape, b: &Shape) -> bool
    ensures { IsTrue result ↔ IsHeld a.now b.now }
{
    let one = a.rect();
    let other = b.rect();
    if !is_within(&one, &other) {
        return false;
    }
    if !is_within(&other, &one) {
        return true;
    }
    is_over_pin(a, b)
}

/// Whether the shape at the first place is so related to that at the second.
pub fn relates(shapes: &[Shape], relation: Relation, first: u32, second: u32) -> bool
    requires first { first < length shapes.now }
    requires second { second < length shapes.now }
    ensures { IsTrue result ↔ Relates shapes.now relation first second }
{
    let one = &shapes[first as usize];
    let other = &shapes[second as usize];
    if one.metal() != other.metal() {
        return false;
    }
    let a = one.rect();
    let b = other.rect();
    match relation {
        Relation::Near(gap) => first < second && !touches(a, b) && is_near(gap, &a, &b),
        Relation::Held => first != second && is_held(one, other),
    }
}
