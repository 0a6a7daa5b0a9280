// How far rectangles are from one another.
ghost use Rattle.std.specs.Prelude.{◌↔◌, ℕ, ◌<◌, ◌≤ℤ◌, ◌<ℤ◌, ◌+ℤ◌, pos};
ghost use Rattle.sym_geom.specs.Rect.{IsRect, IsCoordinate, HasCoordinates, IsGap};

use crate::Rect;

/// The gap of two intervals, 0 where they meet.
fn axis_gap(a1: i64, a2: i64, b1: i64, b2: i64) -> i64
    requires a1_fits { IsCoordinate a1 }
    requires a2_fits { IsCoordinate a2 }
    requires b1_fits { IsCoordinate b1 }
    requires b2_fits { IsCoordinate b2 }
    requires a { a1 ≤ℤ a2 }
    requires b { b1 ≤ℤ b2 }
    ensures least { pos 0 ≤ℤ result }
    ensures less { (d : ℕ) → 0 < d → (result <ℤ pos d) ↔ ((a1 <ℤ (b2 +ℤ pos d)) × (b1 <ℤ (a2 +ℤ pos d))) }
{
    if a2 < b1 {
        return b1 - a2;
    }
    if b2 < a1 {
        return a1 - b2;
    }
    0
}

/// The larger of the gaps of two rectangles along the two axes, 0 where they meet. Takes no memory.
pub fn gap(a: Rect, b: Rect) -> i64
    requires a_order { IsRect a }
    requires b_order { IsRect b }
    requires a_fits { HasCoordinates a }
    requires b_fits { HasCoordinates b }
    ensures { IsGap result a b }
{
    let across = axis_gap(a.x1, a.x2, b.x1, b.x2);
    let along = axis_gap(a.y1, a.y2, b.y1, b.y2);
    if across < along { along } else { across }
}
