// From rectangles of the symbolic layout to real ones.
ghost use Rattle.std.specs.Prelude.{◌≡◌, ◌↔◌, ◌*◌, ◌≤◌, ◌≤ℤ◌, ◌+ℤ◌, ◌*ℤ◌, pos, negsuc, IsTrue};
ghost use Rattle.sym_geom.specs.Rect.{IsReach, HasReach};
ghost use Rattle.s2r_cif.specs.Real.{AreClose, HasRealEdges, IsRealEdge, IsWithinGrow, real_high, real_low, real_rect};

use crate::table::{MOST_GROW, MOST_SCALE};
use sym_geom::Rect;

/// A coordinate times the scale.
pub fn scaled(scale: u32, c: &i64) -> i64
    requires scale { scale ≤ MOST_SCALE }
    requires reach { IsReach c.now }
    ensures value { result ≡ (pos scale *ℤ c.now) }
    ensures low { negsuc 999999999999999999 ≤ℤ result }
    ensures high { result ≤ℤ pos 1000000000000000000 }
{
    i64::from(scale) * *c
}

/// Whether the one coordinate, scaled, is at most twice the grow above the other.
fn is_within_grow(scale: u32, grow: u32, above: &i64, below: &i64) -> bool
    requires scale { scale ≤ MOST_SCALE }
    requires above_reach { IsReach above.now }
    requires below_reach { IsReach below.now }
    ensures { IsTrue result ↔ IsWithinGrow scale grow above.now below.now }
{
    scaled(scale, above) <= scaled(scale, below) + 2 * i64::from(grow)
}

/// Whether the gap of two rectangles, scaled, is at most twice the grow, so that their real boxes meet.
pub fn are_close(scale: u32, grow: u32, a: &Rect, b: &Rect) -> bool
    requires scale { scale ≤ MOST_SCALE }
    requires a_reach { HasReach a.now }
    requires b_reach { HasReach b.now }
    ensures { IsTrue result ↔ AreClose scale grow a.now b.now }
{
    if !is_within_grow(scale, grow, &a.x1, &b.x2) {
        return false;
    }
    if !is_within_grow(scale, grow, &b.x1, &a.x2) {
        return false;
    }
    if !is_within_grow(scale, grow, &a.y1, &b.y2) {
        return false;
    }
    is_within_grow(scale, grow, &b.y1, &a.y2)
}

/// Where the real box of a rectangle begins, and where it ends, in halves of a real unit.
fn grown(scale: u32, grow: u32, low: &i64, high: &i64) -> (i64, i64)
    requires scale { scale ≤ MOST_SCALE }
    requires grow { grow ≤ MOST_GROW }
    requires low_reach { IsReach low.now }
    requires high_reach { IsReach high.now }
    ensures low { result.0 ≡ real_low scale grow low.now }
    ensures high { result.1 ≡ real_high scale grow high.now }
    ensures low_fits { IsRealEdge result.0 }
    ensures high_fits { IsRealEdge result.1 }
{
    let grow = i64::from(grow);
    (
        2 * (scaled(scale, low) - grow),
        2 * (scaled(scale, high) + grow),
    )
}

/// The real box of a rectangle: each edge times the scale, and moved outward by the grow; in halves of a real unit.
pub fn real_rect(scale: u32, grow: u32, rect: &Rect) -> Rect
    requires scale { scale ≤ MOST_SCALE }
    requires grow { grow ≤ MOST_GROW }
    requires reach { HasReach rect.now }
    ensures value { result ≡ real_rect scale grow rect.now }
    ensures edges { HasRealEdges result }
{
    let across = grown(scale, grow, &rect.x1, &rect.x2);
    let along = grown(scale, grow, &rect.y1, &rect.y2);
    Rect {
        x1: across.0,
        y1: along.0,
        x2: across.1,
        y2: along.1,
    }
}
