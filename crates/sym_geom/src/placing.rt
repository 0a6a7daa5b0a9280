// Where an instance shows the rectangles of its cell.
ghost use Rattle.std.specs.Prelude.{◌≡◌, ◌+ℤ◌, ◌-ℤ◌, if◌then◌else◌};
ghost use Rattle.sym_geom.specs.Rect.{IsReach, HasReach, turns_x, turns_y, transformed};

use crate::{Rect, Transform};

/// An interval within a size, exchanged end for end where it is turned, and then moved.
fn shown(turned: bool, low: &i64, high: &i64, size: &i64, at: &i64) -> (i64, i64)
    requires low_fits { IsReach low.now }
    requires high_fits { IsReach high.now }
    requires size_fits { IsReach size.now }
    requires at_fits { IsReach at.now }
    ensures low { result.0 ≡ (if turned then size.now -ℤ high.now else low.now) +ℤ at.now }
    ensures high { result.1 ≡ (if turned then size.now -ℤ low.now else high.now) +ℤ at.now }
{
    if turned {
        (*size - *high + *at, *size - *low + *at)
    } else {
        (*low + *at, *high + *at)
    }
}

/// A rectangle of a cell as an instance of it shows it: turned within the box of width `w` and height `h`, whose lower
/// left corner then lies at `x`, `y`. Takes no memory.
pub fn transform(t: Transform, r: Rect, w: i64, h: i64, x: i64, y: i64) -> Rect
    requires r_fits { HasReach r }
    requires w_fits { IsReach w }
    requires h_fits { IsReach h }
    requires x_fits { IsReach x }
    requires y_fits { IsReach y }
    ensures { result ≡ transformed t r w h x y }
{
    let across = shown(is_turned_x(t), &r.x1, &r.x2, &w, &x);
    let along = shown(is_turned_y(t), &r.y1, &r.y2, &h, &y);
    Rect {
        x1: across.0,
        y1: along.0,
        x2: across.1,
        y2: along.1,
    }
}

/// Left and right are exchanged.
fn is_turned_x(t: Transform) -> bool
    ensures { result ≡ turns_x t }
{
    match t {
        Transform::NoSym | Transform::SymY => false,
        Transform::SymX | Transform::SymXY => true,
    }
}

/// Bottom and top are exchanged.
fn is_turned_y(t: Transform) -> bool
    ensures { result ≡ turns_y t }
{
    match t {
        Transform::NoSym | Transform::SymX => false,
        Transform::SymY | Transform::SymXY => true,
    }
}
