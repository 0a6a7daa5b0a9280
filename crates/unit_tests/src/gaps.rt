// The gap of two rectangles: 0 where they have a point in common, and elsewhere the larger of the two distances along the axes.
ghost use Rattle.sym_geom.specs.Rect.{IsRect, HasCoordinates};

use std::test::Fail;
use sym_geom::{Rect, gap};

/// The rectangle of a width and a height whose lower left corner is a point.
fn at(x: i32, y: i32, width: u16, height: u16) -> Rect
    ensures order { IsRect result }
    ensures fits { HasCoordinates result }
{
    let x = i64::from(x);
    let y = i64::from(y);
    Rect {
        x1: x,
        y1: y,
        x2: x + i64::from(width),
        y2: y + i64::from(height),
    }
}

/// The lower left corner, the width and the height of a second rectangle, and its gap to that from (0, 0) to (100, 50).
static ROWS: [(i32, i32, u16, u16, i64); 16] = [
    (0, 0, 100, 50, 0),
    (20, 10, 30, 20, 0),
    (-10, -10, 200, 200, 0),
    (100, 10, 50, 10, 0),
    (100, 50, 10, 10, 0),
    (-30, -20, 30, 20, 0),
    (130, 10, 5, 5, 30),
    (-40, 10, 10, 5, 30),
    (10, 57, 5, 5, 7),
    (10, -12, 5, 5, 7),
    (130, 90, 5, 5, 40),
    (140, 80, 5, 5, 40),
    (-35, -45, 5, 5, 40),
    (-45, -35, 5, 5, 40),
    (101, 51, 0, 0, 1),
    (-2_000_000_000, 0, 1, 1, 1_999_999_999),
];

#[test]
fn gaps_are_measured(rt: HostRuntime) -> Result<(), Fail> {
    let first = at(0, 0, 100, 50);
    for (x, y, width, height, want) in &ROWS {
        let second = at(*x, *y, *width, *height);
        assert_eq!(rt; gap(first, second), *want, "at {x} {y}");
        assert_eq!(rt; gap(second, first), *want, "turned, at {x} {y}");
    }
    Ok(())
}
