// The rectangles that the items of a figure show.
ghost use Rattle.std.specs.Prelude.{◌≡◌, ◌≤ℤ◌, ◌+ℤ◌, ◌-ℤ◌, pos};
ghost use Rattle.std.specs.Int.{int_min, int_max};
ghost use Rattle.sym_geom.specs.Rect.{IsCoordinate, square};
ghost use Rattle.sym_geom.specs.Items.{IsReadySegment, low_half as low_half_of, segment_rect as rect_of_segment, via_pads as pads_of_via};

use crate::{Connector, Contact, Direction, PAD_WIDTH, Rect, Segment, Via, WIRE_OVERHANG};

/// Half of a width, rounded down.
fn low_half(width: &i64) -> i64
    requires positive { pos 1 ≤ℤ width.now }
    requires fits { IsCoordinate width.now }
    ensures value { result ≡ low_half_of width.now }
    ensures least { pos 0 ≤ℤ result }
    ensures most { result ≤ℤ width.now }
{
    *width / 2
}

/// The interval between two numbers in either order, widened on both sides.
fn spread(a: &i64, b: &i64, below: &i64, above: &i64) -> (i64, i64)
    requires a_fits { IsCoordinate a.now }
    requires b_fits { IsCoordinate b.now }
    requires below_fits { IsCoordinate below.now }
    requires above_fits { IsCoordinate above.now }
    ensures low { result.0 ≡ int_min a.now b.now -ℤ below.now }
    ensures high { result.1 ≡ int_max a.now b.now +ℤ above.now }
{
    if *b < *a {
        (*b - *below, *a + *above)
    } else {
        (*a - *below, *b + *above)
    }
}

/// The rectangle of a segment: its line, widened across by half of its width, rounded down on the low side and up on
/// the high side, and longer by `WIRE_OVERHANG` at both ends. Takes no memory.
pub fn segment_rect(s: &Segment) -> Rect
    requires { IsReadySegment s.now }
    ensures { result ≡ rect_of_segment s.now }
{
    let low = low_half(&s.width);
    let high = s.width - low;
    let overhang = i64::from(WIRE_OVERHANG);
    match s.direction {
        Direction::Up | Direction::Down => {
            let across = spread(&s.x1, &s.x2, &low, &high);
            let along = spread(&s.y1, &s.y2, &overhang, &overhang);
            Rect {
                x1: across.0,
                y1: along.0,
                x2: across.1,
                y2: along.1,
            }
        }
        Direction::Left | Direction::Right => {
            let across = spread(&s.x1, &s.x2, &overhang, &overhang);
            let along = spread(&s.y1, &s.y2, &low, &high);
            Rect {
                x1: across.0,
                y1: along.0,
                x2: across.1,
                y2: along.1,
            }
        }
    }
}

/// The square of a width about a point, rounded down on the low sides.
fn square_about(x: &i64, y: &i64, width: &i64) -> Rect
    requires x_fits { IsCoordinate x.now }
    requires y_fits { IsCoordinate y.now }
    requires positive { pos 1 ≤ℤ width.now }
    requires width_fits { IsCoordinate width.now }
    ensures { result ≡ square x.now y.now width.now }
{
    let low = low_half(width);
    let high = *width - low;
    let across = spread(x, x, &low, &high);
    let along = spread(y, y, &low, &high);
    Rect {
        x1: across.0,
        y1: along.0,
        x2: across.1,
        y2: along.1,
    }
}

/// The square of a connector. Takes no memory.
pub fn connector_rect(c: &Connector) -> Rect
    requires x_fits { IsCoordinate c.now.x }
    requires y_fits { IsCoordinate c.now.y }
    requires positive { pos 1 ≤ℤ c.now.width }
    requires width_fits { IsCoordinate c.now.width }
    ensures { result ≡ square c.now.x c.now.y c.now.width }
{
    square_about(&c.x, &c.y, &c.width)
}

/// The two pads of a via, the lower first, each with its metal: squares of `PAD_WIDTH`. None exactly for a contact that isn't
/// CONT_VIA to CONT_VIA5. Takes no memory.
pub fn via_pads(v: &Via) -> Option<[(u8, Rect); 2]>
    requires x_fits { IsCoordinate v.now.x }
    requires y_fits { IsCoordinate v.now.y }
    ensures { result ≡ pads_of_via v.now }
{
    let pad = square_about(&v.x, &v.y, &i64::from(PAD_WIDTH));
    match v.contact {
        Contact::Via1 => Some([(1, pad), (2, pad)]),
        Contact::Via2 => Some([(2, pad), (3, pad)]),
        Contact::Via3 => Some([(3, pad), (4, pad)]),
        Contact::Via4 => Some([(4, pad), (5, pad)]),
        Contact::Via5 => Some([(5, pad), (6, pad)]),
        Contact::Other(_) => None,
    }
}
