// Bands of a metal, and the entries of shapes in them.
ghost use Rattle.std.specs.Prelude.{◌≡◌, ◌<◌, ◌^◌, length, OnOk, IfOk};
ghost use Rattle.sym_shapes.specs.Bands.{IsLevel};
ghost use Rattle.sym_near.specs.Sweep.{laid, side, shift_of, entry, IsReach, IsEntered, AddsOf, PlacesWithin, EntersAll, AreSwept};

use crate::sweep::{Entry, in_order};
use std::alloc::{AllocError, Global};
use sym_geom::Rect;
use sym_shapes::Shape;

/// How a metal is cut into bands: strips of rows, or of columns where it is `upright`, each `2 ^ shift` high or wide; and how into
/// such that are turned, each `2 ^ turned_shift` wide or high.
#[derive(Clone, Copy)]
pub struct Cut {
    upright: bool,
    shift: u32,
    turned_shift: u32,
}

impl Cut {
    /// Whether its bands are strips of columns.
    fn side(&self, turned: bool) -> bool
        ensures { result ≡ side turned self.now }
    {
        if turned { !self.upright } else { self.upright }
    }

    /// The power of two that their height is.
    fn shift_of(&self, turned: bool) -> u32
        ensures is { result ≡ shift_of turned self.now }
        ensures low { result < 64 }
    {
        if turned {
            self.turned_shift.min(63)
        } else {
            self.shift.min(63)
        }
    }
}

/// The bands of a metal, turned or not, and the gap behind each shape.
#[derive(Clone, Copy)]
struct Bands {
    cut: Cut,
    turned: bool,
    gap: u32,
}

/// How many shapes a metal has, and how far they reach together.
#[derive(Clone, Copy)]
struct Extent {
    wide: u64,
    high: u64,
    count: u64,
}

/// An interval of coordinates, counted from the lowest one, with the gap behind it.
#[derive(Clone, Copy)]
struct Interval {
    low: u64,
    high: u64,
}

/// How far it is from one edge to the other.
fn span(from: &i64, to: &i64) -> u64 {
    u64::try_from(i64::saturating_sub(*to, *from)).unwrap_or(0)
}

/// The power of two that is about the mean of so many, with the gap.
fn mean_shift(total: u64, count: u64, gap: u32) -> u32 {
    let mean = if count == 0 { 0 } else { total / count };
    let high = u64::saturating_add(mean, u64::from(gap));
    u32::saturating_sub(64, high.leading_zeros())
}

/// Bands across the metal's short side, about as high as its shapes are on the mean, with the gap: so a shape touches few. And bands
/// across the long side, likewise.
fn cut_of(extent: &Extent, gap: u32) -> Cut {
    let upright = extent.wide < extent.high;
    let (short, long) = if upright {
        (extent.wide, extent.high)
    } else {
        (extent.high, extent.wide)
    };
    Cut {
        upright,
        shift: mean_shift(short, extent.count, gap),
        turned_shift: mean_shift(long, extent.count, gap),
    }
}

/// The cuts of all metals.
pub fn cuts(shapes: &[Shape], gap: u32) -> [Cut; 256] {
    let none = Extent {
        wide: 0,
        high: 0,
        count: 0,
    };
    let mut extents = [none; 256];
    for shape in shapes {
        let rect = shape.rect();
        let extent = &mut extents[shape.metal() as usize];
        extent.wide = u64::saturating_add(extent.wide, span(&rect.x1, &rect.x2));
        extent.high = u64::saturating_add(extent.high, span(&rect.y1, &rect.y2));
        extent.count = u64::saturating_add(extent.count, 1);
    }
    let mut cuts = [cut_of(&none, gap); 256];
    for metal in 0..256 {
        cuts[metal] = cut_of(&extents[metal], gap);
    }
    cuts
}

/// A coordinate, counted from the lowest of 64 bits.
fn level(y: &i64) -> u64
    ensures { IsLevel y.now result }
{
    if *y < 0 {
        (*y - i64::MIN) as u64
    } else {
        *y as u64 + (1 << 63)
    }
}

/// The interval between two coordinates in either order, with the gap behind it.
fn widened(a: &i64, b: &i64, gap: u32) -> Interval
    ensures { IsReach gap a.now b.now result.low result.high }
{
    let one = level(a);
    let other = level(b);
    Interval {
        low: one.min(other),
        high: u64::saturating_add(one.max(other), u64::from(gap)),
    }
}

/// A rectangle, turned so that the bands of its metal are strips of rows.
fn laid(upright: bool, rect: Rect) -> Rect
    ensures { result ≡ laid upright rect }
{
    if upright {
        Rect {
            x1: rect.y1,
            y1: rect.x1,
            x2: rect.y2,
            y2: rect.x2,
        }
    } else {
        rect
    }
}

/// An entry in a band, from the left to the right of a shape.
fn entry_at(metal: u8, band: u64, across: &Interval, place: u32) -> Entry
    ensures { result ≡ entry metal band across.now.low across.now.high place }
{
    Entry {
        metal,
        band,
        left: across.low,
        right: across.high,
        place,
    }
}

/// Puts an entry of a shape into each band that it touches, with the gap behind it.
fn enter(
    entries: &mut Vec<Entry>,
    bands: &Bands,
    shape: &Shape,
    place: u32,
) -> Result<(), AllocError>
    ensures adds { OnOk result (AddsOf entries.old.items entries.new.items place) }
    ensures entered { OnOk result (IsEntered bands.now.turned bands.now.cut bands.now.gap shape.now place entries.new.items) }
{
    let rect = laid(bands.cut.side(bands.turned), shape.rect());
    let across = widened(&rect.x1, &rect.x2, bands.gap);
    let along = widened(&rect.y1, &rect.y2, bands.gap);
    let shift = bands.cut.shift_of(bands.turned);
    let low = along.low >> shift;
    let high = along.high >> shift;
    let metal = shape.metal();
    entries.push(entry_at(metal, low, &across, place))?;
    for band in low..high {
        entries.push(entry_at(metal, band + 1, &across, place))?;
    }
    Ok(())
}

/// The entries of all shapes.
fn enter_all(
    alloc: Global,
    shapes: &[Shape],
    cuts: &[Cut],
    turned: bool,
    gap: u32,
) -> Result<Vec<Entry>, AllocError>
    requires room { length shapes.now < 2 ^ 32 }
    requires cuts { length cuts.now ≡ 256 }
    ensures places { IfOk result (λ entries. PlacesWithin shapes.now entries.items) }
    ensures entered { IfOk result (λ entries. EntersAll turned shapes.now cuts.now gap entries.items) }
{
    let mut entries = Vec::with_capacity(alloc, shapes.len())?;
    for k in 0..shapes.len() {
        let cut = cuts[shapes[k].metal() as usize];
        let bands = Bands { cut, turned, gap };
        enter(&mut entries, &bands, &shapes[k], k as u32)?;
    }
    Ok(entries)
}

/// The entries of all shapes in order, in bands or in turned ones. Takes memory for a few entries a shape.
pub fn entries(
    alloc: Global,
    shapes: &[Shape],
    cuts: &[Cut],
    turned: bool,
    gap: u32,
) -> Result<Vec<Entry>, AllocError>
    requires room { length shapes.now < 2 ^ 32 }
    requires cuts { length cuts.now ≡ 256 }
    ensures { IfOk result (λ entries. AreSwept turned shapes.now cuts.now gap entries.items) }
{
    let mut entries = enter_all(alloc, shapes, cuts, turned, gap)?;
    in_order(&mut entries)?;
    Ok(entries)
}
