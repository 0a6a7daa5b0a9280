// Bands of a metal, and the entries of shapes in them.
ghost use Rattle.std.specs.Prelude.{◌≡◌, ◌<◌, length, All, OnOk, IfOk};
ghost use Rattle.sym_shapes.specs.Bands.{laid, IsLevel, entry_at, IsEntered, AddsOf, EntersAll};
ghost use Rattle.sym_shapes.specs.Sweep.{PlacesWithin};

use crate::Shape;
use crate::sweep::Entry;
use std::alloc::{AllocError, Global};
use sym_geom::Rect;

/// How a metal is cut into bands: strips of rows, or of columns where it is `upright`, each `2 ^ shift` high or wide.
#[derive(Clone, Copy)]
pub struct Cut {
    upright: bool,
    shift: u32,
}

/// How many shapes a metal has, and how far they reach together.
#[derive(Clone, Copy)]
struct Reach {
    wide: u64,
    high: u64,
    count: u64,
}

/// How far it is from one edge to the other.
fn span(from: &i64, to: &i64) -> u64 {
    u64::try_from(i64::saturating_sub(*to, *from)).unwrap_or(0)
}

/// Bands across the metal's short side, about as high as its shapes are on the mean: so a shape touches few of them.
fn cut_of(reach: &Reach) -> Cut {
    let upright = reach.wide < reach.high;
    let total = if upright { reach.wide } else { reach.high };
    let mean = if reach.count == 0 {
        0
    } else {
        total / reach.count
    };
    Cut {
        upright,
        shift: u32::saturating_sub(64, mean.leading_zeros()),
    }
}

/// The cuts of all metals.
pub fn cuts(shapes: &[Shape]) -> [Cut; 256] {
    let none = Reach {
        wide: 0,
        high: 0,
        count: 0,
    };
    let mut reaches = [none; 256];
    for shape in shapes {
        let rect = shape.rect();
        let reach = &mut reaches[shape.metal() as usize];
        reach.wide = u64::saturating_add(reach.wide, span(&rect.x1, &rect.x2));
        reach.high = u64::saturating_add(reach.high, span(&rect.y1, &rect.y2));
        reach.count = u64::saturating_add(reach.count, 1);
    }
    let mut cuts = [cut_of(&none); 256];
    for metal in 0..256 {
        cuts[metal] = cut_of(&reaches[metal]);
    }
    cuts
}

/// A rectangle, turned so that the bands of its metal are strips of rows.
fn laid(cut: &Cut, rect: Rect) -> Rect
    ensures { result ≡ laid cut.now rect }
{
    if cut.upright {
        Rect {
            x1: rect.y1,
            y1: rect.x1,
            x2: rect.y2,
            y2: rect.x2,
        }
    } else {
        rect
    }
}

/// A coordinate, counted from the lowest of 64 bits.
fn level(y: &i64) -> u64
    ensures { IsLevel y.now result }
{
    if *y < 0 {
        (*y - i64::MIN) as u64
    } else {
        *y as u64 + (1 << 63)
    }
}

/// An entry in a band, from the left to the right of a rectangle.
fn entry_at(metal: u8, rect: &Rect, place: u32, band: u64) -> Entry
    ensures { result ≡ entry_at metal rect.now place band }
{
    Entry {
        metal,
        band,
        left: rect.x1,
        right: rect.x2,
        place,
    }
}

/// Puts an entry of a shape into each band that it touches.
fn enter(entries: &mut Vec<Entry>, cut: &Cut, shape: &Shape, place: u32) -> Result<(), AllocError>
    ensures adds { OnOk result (AddsOf entries.old.items entries.new.items place) }
    ensures entered { OnOk result (IsEntered cut.now shape.now place entries.new.items) }
{
    let rect = laid(cut, shape.rect());
    let shift = cut.shift.min(63);
    let low = level(&rect.y1) >> shift;
    let high = level(&rect.y2) >> shift;
    let metal = shape.metal();
    entries.push(entry_at(metal, &rect, place, low))?;
    for band in low..high {
        entries.push(entry_at(metal, &rect, place, band + 1))?;
    }
    Ok(())
}

/// The entries of the shapes at these places.
pub fn entries(
    alloc: Global,
    shapes: &[Shape],
    places: &[u32],
    cuts: &[Cut],
) -> Result<Vec<Entry>, AllocError>
    requires within { All (λ k. k < length shapes.now) places.now }
    requires cuts { length cuts.now ≡ 256 }
    ensures places { IfOk result (λ entries. PlacesWithin shapes.now entries.items) }
    ensures entered { IfOk result (λ entries. EntersAll shapes.now places.now cuts.now entries.items) }
{
    let mut entries = Vec::with_capacity(alloc, places.len())?;
    for k in 0..places.len() {
        let place = places[k];
        let shape = &shapes[place as usize];
        let cut = cuts[shape.metal() as usize];
        enter(&mut entries, &cut, shape, place)?;
    }
    Ok(entries)
}
