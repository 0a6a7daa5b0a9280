// The breaches of a layout.
ghost use Rattle.std.specs.Prelude.{◌≡◌, ◌↔◌, ◌<◌, ◌^◌, length, map, IsTrue, IfOk, OnOk, IfErr};
ghost use Rattle.cell_model.specs.Layout.{instances_of, shapes as shapes_of};
ghost use Rattle.cougar_extract.specs.Extracted.{IsReadyFigure, AreKnown};
ghost use Rattle.druc_rules.specs.declared.breach.Breach.TheVariants as breaches;
ghost use Rattle.druc_rules.specs.Breaches.{breach_of, IsNarrowBy, BreachesBy, AreWidths, AddsGaps, IsBrokenRefusal};
ghost use Rattle.sym_near.specs.Related.{AreRelated, shape_at};
ghost use Rattle.sym_near.specs.declared.near.Relation.TheVariants as relation;
ghost use Rattle.druc_rules.specs.Excuses.{IsKnown};

use crate::breach::{Breach, Breaches, Rules};
use crate::drawing::layout_shapes;
use crate::error::DrucError;
use crate::excuses::{Layout, is_excused};
use ap_io::Figure;
use cell_checks::Library;
use std::alloc::{AllocError, Global};
use sym_near::{Pair, is_below, near_pairs};
use sym_shapes::{Shape, joints};

/// Whether a shape is drawn and narrower than this.
fn is_narrow(shape: &Shape, width: u32) -> bool
    ensures { IsTrue result ↔ IsNarrowBy width shape.now }
{
    let rect = shape.rect();
    if shape.owner().is_some() {
        return false;
    }
    is_below(&rect.x2, &rect.x1, width) || is_below(&rect.y2, &rect.y1, width)
}

/// The drawn shapes that are too narrow. Takes memory for them.
fn widths(alloc: Global, shapes: &[Shape], width: u32) -> Result<Vec<Breach>, AllocError>
    ensures { IfOk result (λ found. AreWidths width shapes.now found.items) }
{
    let mut found = Vec::new(alloc);
    for shape in shapes {
        if is_narrow(shape, width) {
            found.push(Breach::Width {
                metal: shape.metal(),
                rect: shape.rect(),
            })?;
        }
    }
    Ok(found)
}

/// Two shapes that are too near.
fn gap(shapes: &[Shape], pair: &Pair) -> Breach
    requires first { pair.now.first < length shapes.now }
    requires second { pair.now.second < length shapes.now }
    ensures { let a = shape_at shapes.now pair.now.first in result ≡ breaches.Gap a.metal a.rect (shape_at shapes.now pair.now.second).rect }
{
    let one = &shapes[pair.first as usize];
    let other = &shapes[pair.second as usize];
    Breach::Gap {
        metal: one.metal(),
        a: one.rect(),
        b: other.rect(),
    }
}

/// Puts the near pairs that nothing excuses behind the breaches.
fn put_gaps(
    found: &mut Vec<Breach>,
    layout: &Layout<'_>,
    near: &[Pair],
    least: u32,
) -> Result<(), AllocError>
    requires known { IsKnown layout.now }
    requires near { AreRelated layout.now.shapes.now (relation.Near least) near.now }
    ensures { OnOk result (AddsGaps least layout.now.shapes.now found.old.items found.new.items) }
{
    for pair in near {
        if !is_excused(layout, pair.first, pair.second) {
            found.push(gap(layout.shapes, pair))?;
        }
    }
    Ok(())
}

/// Puts the shapes that are too near behind the breaches. Takes memory for a few entries a shape, and for the near pairs; which shapes
/// are joined is found where there are such alone.
fn gaps(
    alloc: Global,
    found: &mut Vec<Breach>,
    shapes: &[Shape],
    least: u32,
) -> Result<(), AllocError>
    requires { length shapes.now < 2 ^ 32 }
    ensures { OnOk result (AddsGaps least shapes.now found.old.items found.new.items) }
{
    let pairs = near_pairs(alloc, shapes, least)?;
    if pairs.near.is_empty() {
        return Ok(());
    }
    let numbers = joints(alloc, shapes)?;
    let layout = Layout {
        shapes,
        numbers: &numbers,
        holders: &pairs.held,
    };
    put_gaps(found, &layout, &pairs.near, least)
}

/// The breaches of a layout, all and in order: the drawn rectangles that are narrower than the least width in x or y, in the order
/// of shapes; and then the pairs of rectangles of one metal that don't touch and whose gap is less than the least, in the order
/// of the first and then of the second shape. Two may be near where both are of one instance; where one is drawn and lies within a
/// connector of the other's instance; where one is of an instance and a chain of shapes joins them; or where one lies within a third
/// of their metal that touches the other.
///
/// It is refused by `UnknownCell` exactly where the model of an instance isn't in the library, at the first such; and else by
/// `Limit` of `Size` exactly where there are 2^32 or more shapes, with their number.
///
/// Takes memory for the shapes, for a few entries a shape, for the pairs of near shapes and, where there are such, for those of
/// which one lies within the other and is smaller, or is drawn over a pin that it coincides with; time for these, times the
/// logarithm of their number, for the pairs of shapes that lie beside one another in one band of their metal, and for each
/// instance and each cell.
pub fn broken(
    alloc: Global,
    figure: &Figure,
    library: &Library,
    rules: &Rules,
) -> Result<Breaches, DrucError>
    requires { IsReadyFigure figure.now }
    ensures breaches { IfOk result (λ found. BreachesBy rules.now figure.now.items library.now (map breach_of found)) }
    ensures known { OnOk result (AreKnown (instances_of figure.now.items) library.now) }
    ensures few { OnOk result (length (shapes_of figure.now.items library.now) < 2 ^ 32) }
    ensures refused { IfErr result (λ e. IsBrokenRefusal figure.now.items library.now e) }
{
    let shapes = layout_shapes(alloc, figure.items.as_slice(), library.cells())?;
    let mut found = widths(alloc, &shapes, rules.width)?;
    gaps(alloc, &mut found, &shapes, rules.gap)?;
    Ok(Breaches::new(found))
}
