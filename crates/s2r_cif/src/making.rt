// Real layouts of symbolic ones.
ghost use Rattle.std.specs.Prelude.{◌≡◌, ◌++◌, ◌<◌, ◌^◌, pos, All, IfErr, IfOk, OnOk, length, map};
ghost use Rattle.vlsi_base.specs.Member.{In};
ghost use Rattle.sym_geom.specs.Rect.{HasReach, IsCoordinate, square};
ghost use Rattle.sym_geom.specs.Items.{lower_metal as lower_metal_of};
ghost use Rattle.sym_geom.specs.declared.item.Instance.{Instance as PlacedInstance};
ghost use Rattle.sym_shapes.specs.Ready.{IsReady, IsReadyVia};
ghost use Rattle.cell_model.specs.Layout.{instances_of, shapes as shapes_of};
ghost use Rattle.cell_model.specs.Usable.{IsFormed};
ghost use Rattle.cell_checks.specs.Checked.{library_of};
ghost use Rattle.cougar_extract.specs.Extracted.{IsReadyFigure};
ghost use Rattle.s2r_cif.specs.Real.{AreRealBoxes, HasRealEdges, IsRealFrom, IsRealLayout, IsRealOf, IsRealTable, box_of as box_of_shape, cuts_of, item_cuts};
ghost use Rattle.s2r_cif.specs.Refused.{AreDrawn, CanBeReal, IsNearRefusal, IsRealRefusal, NoneNear};
ghost use Rattle.s2r_cif.specs.declared.table.RealTable.{RealTable as Table};

use crate::error::RealError;
use crate::layout::{RealBox, RealLayout};
use crate::mapping::check_mappable;
use crate::near::keep_apart;
use crate::scaling::real_rect;
use crate::table::{RealTable, grow_of};
use ap_io::Figure;
use cell_checks::Library;
use cell_model::Cell;
use cougar_extract::{ExtractError, draw_layout};
use std::alloc::{AllocError, Global};
use sym_geom::{Contact, Item, Rect, Via};
use sym_shapes::Shape;
use vlsi_base::{Limit, LimitKind, Listed};

/// The width of a via's cut in the symbolic layout.
pub const CUT_WIDTH: u16 = 100;

/// The shapes of a figure with these cells, all of which are mappable. Takes memory for the shapes, and time for them and for each
/// instance and each cell.
fn mapped_shapes(alloc: Global, items: &[Item], cells: &[Cell]) -> Result<Vec<Shape>, RealError>
    requires ready { All IsReady items.now }
    requires few { length items.now < 2 ^ 32 }
    requires places { (i : PlacedInstance) → In i (instances_of items.now) → IsCoordinate i.x × IsCoordinate i.y }
    requires formed { All IsFormed cells.now }
    ensures shapes { IfOk result (λ shapes. shapes.items ≡ shapes_of items.now (library_of cells.now)) }
    ensures drawn { OnOk result (AreDrawn items.now (library_of cells.now)) }
    ensures refused { IfErr result (λ e. (t : Table) → IsRealRefusal t items.now (library_of cells.now) e) }
{
    let shapes = match draw_layout(alloc, items, cells) {
        Ok(drawing) => drawing.shapes,
        Err(ExtractError::UnknownCell(model)) => return Err(RealError::UnknownCell(model)),
        Err(ExtractError::Memory) => return Err(RealError::Memory),
        Err(ExtractError::Limit(_)) => unreachable!(),
        Err(ExtractError::Shorted { .. }) => unreachable!(),
    };
    check_mappable(alloc, items, cells)?;
    if shapes.len() > u32::MAX as usize {
        return Err(RealError::Limit(Limit {
            which: LimitKind::Size,
            reached: shapes.len() as u64,
        }));
    }
    Ok(shapes)
}

/// The box of a shape.
fn box_of(table: &RealTable, shape: &Shape) -> RealBox
    requires table { IsRealTable table.now }
    requires reach { HasReach shape.now.rect }
    ensures value { result ≡ box_of_shape table.now shape.now }
    ensures edges { HasRealEdges result.rect }
{
    let level = shape.metal();
    RealBox {
        level,
        rect: real_rect(table.scale, grow_of(table, level), &shape.rect()),
    }
}

/// The boxes of shapes, in their order.
fn boxes(alloc: Global, table: &RealTable, shapes: &[Shape]) -> Result<Vec<RealBox>, AllocError>
    requires table { IsRealTable table.now }
    requires reach { All (λ s. HasReach s.rect) shapes.now }
    ensures value { IfOk result (λ made. made.items ≡ map (box_of_shape table.now) shapes.now) }
    ensures edges { IfOk result (λ made. AreRealBoxes made.items) }
{
    let mut made = Vec::with_capacity(alloc, shapes.len())?;
    for shape in shapes {
        made.push(box_of(table, shape))?;
    }
    Ok(made)
}

/// The lower of the metals that a contact joins, if it joins two.
pub fn lower_metal(contact: &Contact) -> Option<u8>
    ensures { result ≡ lower_metal_of contact.now }
{
    match contact {
        Contact::Via1 => Some(1),
        Contact::Via2 => Some(2),
        Contact::Via3 => Some(3),
        Contact::Via4 => Some(4),
        Contact::Via5 => Some(5),
        Contact::Other(_) => None,
    }
}

/// The square of a via's cut.
fn cut_rect(via: &Via) -> Rect
    requires { IsReadyVia via.now }
    ensures value { result ≡ square via.now.x via.now.y (pos CUT_WIDTH) }
    ensures reach { HasReach result }
{
    let half = i64::from(CUT_WIDTH) / 2;
    Rect {
        x1: via.x - half,
        y1: via.y - half,
        x2: via.x + half,
        y2: via.y + half,
    }
}

/// Puts the cut of a line, if it has one, behind those that are there.
fn put_cut(cuts: &mut Vec<RealBox>, table: &RealTable, item: &Item) -> Result<(), AllocError>
    requires table { IsRealTable table.now }
    requires ready { IsReady item.now }
    requires old_edges { AreRealBoxes cuts.old.items }
    ensures value { OnOk result (cuts.new.items ≡ cuts.old.items ++ item_cuts table.now item.now) }
    ensures edges { OnOk result (AreRealBoxes cuts.new.items) }
{
    let Item::Via(via) = item else {
        return Ok(());
    };
    let Some(level) = lower_metal(&via.contact) else {
        return Ok(());
    };
    let rect = real_rect(table.scale, 0, &cut_rect(via));
    cuts.push(RealBox { level, rect })?;
    Ok(())
}

/// The cuts of a figure's vias, in file order.
fn cuts(alloc: Global, table: &RealTable, items: &[Item]) -> Result<Vec<RealBox>, AllocError>
    requires table { IsRealTable table.now }
    requires ready { All IsReady items.now }
    ensures value { IfOk result (λ made. made.items ≡ cuts_of table.now items.now) }
    ensures edges { IfOk result (λ made. AreRealBoxes made.items) }
{
    let mut made = Vec::new(alloc);
    for item in items {
        put_cut(&mut made, table, item)?;
    }
    Ok(made)
}

/// The real layout of lines that show these shapes.
fn real_shapes(
    alloc: Global,
    table: &RealTable,
    items: &[Item],
    shapes: &[Shape],
) -> Result<RealLayout, RealError>
    requires table { IsRealTable table.now }
    requires ready { All IsReady items.now }
    requires few { length shapes.now < 2 ^ 32 }
    requires reach { All (λ s. HasReach s.rect) shapes.now }
    ensures real { IfOk result (λ r. IsRealFrom table.now items.now shapes.now r) }
    ensures layout { IfOk result (λ r. IsRealLayout r) }
    ensures apart { OnOk result (NoneNear table.now shapes.now) }
    ensures refused { IfErr result (λ e. IsNearRefusal table.now shapes.now e) }
{
    keep_apart(alloc, table, shapes)?;
    let boxes = boxes(alloc, table, shapes)?;
    let cuts = cuts(alloc, table, items)?;
    Ok(RealLayout {
        boxes: Listed::new(boxes),
        cuts: Listed::new(cuts),
    })
}

/// The real layout of lines with instances of these cells.
fn real_of(
    alloc: Global,
    table: &RealTable,
    items: &[Item],
    cells: &[Cell],
) -> Result<RealLayout, RealError>
    requires table { IsRealTable table.now }
    requires ready { All IsReady items.now }
    requires few { length items.now < 2 ^ 32 }
    requires places { (i : PlacedInstance) → In i (instances_of items.now) → IsCoordinate i.x × IsCoordinate i.y }
    requires formed { All IsFormed cells.now }
    ensures real { IfOk result (λ r. IsRealOf table.now items.now (library_of cells.now) r) }
    ensures layout { IfOk result (λ r. IsRealLayout r) }
    ensures accepted { OnOk result (CanBeReal table.now items.now (library_of cells.now)) }
    ensures refused { IfErr result (λ e. IsRealRefusal table.now items.now (library_of cells.now) e) }
{
    let shapes = mapped_shapes(alloc, items, cells)?;
    real_shapes(alloc, table, items, &shapes)
}

/// The real layout of a figure of mappable cells: a box for each of its shapes, in their order, and a cut for each of its vias, in
/// file order. Boxes of one metal meet exactly where their shapes touch.
///
/// It is refused, in this order: by `UnknownCell` exactly where the model of an instance isn't in the library, and by `NotMappable`
/// exactly where its cell isn't mappable, each at the first such; by `Limit` of `Size` exactly where there are 2^32 or more shapes,
/// with their number; by `Near` exactly where two shapes of one metal don't touch, but their gap times the scale is at most twice
/// the metal's grow, at the first such pair, in the order of the first and then of the second shape.
///
/// Takes memory for the shapes, their boxes, a few entries a shape and the pairs of shapes whose gap is at most the largest at which
/// shapes of some metal grow together; time for these, times the logarithm of their number, for the pairs of shapes that lie beside
/// one another in one band of their metal, and for each instance and each cell.
pub fn to_real(
    alloc: Global,
    figure: &Figure,
    library: &Library,
    table: &RealTable,
) -> Result<RealLayout, RealError>
    requires figure { IsReadyFigure figure.now }
    requires table { IsRealTable table.now }
    ensures real { IfOk result (λ r. IsRealOf table.now figure.now.items library.now r) }
    ensures layout { IfOk result (λ r. IsRealLayout r) }
    ensures accepted { OnOk result (CanBeReal table.now figure.now.items library.now) }
    ensures refused { IfErr result (λ e. IsRealRefusal table.now figure.now.items library.now e) }
{
    real_of(alloc, table, figure.items.as_slice(), library.cells())
}
