// The boxes of a layout.
ghost use Rattle.std.specs.Prelude.{◌≡◌, ◌⊎◌, ◌<◌, ◌≤◌, ◌^◌, All, None, IfErr, IfOk, OnOk, length};
ghost use Rattle.vlsi_base.specs.Member.{In};
ghost use Rattle.sym_geom.specs.Rect.{IsCoordinate};
ghost use Rattle.sym_geom.specs.declared.item.Instance.{Instance as PlacedInstance};
ghost use Rattle.sym_shapes.specs.Ready.{IsReady};
ghost use Rattle.cell_model.specs.Layout.{instances_of};
ghost use Rattle.cell_model.specs.Usable.{IsFormed};
ghost use Rattle.cell_checks.specs.Checked.{library_of};
ghost use Rattle.cougar_extract.specs.Extracted.{IsReadyFigure};
ghost use Rattle.s2r_cif.specs.Refused.{AreDrawn};
ghost use Rattle.real_table.specs.Bounds.{IsProcessTable};
ghost use Rattle.real_boxes.specs.declared.error.ProcessError.TheVariants as error;
ghost use Rattle.real_boxes.specs.Bounds.{AreBoxes, AreOnLayers, IsLayer, ReachAll};
ghost use Rattle.real_boxes.specs.Boxes.{boxes_of as boxes_of_marks, layer_of};
ghost use Rattle.real_boxes.specs.Metals.{MeetAsShapes, metal_boxes, metal_shapes};
ghost use Rattle.real_boxes.specs.Refused.{AreGood, CanBeMade, IsBoxRefusal, IsDrawRefusal, IsFitRefusal, IsMakeRefusal, IsProcessRefusal, first_lost, first_unfit as first_unfit_of, layout_boxes};

use crate::boxes::{RealBox, boxes_of, layer_of};
use crate::error::ProcessError;
use crate::judging::{first_unfit, keep_metal};
use crate::mark::Mark;
use crate::metals::keep_joints;
use crate::near::keep_apart;
use crate::placing::layout_marks;
use ap_io::Figure;
use cell_checks::Library;
use cell_model::Cell;
use cougar_extract::{ExtractError, draw_layout};
use real_table::{Entry, ProcessTable};
use s2r_cif::{RealError, check_mappable};
use std::alloc::Global;
use sym_geom::{Item, Rect};
use vlsi_base::{Limit, LimitKind, Listed, Text};

/// Refuses instances that aren't of mappable cells, and 2^32 shapes or more.
fn check_drawn(alloc: Global, items: &[Item], cells: &[Cell]) -> Result<(), ProcessError>
    requires ready { All IsReady items.now }
    requires few { length items.now < 2 ^ 32 }
    requires places { (i : PlacedInstance) → In i (instances_of items.now) → IsCoordinate i.x × IsCoordinate i.y }
    requires formed { All IsFormed cells.now }
    ensures drawn { OnOk result (AreDrawn items.now (library_of cells.now)) }
    ensures refused { IfErr result (λ e. IsDrawRefusal items.now (library_of cells.now) e) }
{
    let count = match draw_layout(alloc, items, cells) {
        Ok(drawing) => drawing.shapes.len(),
        Err(ExtractError::UnknownCell(model)) => return Err(ProcessError::UnknownCell(model)),
        Err(ExtractError::Memory) => return Err(ProcessError::Memory),
        Err(ExtractError::Limit(_)) => unreachable!(),
        Err(ExtractError::Shorted { .. }) => unreachable!(),
    };
    match check_mappable(alloc, items, cells) {
        Ok(()) => {}
        Err(RealError::NotMappable(model)) => return Err(ProcessError::NotMappable(model)),
        Err(RealError::Memory) => return Err(ProcessError::Memory),
        Err(RealError::UnknownCell(_)) => unreachable!(),
        Err(RealError::Limit(_)) => unreachable!(),
        Err(RealError::Near { .. }) => unreachable!(),
    }
    if count > u32::MAX as usize {
        return Err(ProcessError::Limit(Limit {
            which: LimitKind::Size,
            reached: count as u64,
        }));
    }
    Ok(())
}

/// The name of the real layer of this number.
fn name_of(entries: &[Entry], layer: u64) -> &Text
    requires { IsLayer entries.now layer }
    ensures { layer_of entries.now result.now ≡ layer }
{
    match &entries[layer as usize] {
        Entry::Rule(rule) => &rule.real,
        _ => unreachable!(),
    }
}

/// Refuses the first box that doesn't fit the grid, or has no area.
fn check_fit(
    alloc: Global,
    entries: &[Entry],
    grid: u32,
    boxes: &[RealBox],
) -> Result<(), ProcessError>
    requires grid { 1 ≤ grid }
    requires layers { AreOnLayers entries.now boxes.now }
    ensures fit { OnOk result (first_unfit_of grid boxes.now ≡ None) }
    ensures refused { IfErr result (λ e. IsFitRefusal entries.now grid boxes.now e) }
{
    let Some(one) = first_unfit(grid, boxes) else {
        return Ok(());
    };
    let real = name_of(entries, one.layer);
    Err(unfit(alloc, real, one.rect))
}

fn unfit(alloc: Global, real: &Text, rect: Rect) -> ProcessError
    ensures { (result ≡ error.Memory) ⊎ (result ≡ error.OffGrid real.now rect) }
{
    match real.copy(alloc) {
        Ok(real) => ProcessError::OffGrid { real, rect },
        Err(_) => ProcessError::Memory,
    }
}

/// Refuses boxes that are too many, don't fit or are too near.
fn check_boxes(alloc: Global, table: &ProcessTable, boxes: &[RealBox]) -> Result<(), ProcessError>
    requires table { IsProcessTable table.now }
    requires layers { AreOnLayers table.now.entries boxes.now }
    ensures good { OnOk result (AreGood table.now boxes.now) }
    ensures refused { IfErr result (λ e. IsBoxRefusal table.now boxes.now e) }
{
    if boxes.len() > u32::MAX as usize {
        return Err(ProcessError::Limit(Limit {
            which: LimitKind::Size,
            reached: boxes.len() as u64,
        }));
    }
    let entries = table.entries.as_slice();
    check_fit(alloc, entries, table.head.grid, boxes)?;
    keep_apart(alloc, entries, boxes)
}

/// The boxes of what is drawn.
fn made_of(
    alloc: Global,
    table: &ProcessTable,
    marks: &[Mark],
) -> Result<Vec<RealBox>, ProcessError>
    requires table { IsProcessTable table.now }
    requires reach { ReachAll marks.now }
    requires few { length (metal_shapes marks.now) < 2 ^ 32 }
    ensures value { IfOk result (λ boxes. boxes.items ≡ boxes_of_marks table.now.entries table.now.head.scale marks.now) }
    ensures edges { IfOk result (λ boxes. AreBoxes boxes.items) }
    ensures kept { OnOk result (first_lost table.now marks.now ≡ None) }
    ensures meet { OnOk result (MeetAsShapes (metal_shapes marks.now) (metal_boxes table.now marks.now)) }
    ensures good { IfOk result (λ boxes. AreGood table.now boxes.items) }
    ensures refused { IfErr result (λ e. IsMakeRefusal table.now marks.now e) }
{
    keep_metal(alloc, table, marks)?;
    keep_joints(alloc, table, marks)?;
    let boxes = boxes_of(alloc, table, marks)?;
    check_boxes(alloc, table, &boxes)?;
    Ok(boxes)
}

/// The boxes of lines with instances of these cells.
fn process_of(
    alloc: Global,
    items: &[Item],
    cells: &[Cell],
    table: &ProcessTable,
) -> Result<Listed<RealBox>, ProcessError>
    requires ready { All IsReady items.now }
    requires few { length items.now < 2 ^ 32 }
    requires places { (i : PlacedInstance) → In i (instances_of items.now) → IsCoordinate i.x × IsCoordinate i.y }
    requires formed { All IsFormed cells.now }
    requires table { IsProcessTable table.now }
    ensures boxes { IfOk result (λ boxes. boxes ≡ layout_boxes table.now items.now (library_of cells.now)) }
    ensures edges { IfOk result (λ boxes. AreBoxes boxes) }
    ensures able { OnOk result (CanBeMade table.now items.now (library_of cells.now)) }
    ensures refused { IfErr result (λ e. IsProcessRefusal table.now items.now (library_of cells.now) e) }
{
    check_drawn(alloc, items, cells)?;
    let marks = layout_marks(alloc, items, cells)?;
    let boxes = made_of(alloc, table, &marks)?;
    Ok(Listed::new(boxes))
}

/// The boxes of a layout by a table of a process: what is drawn, in the layout and where instances show their cells, has a box for each
/// line of the table that is of its layer or contact.
///
/// It is refused, in this order: by `UnknownCell` exactly where the model of an instance isn't in the library, and by `NotMappable`
/// exactly where its cell isn't mappable, each at the first such; by `Limit` of `Size` where there are 2^32 or more shapes; by `Lost` at
/// the first drawing that shows metal which the table doesn't write; by `Joined` at the first two shapes of one metal that don't touch,
/// but whose boxes meet; by `Parted` at the first two that touch, and whose boxes don't meet; by `Limit` of `Size` where there are 2^32
/// or more boxes; by `OffGrid` at the first box with an edge off the grid, or without an area; by `Near` at the first line of the table
/// that keeps boxes apart where there are two that are nearer, and there at the first two. So boxes of one metal meet exactly where
/// their shapes touch.
///
/// Takes memory for what is drawn, the boxes, a few entries for each of them, and those that are too near; time for these, times the
/// lines of the table and the logarithm of their number.
pub fn to_process(
    alloc: Global,
    figure: &Figure,
    library: &Library,
    table: &ProcessTable,
) -> Result<Listed<RealBox>, ProcessError>
    requires figure { IsReadyFigure figure.now }
    requires table { IsProcessTable table.now }
    ensures boxes { IfOk result (λ boxes. boxes ≡ layout_boxes table.now figure.now.items library.now) }
    ensures edges { IfOk result (λ boxes. AreBoxes boxes) }
    ensures able { OnOk result (CanBeMade table.now figure.now.items library.now) }
    ensures refused { IfErr result (λ e. IsProcessRefusal table.now figure.now.items library.now e) }
{
    process_of(alloc, figure.items.as_slice(), library.cells(), table)
}
