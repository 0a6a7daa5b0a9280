// What instances show.
ghost use Rattle.std.specs.Prelude.{◌≡◌, ◌++◌, ◌∷◌, [], neg_ℤ, IfOk, OnOk, All};
ghost use Rattle.vlsi_base.specs.Member.{In};
ghost use Rattle.sym_geom.specs.Rect.{HasCoordinates, IsCoordinate, moved};
ghost use Rattle.sym_geom.specs.declared.item.Instance.{Instance as PlacedInstance};
ghost use Rattle.sym_shapes.specs.Ready.{IsReady};
ghost use Rattle.cell_model.specs.Layout.{instances_of};
ghost use Rattle.cell_model.specs.Usable.{IsFormed};
ghost use Rattle.cell_checks.specs.Checked.{library_of};
ghost use Rattle.cougar_extract.specs.Stages.{HasCellEdges, placed_rect as placed_rect_of};
ghost use Rattle.real_boxes.specs.Marks.{instance_marks, item_shows, marks as marks_of, placed_mark as mark_placed};

use crate::mark::{Mark, drawn_by};
use cell_model::Cell;
use s2r_cif::cell_of;
use std::alloc::{AllocError, Global};
use sym_geom::{Instance, Item, Rect, transform};

/// A rectangle of a cell, counted from the lower left corner of the cell's box.
fn from_corner(corner: &Rect, rect: &Rect) -> Rect
    requires corner { HasCoordinates corner.now }
    requires rect { HasCellEdges rect.now }
    ensures { result ≡ moved rect.now (neg_ℤ corner.now.x1) (neg_ℤ corner.now.y1) }
{
    Rect {
        x1: rect.x1 - corner.x1,
        y1: rect.y1 - corner.y1,
        x2: rect.x2 - corner.x1,
        y2: rect.y2 - corner.y1,
    }
}

/// Where an instance shows a rectangle of its cell.
fn placed_rect(cell: &Cell, instance: &Instance, rect: &Rect) -> Rect
    requires bounds { HasCoordinates cell.now.bounds }
    requires rect { HasCellEdges rect.now }
    requires x { IsCoordinate instance.now.x }
    requires y { IsCoordinate instance.now.y }
    ensures { result ≡ placed_rect_of cell.now instance.now rect.now }
{
    let bounds = &cell.bounds;
    let width = bounds.x2 - bounds.x1;
    let height = bounds.y2 - bounds.y1;
    transform(
        instance.transform,
        from_corner(bounds, rect),
        width,
        height,
        instance.x,
        instance.y,
    )
}

/// What a cell draws, as an instance shows it.
fn placed(alloc: Global, cell: &Cell, instance: &Instance, mark: &Mark) -> Result<Mark, AllocError>
    requires bounds { HasCoordinates cell.now.bounds }
    requires rect { HasCellEdges mark.now.core }
    requires x { IsCoordinate instance.now.x }
    requires y { IsCoordinate instance.now.y }
    ensures { IfOk result (λ made. made ≡ mark_placed cell.now instance.now mark.now) }
{
    Ok(Mark {
        word: mark.word.copy(alloc)?,
        metal: mark.metal,
        above: mark.above,
        upright: mark.upright,
        core: placed_rect(cell, instance, &mark.core),
    })
}

/// Puts what an instance shows behind what is there.
fn place(
    alloc: Global,
    marks: &mut Vec<Mark>,
    cell: &Cell,
    instance: &Instance,
) -> Result<(), AllocError>
    requires formed { IsFormed cell.now }
    requires x { IsCoordinate instance.now.x }
    requires y { IsCoordinate instance.now.y }
    ensures { OnOk result (marks.new.items ≡ marks.old.items ++ instance_marks (Some cell.now) instance.now) }
{
    let drawn = drawn_by(alloc, cell.items.as_slice())?;
    for mark in &drawn {
        marks.push(placed(alloc, cell, instance, mark)?)?;
    }
    Ok(())
}

/// Puts what a line that is an instance shows behind what is there.
fn place_item(
    alloc: Global,
    marks: &mut Vec<Mark>,
    item: &Item,
    cells: &[Cell],
) -> Result<(), AllocError>
    requires formed { All IsFormed cells.now }
    requires places { (i : PlacedInstance) → In i (instances_of (item.now ∷ [])) → IsCoordinate i.x × IsCoordinate i.y }
    ensures { OnOk result (marks.new.items ≡ marks.old.items ++ item_shows (library_of cells.now) item.now) }
{
    let Item::Instance(instance) = item else {
        return Ok(());
    };
    let Some(cell) = cell_of(cells, &instance.model) else {
        return Ok(());
    };
    place(alloc, marks, cell, instance)
}

/// What is drawn in a layout: its own lines, and what its instances show. Takes memory for them, and time for them and for each
/// instance and each cell.
pub fn layout_marks(alloc: Global, items: &[Item], cells: &[Cell]) -> Result<Vec<Mark>, AllocError>
    requires ready { All IsReady items.now }
    requires formed { All IsFormed cells.now }
    requires places { (i : PlacedInstance) → In i (instances_of items.now) → IsCoordinate i.x × IsCoordinate i.y }
    ensures { IfOk result (λ marks. marks.items ≡ marks_of (library_of cells.now) items.now) }
{
    let mut marks = drawn_by(alloc, items)?;
    for item in items {
        place_item(alloc, &mut marks, item, cells)?;
    }
    Ok(marks)
}
