// The shapes of a layout.
ghost use Rattle.std.specs.Prelude.{◌≡◌, ◌⊎◌, ◌++◌, ◌∷◌, [], ◌<◌, ◌^◌, neg_ℤ, false, Some, IfOk, OnOk, IfErr, All, length, replicate};
ghost use Rattle.std.specs.Option.{option_copied};
ghost use Rattle.vlsi_base.specs.Member.{In};
ghost use Rattle.sym_geom.specs.Rect.{IsCoordinate, HasCoordinates, moved};
ghost use Rattle.sym_geom.specs.declared.item.Instance.{Instance as PlacedInstance};
ghost use Rattle.sym_shapes.specs.Ready.{IsReady};
ghost use Rattle.sym_shapes.specs.Shape.{drawn as drawn_of};
ghost use Rattle.cell_model.specs.Layout.{placed as placed_shape, instance_shapes, instances_of, all_instances_show, shapes as shapes_of};
ghost use Rattle.cell_model.specs.Usable.{IsFormed};
ghost use Rattle.cell_checks.specs.Checked.{library_of};
ghost use Rattle.cougar_extract.specs.declared.error.ExtractError.TheVariants as error;
ghost use Rattle.cougar_extract.specs.Extracted.{AreKnown};
ghost use Rattle.cougar_extract.specs.Stages.{HasCellEdges, placed_rect as placed_rect_of, instance_gives, all_instances_give, gives as gives_of, IsUnknownRefusal};

use crate::cells::{cell_of, is_output};
use crate::error::ExtractError;
use cell_model::Cell;
use std::alloc::{AllocError, Global};
use sym_geom::{Instance, Item, Rect, transform};
use sym_shapes::{Shape, drawn};
use vlsi_base::{Name, Text};

/// The shapes of a layout, and for each whether it is a connector of an output pin of an instance.
#[derive(Drop)]
pub struct Drawing {
    pub shapes: Vec<Shape>,
    pub gives: Vec<bool>,
}

/// A copy of a name, if there is one.
fn copied(alloc: Global, name: Option<&Name>) -> Result<Option<Name>, AllocError>
    ensures { IfOk result (λ made. made ≡ option_copied name.entry) }
{
    match name {
        Some(own) => Ok(Some(own.copy(alloc)?)),
        None => Ok(None),
    }
}

/// A rectangle of a cell, counted from the lower left corner of the cell's box.
fn from_corner(corner: &Rect, rect: &Rect) -> Rect
    requires corner { HasCoordinates corner.now }
    requires rect { HasCellEdges rect.now }
    ensures { result ≡ moved rect.now (neg_ℤ corner.now.x1) (neg_ℤ corner.now.y1) }
{
    Rect {
        x1: rect.x1 - corner.x1,
        y1: rect.y1 - corner.y1,
        x2: rect.x2 - corner.x1,
        y2: rect.y2 - corner.y1,
    }
}

/// Where an instance shows a rectangle of its cell.
fn placed_rect(cell: &Cell, instance: &Instance, rect: &Rect) -> Rect
    requires bounds { HasCoordinates cell.now.bounds }
    requires rect { HasCellEdges rect.now }
    requires x { IsCoordinate instance.now.x }
    requires y { IsCoordinate instance.now.y }
    ensures { result ≡ placed_rect_of cell.now instance.now rect.now }
{
    let bounds = &cell.bounds;
    let width = bounds.x2 - bounds.x1;
    let height = bounds.y2 - bounds.y1;
    transform(
        instance.transform,
        from_corner(bounds, rect),
        width,
        height,
        instance.x,
        instance.y,
    )
}

/// A shape of a cell as an instance shows it.
fn placed(
    alloc: Global,
    cell: &Cell,
    instance: &Instance,
    shape: &Shape,
) -> Result<Shape, AllocError>
    requires bounds { HasCoordinates cell.now.bounds }
    requires rect { HasCellEdges shape.now.rect }
    requires x { IsCoordinate instance.now.x }
    requires y { IsCoordinate instance.now.y }
    ensures { IfOk result (λ made. made ≡ placed_shape cell.now instance.now shape.now) }
{
    let rect = placed_rect(cell, instance, &shape.rect());
    let owner = instance.name.copy(alloc)?;
    let name = copied(alloc, shape.name())?;
    Ok(Shape::new(shape.metal(), rect, Some(owner), shape.line(), name))
}

/// Puts the shapes of an instance behind those that are there.
fn place(
    alloc: Global,
    drawing: &mut Drawing,
    cell: &Cell,
    instance: &Instance,
) -> Result<(), AllocError>
    requires formed { IsFormed cell.now }
    requires x { IsCoordinate instance.now.x }
    requires y { IsCoordinate instance.now.y }
    ensures shapes { OnOk result (drawing.new.shapes.items ≡ drawing.old.shapes.items ++ instance_shapes (Some cell.now) instance.now) }
    ensures gives { OnOk result (drawing.new.gives.items ≡ drawing.old.gives.items ++ instance_gives (Some cell.now)) }
{
    let shapes = drawn(alloc, cell.items.as_slice())?;
    for shape in &shapes {
        drawing.shapes.push(placed(alloc, cell, instance, shape)?)?;
        drawing.gives.push(is_output(cell, shape.name()))?;
    }
    Ok(())
}

fn unknown(alloc: Global, model: &Text) -> ExtractError
    ensures { (result ≡ error.Memory) ⊎ (result ≡ error.UnknownCell model.now) }
{
    match model.copy(alloc) {
        Ok(model) => ExtractError::UnknownCell(model),
        Err(_) => ExtractError::Memory,
    }
}

/// Puts the shapes of a line that is an instance behind those that are there.
fn place_item(
    alloc: Global,
    drawing: &mut Drawing,
    item: &Item,
    cells: &[Cell],
) -> Result<(), ExtractError>
    requires formed { All IsFormed cells.now }
    requires places { (i : PlacedInstance) → In i (instances_of (item.now ∷ [])) → IsCoordinate i.x × IsCoordinate i.y }
    ensures shapes { OnOk result (drawing.new.shapes.items ≡ drawing.old.shapes.items
        ++ all_instances_show (library_of cells.now) (instances_of (item.now ∷ []))) }
    ensures gives { OnOk result (drawing.new.gives.items ≡ drawing.old.gives.items
        ++ all_instances_give (library_of cells.now) (instances_of (item.now ∷ []))) }
    ensures known { OnOk result (AreKnown (instances_of (item.now ∷ [])) (library_of cells.now)) }
    ensures refused { IfErr result (λ e. IsUnknownRefusal (instances_of (item.now ∷ [])) (library_of cells.now) e) }
{
    let Item::Instance(instance) = item else {
        return Ok(());
    };
    let Some(cell) = cell_of(cells, &instance.model) else {
        return Err(unknown(alloc, &instance.model));
    };
    place(alloc, drawing, cell, instance)?;
    Ok(())
}

/// What the lines of a figure draw; no instance is placed yet.
fn own_shapes(alloc: Global, items: &[Item]) -> Result<Drawing, AllocError>
    requires ready { All IsReady items.now }
    requires few { length items.now < 2 ^ 32 }
    ensures shapes { IfOk result (λ d. d.shapes.items ≡ drawn_of items.now) }
    ensures gives { IfOk result (λ d. d.gives.items ≡ replicate (length (drawn_of items.now)) false) }
{
    let shapes = drawn(alloc, items)?;
    let gives = vec![in alloc; false; shapes.len()]?;
    Ok(Drawing { shapes, gives })
}

/// The shapes of a figure with these cells. It is refused by `UnknownCell` exactly where the model of an instance is no cell, at
/// the first such. Takes memory for the shapes, and time for them and for each instance and each cell.
pub fn draw_layout(alloc: Global, items: &[Item], cells: &[Cell]) -> Result<Drawing, ExtractError>
    requires ready { All IsReady items.now }
    requires few { length items.now < 2 ^ 32 }
    requires places { (i : PlacedInstance) → In i (instances_of items.now) → IsCoordinate i.x × IsCoordinate i.y }
    requires formed { All IsFormed cells.now }
    ensures shapes { IfOk result (λ d. d.shapes.items ≡ shapes_of items.now (library_of cells.now)) }
    ensures gives { IfOk result (λ d. d.gives.items ≡ gives_of items.now (library_of cells.now)) }
    ensures known { OnOk result (AreKnown (instances_of items.now) (library_of cells.now)) }
    ensures refused { IfErr result (λ e. IsUnknownRefusal (instances_of items.now) (library_of cells.now) e) }
{
    let mut drawing = own_shapes(alloc, items)?;
    for item in items {
        place_item(alloc, &mut drawing, item, cells)?;
    }
    Ok(drawing)
}
