// The checks of a mappable cell's layout, over the shapes that its lines draw.
ghost use Rattle.std.specs.Prelude.{◌≡◌, ◌↔◌, IsTrue};
ghost use Rattle.sym_shapes.specs.Shape.{drawn};
ghost use Rattle.cell_model.specs.Usable.{IsFormed};
ghost use Rattle.cell_model.specs.Connectors.{PinsAreConnectors};
ghost use Rattle.cell_checks.specs.Checks.{StandsInRow, HasRails, IsReached, PinsAreApart, KeepsToItsBox, KeepsFromRails};
ghost use Rattle.cell_checks.specs.Shapes.{AreNumbered, wanted};

use crate::joined::{are_apart, keep_off};
use crate::row::{rail, strip, width_of};
use crate::shapes::{all_keep_in, are_reached, has_rail};
use cell_model::Cell;
use sym_geom::{RAIL_WIDTH, ROW_HEIGHT, VDD_STRIP_Y};
use sym_shapes::Shape;
use vlsi_base::Name;

/// Whether one connector of each supply holds its rail. The names are those of vdd, of vss and of the pins.
pub fn has_rails(cell: &Cell, shapes: &[Shape], names: &[Name]) -> bool
    requires formed { IsFormed cell.now }
    requires shapes { shapes.now ≡ drawn cell.now.items }
    requires names { names.now ≡ wanted cell.now }
    ensures { IsTrue result ↔ HasRails cell.now }
{
    if !has_rail(shapes, &names[1], rail(cell, 0, RAIL_WIDTH)) {
        return false;
    }
    has_rail(shapes, &names[0], rail(cell, VDD_STRIP_Y, ROW_HEIGHT))
}

/// Whether each signal pin has an access node.
pub fn reaches_pins(cell: &Cell, shapes: &[Shape]) -> bool
    requires row { StandsInRow cell.now }
    requires shapes { shapes.now ≡ drawn cell.now.items }
    ensures { IsTrue result ↔ IsReached cell.now }
{
    are_reached(shapes, cell.pins.as_slice())
}

/// Whether no two pins of different names are joined.
pub fn pins_are_apart(cell: &Cell, shapes: &[Shape], numbers: &[u32], names: &[Name]) -> bool
    requires formed { IsFormed cell.now }
    requires connectors { PinsAreConnectors cell.now }
    requires shapes { shapes.now ≡ drawn cell.now.items }
    requires numbered { AreNumbered shapes.now numbers.now }
    requires names { names.now ≡ wanted cell.now }
    ensures { IsTrue result ↔ PinsAreApart cell.now }
{
    are_apart(shapes, numbers, names)
}

/// Whether each shape on metal 1 lies within the box or a strip.
pub fn keeps_to_box(cell: &Cell, shapes: &[Shape]) -> bool
    requires formed { IsFormed cell.now }
    requires shapes { shapes.now ≡ drawn cell.now.items }
    ensures { IsTrue result ↔ KeepsToItsBox cell.now }
{
    let width = width_of(cell);
    let low = strip(cell, 0, RAIL_WIDTH);
    let high = strip(cell, VDD_STRIP_Y, ROW_HEIGHT);
    all_keep_in(shapes, &width, low, high)
}

/// Whether each shape on metal 1 that isn't joined to a supply is far enough from its strip.
pub fn keeps_from_rails(cell: &Cell, shapes: &[Shape], numbers: &[u32], names: &[Name]) -> bool
    requires formed { IsFormed cell.now }
    requires shapes { shapes.now ≡ drawn cell.now.items }
    requires numbered { AreNumbered shapes.now numbers.now }
    requires names { names.now ≡ wanted cell.now }
    ensures { IsTrue result ↔ KeepsFromRails cell.now }
{
    if !keep_off(shapes, numbers, &names[1], &strip(cell, 0, RAIL_WIDTH)) {
        return false;
    }
    keep_off(
        shapes,
        numbers,
        &names[0],
        &strip(cell, VDD_STRIP_Y, ROW_HEIGHT),
    )
}
