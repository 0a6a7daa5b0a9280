// The rectangles of pins.
ghost use Rattle.std.specs.Prelude.{◌≡◌, IfOk};
ghost use Rattle.cell_model.specs.Access.{is_named as is_name_of};
ghost use Rattle.cell_model.specs.Connectors.{connector_rects};
ghost use Rattle.cell_model.specs.Usable.{IsFormed};

use crate::Cell;
use std::alloc::{AllocError, Global};
use sym_geom::Rect;
use sym_shapes::{Shape, drawn};
use vlsi_base::{Listed, Name};

/// Rectangles in their order.
pub type Rects = Listed<Rect>;

/// Whether a shape is a connector of this name.
fn is_named(shape: &Shape, pin: &Name) -> bool
    ensures { result ≡ is_name_of pin.now shape.now.name }
{
    match shape.name() {
        Some(name) => name.is_same(pin),
        None => false,
    }
}

/// The connector rectangles of a pin, in the order of the lines that draw them: none for a name that no connector has. Takes
/// memory for the shapes of the cell.
pub fn pin_rects(alloc: Global, cell: &Cell, pin: &Name) -> Result<Rects, AllocError>
    requires { IsFormed cell.now }
    ensures { IfOk result (λ rects. rects ≡ connector_rects cell.now pin.now) }
{
    let shapes = drawn(alloc, cell.items.as_slice())?;
    let mut rects = Vec::new(alloc);
    for shape in &shapes {
        if is_named(shape, pin) {
            rects.push(shape.rect())?;
        }
    }
    Ok(Listed::new(rects))
}
