// Cells by their names, and which of their connectors are output pins.
ghost use Rattle.std.specs.Prelude.{◌≡◌};
ghost use Rattle.std.specs.Option.{option_copied};
ghost use Rattle.cell_model.specs.Library.{cell_named};
ghost use Rattle.cougar_extract.specs.Stages.{is_output_port, is_output as gives};

use cell_model::{Cell, Pin};
use vlsi_base::{Dir, Name, Text};

/// The first cell of this name. Takes time for each cell.
pub(crate) fn cell_of<'c>(cells: &'c [Cell], model: &Text) -> Option<&'c Cell>
    ensures { option_copied result ≡ cell_named cells.now model.now }
{
    for cell in cells {
        if cell.name.is_same(model) {
            return Some(cell);
        }
    }
    None
}

fn is_output_pin(pin: &Pin, name: &Name) -> bool
    ensures { result ≡ is_output_port name.now pin.now.port }
{
    match pin.port.dir {
        Dir::In => false,
        Dir::Out => pin.port.name.is_same(name),
    }
}

/// Whether a connector of this name is an output pin.
pub(crate) fn is_output(cell: &Cell, name: Option<&Name>) -> bool
    ensures { result ≡ gives cell.now (option_copied name.entry) }
{
    let Some(wanted) = name else {
        return false;
    };
    let pins = cell.pins.as_slice();
    for pin in pins {
        if is_output_pin(pin, wanted) {
            return true;
        }
    }
    false
}
