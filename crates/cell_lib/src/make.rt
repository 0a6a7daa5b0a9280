// A cell of its text and its layout.
ghost use Rattle.std.specs.Prelude.{◌≡◌, IfOk, IfErr};
ghost use Rattle.cell_lib.specs.Cells.{OrMemory};
ghost use Rattle.cell_lib.specs.Library.{DoesAs, LooksAs, IsSaid, IsUnsaid};

use crate::{LibError, read_behaviour, read_layout};
use ap_io::Figure;
use cell_function::{arcs_of, function_of, pins_of};
use cell_model::{Cell, CellFunction};
use std::alloc::{AllocError, Global};
use vbe_io::CellText;
use vlsi_base::Text;

/// The cell of this name that a text and a layout say.
fn make_cell(alloc: Global, name: &Text, text: CellText, figure: Figure) -> Result<Cell, AllocError>
    ensures name { IfOk result (λ c. c.name ≡ name.now) }
    ensures does { IfOk result (λ c. DoesAs text c) }
    ensures looks { IfOk result (λ c. LooksAs figure c) }
{
    let CellText {
        name: _,
        ports,
        generics,
        machine,
    } = text;
    let name = name.copy(alloc)?;
    let pins = pins_of(alloc, ports.as_slice(), generics.as_slice())?;
    let function = function_of(alloc, machine)?;
    let arcs = arcs_of(alloc, &function, ports.as_slice(), generics.as_slice())?;
    Ok(Cell {
        name,
        bounds: figure.bounds,
        items: figure.items,
        pins,
        function: CellFunction::new(function),
        arcs,
    })
}

/// The cell of this name that its two files say, the behaviour read first.
pub(crate) fn said_cell(alloc: Global, name: &Text, vbe: &[u8], ap: &[u8]) -> Result<Cell, LibError>
    ensures ok { IfOk result (λ c. IsSaid (record { name = name.now; vbe = vbe.now; ap = ap.now }) c) }
    ensures err { IfErr result (λ e. OrMemory (IsUnsaid (record { name = name.now; vbe = vbe.now; ap = ap.now })) e) }
{
    let text = read_behaviour(alloc, name, vbe)?;
    let figure = read_layout(alloc, name, ap)?;
    let cell = make_cell(alloc, name, text, figure)?;
    Ok(cell)
}
