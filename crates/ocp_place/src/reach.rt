// Where the pins of the models of a netlist are reached.
ghost use Rattle.std.specs.Prelude.{◌≡◌, ◌≤ℤ◌, pos, not, Some, IfOk};
ghost use Rattle.std.specs.Option.{option_copied};
ghost use Rattle.machine_core.specs.Machine.{names_of, is_input};
ghost use Rattle.cell_model.specs.Cell.{Cell, cell_width};
ghost use Rattle.cell_model.specs.Library.{cell_named, cell_of, IsUsable};
ghost use Rattle.cell_model.specs.Usable.{IsFormed};
ghost use Rattle.cell_checks.specs.Checks.{StandsInRow};
ghost use Rattle.net_core.specs.Places.{Stands, IsThere};
ghost use Rattle.ocp_place.specs.Reaches.{IsReach, AreReaches};

use cell_checks::{GridPoint, Library, access_points};
use cell_model::{Cell, is_mappable};
use cell_pins::all_ports;
use std::alloc::{AllocError, Global};
use vlsi_base::{Dir, Name, Port, Text};

/// A pin of a cell: its place among all pins in the order of names, vdd and vss among them, whether it is an output, and the
/// point at which it is reached.
#[derive(Clone, Copy)]
pub struct PinReach {
    pub place: usize,
    pub drives: bool,
    pub point: Option<GridPoint>,
}

/// A cell: its width, and its pins without vdd and vss in the order of names.
#[derive(Drop)]
pub struct Reach {
    pub width: u64,
    pub pins: Vec<PinReach>,
}

/// The place of a name among those of ports; how many there are where it isn't there.
fn place_of(ports: &[Port], name: &Name) -> usize
    ensures { IsThere (names_of ports.now) name.now → Stands (names_of ports.now) result name.now }
{
    for place in 0..ports.len() {
        if ports[place].name.is_same(name) {
            return place;
        }
    }
    ports.len()
}

/// Whether a pin of this direction is an output.
fn is_output(dir: Dir) -> bool
    ensures { result ≡ not (is_input dir) }
{
    match dir {
        Dir::In => false,
        Dir::Out => true,
    }
}

/// Where the pins of a cell are reached. Takes memory for them, and for the shapes of the cell meanwhile.
fn cell_reach(alloc: Global, cell: &Cell) -> Result<Reach, AllocError>
    requires formed { IsFormed cell.now }
    requires row { StandsInRow cell.now }
    requires narrow { cell_width cell.now ≤ℤ pos 16000 }
    ensures { IfOk result (λ r. IsReach cell.now r) }
{
    let points = access_points(alloc, cell)?;
    let ports = all_ports(alloc, cell)?;
    let signals = cell.pins.as_slice();
    let mut pins = Vec::new(alloc);
    for k in 0..signals.len() {
        let port = &signals[k].port;
        pins.push(PinReach {
            place: place_of(&ports, &port.name),
            drives: is_output(port.dir),
            point: points[k],
        })?;
    }
    Ok(Reach {
        width: cell.bounds.x2 as u64,
        pins,
    })
}

/// The first cell of a name.
fn cell_of<'l>(cells: &'l [Cell], model: &Text) -> Option<&'l Cell>
    ensures { option_copied result ≡ cell_named cells.now model.now }
{
    for cell in cells {
        if cell.name.is_same(model) {
            return Some(cell);
        }
    }
    None
}

/// Where the pins of a model are reached whose cell is usable; no pins for any other.
fn model_reach(alloc: Global, library: &Library, model: &Text) -> Result<Reach, AllocError>
    ensures { IfOk result (λ r. (c : Cell) → cell_of library.now model.now ≡ Some c → IsUsable c → IsReach c r) }
{
    match cell_of(library.cells(), model) {
        Some(cell) if is_mappable(cell) => cell_reach(alloc, cell),
        _ => Ok(Reach {
            width: 0,
            pins: Vec::new(alloc),
        }),
    }
}

/// Where the pins of models are reached, in their order; a model that is no usable cell of the library has width 0 and no pins. Takes
/// memory for the pins of each, and for the shapes of its cell meanwhile.
pub fn reaches(alloc: Global, library: &Library, models: &[Text]) -> Result<Vec<Reach>, AllocError>
    ensures { IfOk result (λ v. AreReaches library.now models.now v.items) }
{
    let mut reaches = Vec::new(alloc);
    for model in models {
        reaches.push(model_reach(alloc, library, model)?)?;
    }
    Ok(reaches)
}
