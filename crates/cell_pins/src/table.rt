// The table of pins of a library's cells.
ghost use Rattle.std.specs.Prelude.{◌≡◌, ◌<◌, ◌^◌, ◌↔◌, All, length, map, IsTrue, IfOk};
ghost use Rattle.net_core.specs.Checks.{IsPinTable};
ghost use Rattle.cell_checks.specs.Checked.{library_of};
ghost use Rattle.cell_model.specs.Usable.{IsFormed};
ghost use Rattle.cell_model.specs.Connectors.{PinsAreConnectors};
ghost use Rattle.cell_model.specs.View.{function_view};
ghost use Rattle.cell_pins.specs.Table.{AreDependences, IsPinOf, ArePins, IsModelOf, IsListed, AreModels, IsTableOf};

use crate::follows::depends_on;
use crate::pins::{all_ports, is_clock_pin};
use cell_checks::Library;
use cell_model::{Cell, Function, usable};
use net_core::{ModelPin, ModelPins, PinPlaces, PinTable};
use std::alloc::{AllocError, Global};
use vlsi_base::{Listed, Port};

/// The places of the inputs among a cell's ports on which an output depends at once, in rising order.
fn dependences(
    alloc: Global,
    function: &Function,
    ports: &[Port],
    output: &Port,
) -> Result<PinPlaces, AllocError>
    requires { length ports.now < 2 ^ 32 }
    ensures { IfOk result (λ places. AreDependences (function_view function.now) ports.now output.now places) }
{
    let mut places = Vec::new(alloc);
    for (place, input) in ports.iter().enumerate() {
        if depends_on(alloc, function, output, input)? {
            places.push(place as u32)?;
        }
    }
    Ok(Listed::new(places))
}

fn pin_of(
    alloc: Global,
    function: &Function,
    ports: &[Port],
    port: &Port,
) -> Result<ModelPin, AllocError>
    requires { length ports.now < 2 ^ 32 }
    ensures { IfOk result (λ pin. IsPinOf (function_view function.now) ports.now port.now pin) }
{
    Ok(ModelPin {
        name: port.name.copy(alloc)?,
        dir: port.dir,
        is_clock: is_clock_pin(function, &port.name),
        depends_on: dependences(alloc, function, ports, port)?,
    })
}

fn pins_of(alloc: Global, function: &Function, ports: &[Port]) -> Result<Vec<ModelPin>, AllocError>
    requires { length ports.now < 2 ^ 32 }
    ensures { IfOk result (λ pins. ArePins (function_view function.now) ports.now ports.now pins.items) }
{
    let mut pins = Vec::new(alloc);
    for port in ports {
        pins.push(pin_of(alloc, function, ports, port)?)?;
    }
    Ok(pins)
}

fn model_of(alloc: Global, cell: &Cell) -> Result<ModelPins, AllocError>
    requires formed { IsFormed cell.now }
    requires connectors { PinsAreConnectors cell.now }
    ensures { IfOk result (λ model. IsModelOf cell.now model) }
{
    let ports = all_ports(alloc, cell)?;
    let pins = pins_of(alloc, cell.function.as_enum(), &ports)?;
    Ok(ModelPins {
        model: cell.name.copy(alloc)?,
        pins: Listed::new(pins),
    })
}

fn models_of(alloc: Global, cells: &[Cell], all: bool) -> Result<Vec<ModelPins>, AllocError>
    requires formed { All IsFormed cells.now }
    requires connectors { All PinsAreConnectors cells.now }
    ensures { IfOk result (λ models. AreModels (IsListed all) cells.now models.items) }
{
    let mut models = Vec::new(alloc);
    for cell in cells {
        if all || usable(cell) {
            models.push(model_of(alloc, cell)?)?;
        }
    }
    Ok(models)
}

/// The pins of each cell of a library in the order of its list, or of the usable cells alone: names and pins with vdd and vss,
/// and of each output the inputs on which it depends at once. Takes memory for the table, and meanwhile for one bit for each
/// name of a cell's machine.
pub fn pin_table(alloc: Global, library: &Library, all: bool) -> Result<PinTable, AllocError>
    ensures table { IfOk result (λ table. IsTableOf library.now all table) }
    ensures sound { IfOk result (λ table. IsPinTable table) }
{
    let models = models_of(alloc, library.cells(), all)?;
    Ok(Listed::new(models))
}
