// The loads of classes, and the cells of models.
ghost use Rattle.std.specs.Prelude.{◌≡◌, ◌+◌, ◌*◌, ◌^◌, ◌<◌, ◌≤◌, ◌++◌, ◌&&◌, ℕ, map, length, slice_get, slice_index, IfOk, OnOk};
ghost use Rattle.std.specs.List.{All, zip, sum_by};
ghost use Rattle.machine_core.specs.Machine.{is_input};
ghost use Rattle.machine_core.specs.Named.{is_same_name};
ghost use Rattle.cell_model.specs.Library.{cell_named};
ghost use Rattle.delay_sta.specs.Loads.{input_capacitance, pins_at, capacitances, share, load};
ghost use Rattle.delay_sta.specs.Graph.{AreFound};

use cell_checks::Library;
use cell_model::{Cell, Pin};
use net_core::Netlist;
use std::alloc::{AllocError, Global};
use vlsi_base::{Dir, Name, Text};

/// The place of the first cell of this name among cells; how many there are where none has it.
fn cell_place(cells: &[Cell], model: &Text) -> usize
    ensures { slice_get cells.now result ≡ cell_named cells.now model.now }
{
    for place in 0..cells.len() {
        if cells[place].name.is_same(model) {
            return place;
        }
    }
    cells.len()
}

/// The places of the cells of models.
pub fn cell_places(alloc: Global, models: &[Text], cells: &[Cell]) -> Result<Vec<usize>, AllocError>
    ensures { IfOk result (λ places. AreFound cells.now models.now places.items) }
{
    let mut places = Vec::new(alloc);
    for model in models {
        places.push(cell_place(cells, model))?;
    }
    Ok(places)
}

fn is_input_named(pin: &Pin, name: &Name) -> bool
    ensures { result ≡ (is_input pin.now.port.dir && is_same_name pin.now.port.name name.now) }
{
    match pin.port.dir {
        Dir::In => pin.port.name.is_same(name),
        Dir::Out => false,
    }
}

/// The capacitance of the input pin of this name.
pub(crate) fn input_capacitance(pins: &[Pin], name: &Name) -> u32
    ensures { result ≡ input_capacitance pins.now name.now }
{
    for pin in pins {
        if is_input_named(pin, name) {
            return pin.capacitance;
        }
    }
    0
}

/// The pins of the cell at a place; none where there is no cell.
fn pins_at(cells: &[Cell], place: usize) -> &[Pin]
    ensures { result.now ≡ pins_at (slice_get cells.now place) }
{
    match cells.get(place) {
        Some(cell) => cell.pins.as_slice(),
        None => &[],
    }
}

/// Puts the capacitances of an instance's pins behind the others.
fn push_capacitances(
    capacitances: &mut Vec<u32>,
    cell_pins: &[Pin],
    names: &[Name],
) -> Result<(), AllocError>
    ensures { OnOk result (capacitances.new.items ≡ capacitances.old.items ++ map (input_capacitance cell_pins.now) names.now) }
{
    for name in names {
        capacitances.push(input_capacitance(cell_pins, name))?;
    }
    Ok(())
}

/// The capacitance of each terminal.
fn capacitances(
    alloc: Global,
    netlist: &Netlist,
    library: &Library,
    places: &[usize],
) -> Result<Vec<u32>, AllocError>
    requires { AreFound library.now.cells netlist.now.models places.now }
    ensures { IfOk result (λ made. made.items ≡ capacitances netlist.now library.now) }
{
    let mut capacitances = vec![in alloc; 0; netlist.ports().len()]?;
    for node in netlist.nodes() {
        let pins = pins_at(library.cells(), places[node.model]);
        push_capacitances(&mut capacitances, pins, node.pins.as_slice())?;
    }
    Ok(capacitances)
}

/// The sum of the capacitances in each class.
fn sums(
    alloc: Global,
    count: u32,
    capacitances: &[u32],
    classes: &[u32],
) -> Result<Vec<u64>, AllocError>
    requires each { length capacitances.now ≡ length classes.now }
    requires inside { All (λ class. class < count) classes.now }
    requires few { length classes.now < 2 ^ 32 }
    ensures many { IfOk result (λ sums. length sums.items ≡ count) }
    ensures sums { IfOk result (λ sums. (class : ℕ) → class < count
        → slice_index sums.items class ≡ sum_by (share class) (zip capacitances.now classes.now)) }
    ensures short { IfOk result (λ _. All (λ c. c < 2 ^ 32) capacitances.now) }
{
    let mut sums: Vec<u64> = vec![in alloc; 0; count as usize]?;
    for k in 0..classes.len() {
        sums[classes[k] as usize] += u64::from(capacitances[k]);
    }
    Ok(sums)
}

/// The load of each class.
pub fn loads(
    alloc: Global,
    netlist: &Netlist,
    library: &Library,
    places: &[usize],
) -> Result<Vec<u64>, AllocError>
    requires { AreFound library.now.cells netlist.now.models places.now }
    ensures many { IfOk result (λ loads. length loads.items ≡ netlist.now.count) }
    ensures loads { IfOk result (λ loads. (class : ℕ) → class < netlist.now.count → slice_index loads.items class ≡ load netlist.now library.now class) }
    ensures short { IfOk result (λ _. All (λ c. c < 2 ^ 32) (capacitances netlist.now library.now)) }
{
    let capacitances = capacitances(alloc, netlist, library, places)?;
    sums(alloc, netlist.count(), &capacitances, netlist.classes())
}
