// The sinks of each net of a netlist.
ghost use Rattle.std.specs.Prelude.{◌≡◌, ◌<◌, ◌++◌, [], false, map, length, IfOk, OnOk};
ghost use Rattle.std.specs.List.{All, flat_map, list_any};
ghost use Rattle.std.specs.Option.{option_copied};
ghost use Rattle.machine_core.specs.Machine.{is_clock};
ghost use Rattle.machine_core.specs.Named.{is_same_name};
ghost use Rattle.cell_model.specs.Cell.{cell_inputs};
ghost use Rattle.cell_model.specs.View.{function_view};
ghost use Rattle.cell_model.specs.Library.{cell_named};
ghost use Rattle.net_core.specs.Frame.{instance_of};
ghost use Rattle.loon_loads.specs.Sinks.{is_clock_of, is_sink_pin, is_sink_of};
ghost use Rattle.loon_loads.specs.Loads.{is_input_among, pin_marks, all_marks, AddsLoad, AreLoads, EmptiesLoad, AreNetLoads};

use cell_checks::Library;
use cell_model::{Cell, Function, Pin};
use machine_core::Machine;
use net_core::{Netlist, Node};
use std::alloc::{AllocError, Global};
use vlsi_base::{Dir, Name, Port, Text};

/// The first cell of this name.
fn cell_named<'l>(cells: &'l [Cell], model: &Text) -> Option<&'l Cell>
    ensures { option_copied result ≡ cell_named cells.now model.now }
{
    for cell in cells {
        if cell.name.is_same(model) {
            return Some(cell);
        }
    }
    None
}

#[tactic(auto, using(cell_pins::proofs::Starts::same_test))]
fn is_same(a: &Name, b: &Name) -> bool
    ensures { result ≡ is_same_name a.now b.now }
{
    a.is_same(b)
}

fn is_clock(machine: &Machine, name: &Name) -> bool
    ensures { result ≡ is_clock machine.now.clock name.now }
{
    match machine.clock() {
        Some(clock) => is_same(clock, name),
        None => false,
    }
}

fn is_clock_of(function: &Function, name: &Name) -> bool
    ensures { result ≡ is_clock_of (function_view function.now) name.now }
{
    match function {
        Function::Gate(_) => false,
        Function::FlipFlop { clock, .. } => is_same(clock, name),
        Function::Other(machine) => is_clock(machine, name),
        Function::Opaque => false,
    }
}

fn is_input_of(pins: &[Pin], name: &Name) -> bool
    ensures { result ≡ is_input_among pins.now name.now }
{
    for pin in pins {
        if pin.port.dir == Dir::In && is_same(&pin.port.name, name) {
            return true;
        }
    }
    false
}

#[tactic(auto, using(crate::proofs::Marking::input_of))]
fn is_sink_pin(cell: &Cell, name: &Name) -> bool
    ensures { result ≡ is_sink_pin cell.now name.now }
{
    is_input_of(cell.pins.as_slice(), name) && !is_clock_of(cell.function.as_enum(), name)
}

fn is_sink_of(cell: Option<&Cell>, name: &Name) -> bool
    ensures { result ≡ is_sink_of (option_copied cell.entry) name.now }
{
    match cell {
        Some(cell) => is_sink_pin(cell, name),
        None => false,
    }
}

/// Puts a mark for each pin behind the others: whether it is a sink.
fn push_marks(marks: &mut Vec<bool>, cell: Option<&Cell>, pins: &[Name]) -> Result<(), AllocError>
    ensures { OnOk result (marks.new.items ≡ marks.old.items ++ map (is_sink_of (option_copied cell.entry)) pins.now) }
{
    for pin in pins {
        marks.push(is_sink_of(cell, pin))?;
    }
    Ok(())
}

fn push_nodes(
    marks: &mut Vec<bool>,
    models: &[Text],
    library: &Library,
    nodes: &[Node],
) -> Result<(), AllocError>
    requires { All (λ i. i.model < length models.now) nodes.now }
    ensures { OnOk result (marks.new.items ≡ marks.old.items ++ flat_map (pin_marks library.now) (map (instance_of models.now) nodes.now)) }
{
    for node in nodes {
        let cell = cell_named(library.cells(), &models[node.model]);
        push_marks(marks, cell, node.pins.as_slice())?;
    }
    Ok(())
}

fn unmarked(alloc: Global, ports: &[Port]) -> Result<Vec<bool>, AllocError>
    ensures { IfOk result (λ marks. marks.items ≡ map (λ p. false) ports.now) }
{
    let mut marks = Vec::new(alloc);
    for _ in ports {
        marks.push(false)?;
    }
    Ok(marks)
}

/// A mark for each terminal in order: whether it is a sink.
fn sink_marks(alloc: Global, netlist: &Netlist, library: &Library) -> Result<Vec<bool>, AllocError>
    ensures { IfOk result (λ marks. marks.items ≡ all_marks library.now netlist.now) }
{
    let mut marks = unmarked(alloc, netlist.ports())?;
    push_nodes(&mut marks, netlist.models(), library, netlist.nodes())?;
    Ok(marks)
}

fn no_loads(alloc: Global, count: u32) -> Result<Vec<Vec<usize>>, AllocError>
    ensures { IfOk result (λ loads. AreLoads [] [] count loads.items) }
{
    let mut loads = Vec::new(alloc);
    for _ in 0..count {
        loads.push(Vec::new(alloc))?;
    }
    Ok(loads)
}

/// Puts a place behind those of a class, if it is marked.
fn add_load(
    loads: &mut Vec<Vec<usize>>,
    mark: bool,
    class: usize,
    place: usize,
) -> Result<(), AllocError>
    requires { class < length loads.old.items }
    ensures { OnOk result (AddsLoad loads.old.items loads.new.items mark class place) }
{
    if !mark {
        return Ok(());
    }
    loads[class].push(place)?;
    Ok(())
}

/// The places of each class that are marked.
fn marked_loads(
    alloc: Global,
    count: u32,
    marks: &[bool],
    classes: &[u32],
) -> Result<Vec<Vec<usize>>, AllocError>
    requires each { length marks.now ≡ length classes.now }
    requires inside { All (λ class. class < count) classes.now }
    ensures { IfOk result (λ loads. AreLoads marks.now classes.now count loads.items) }
{
    let mut loads = no_loads(alloc, count)?;
    for place in 0..classes.len() {
        add_load(&mut loads, marks[place], classes[place] as usize, place)?;
    }
    Ok(loads)
}

/// Drops the places of a class.
fn empty_load(loads: &mut Vec<Vec<usize>>, class: usize)
    requires { class < length loads.old.items }
    ensures { EmptiesLoad loads.old.items loads.new.items class }
{
    loads[class].clear();
}

/// The places of the sinks of each net among the terminals, in order: of the input pins of instances in its class, other than
/// clock pins. The classes of the two supplies are no nets and have none. Takes memory for a mark for each terminal and for the
/// places; time for each instance once for each cell of the library.
pub fn net_loads(
    alloc: Global,
    netlist: &Netlist,
    library: &Library,
    high: usize,
    low: usize,
) -> Result<Vec<Vec<usize>>, AllocError>
    requires high { high < netlist.now.count }
    requires low { low < netlist.now.count }
    ensures { IfOk result (λ loads. AreNetLoads (all_marks library.now netlist.now) netlist.now.classes netlist.now.count high low loads.items) }
{
    let marks = sink_marks(alloc, netlist, library)?;
    let mut loads = marked_loads(alloc, netlist.count(), &marks, netlist.classes())?;
    empty_load(&mut loads, high);
    empty_load(&mut loads, low);
    Ok(loads)
}
