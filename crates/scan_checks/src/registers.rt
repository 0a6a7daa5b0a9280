// The registers of a netlist.
ghost use Rattle.std.specs.Prelude.{◌≡◌, ◌∷◌, ◌+◌, ◌<◌, ◌^◌, [], List, false, filter, map, not, length, slice_index_or, IfOk, IfSome, IsNone, OnOk};
ghost use Rattle.std.specs.Option.{option_copied};
ghost use Rattle.vlsi_base.specs.declared.name.Name.{Name as PinName};
ghost use Rattle.machine_core.specs.Machine.{names_of, is_input};
ghost use Rattle.cell_model.specs.Library.{cell_named, IsUsable};
ghost use Rattle.cell_model.specs.View.{function_view};
ghost use Rattle.net_core.specs.Places.{IsThere};
ghost use Rattle.net_core.specs.Netlist.{IsNetlist};
ghost use Rattle.scan_theory.specs.Path.{is_flip_flop, register_names};
ghost use Rattle.scan_checks.specs.Room.{HasRoomForScan};
ghost use Rattle.scan_checks.specs.Registers.{IsScannable, IsDataPin, IsPinAt, IsRegisterBy, AreRegisters, IsNodeOf, PushesRegister};

use cell_checks::Library;
use cell_model::{Cell, Function, Pin};
use net_core::{Netlist, Node};
use std::alloc::{AllocError, Global};
use vlsi_base::{Dir, Name, Text};

/// A register of a netlist: its name, the place of its data pin among the terminals, and the classes of its data pin and of its output
/// pin.
#[derive(Drop)]
pub struct Register {
    pub name: Text,
    pub place: usize,
    pub loads: usize,
    pub gives: usize,
}

// The first cell of this name.
fn cell_named<'l>(cells: &'l [Cell], model: &Text) -> Option<&'l Cell>
    ensures { option_copied result ≡ cell_named cells.now model.now }
{
    for cell in cells {
        if cell.name.is_same(model) {
            return Some(cell);
        }
    }
    None
}

// The data pin of a flip-flop; none of another cell.
fn data_pin(function: &Function) -> Option<&Name>
    ensures some { IfSome result (λ pin. IsDataPin (function_view function.now) pin.now) }
    ensures none { IsNone result → is_flip_flop (function_view function.now) ≡ false }
{
    match function {
        Function::FlipFlop { data, .. } => Some(data),
        Function::Gate(_) => None,
        Function::Other(_) => None,
        Function::Opaque => None,
    }
}

// The first output pin.
fn output_pin(pins: &[Pin]) -> Option<&Name>
    ensures some { IfSome result (λ pin. (rest : List PinName)
        × (names_of (filter (λ p. not (is_input p.dir)) (map (λ p. p.port) pins.now)) ≡ pin.now ∷ rest)) }
    ensures none { IsNone result → names_of (filter (λ p. not (is_input p.dir)) (map (λ p. p.port) pins.now)) ≡ [] }
{
    for pin in pins {
        match pin.port.dir {
            Dir::Out => return Some(&pin.port.name),
            Dir::In => {}
        }
    }
    None
}

// The place of an instance's pin among the terminals.
fn pin_place(node: &Node, pin: &Name) -> usize
    ensures { IsThere node.now.pins pin.now → IsPinAt node.now pin.now result }
{
    let pins = node.pins.as_slice();
    for place in 0..pins.len() {
        if pins[place].is_same(pin) {
            return node.first as usize + place;
        }
    }
    node.first as usize
}

fn class_at(classes: &[u32], place: usize) -> usize
    ensures { result ≡ slice_index_or classes.now place 0 }
{
    match classes.get(place) {
        Some(class) => *class as usize,
        None => 0,
    }
}

// The register that an instance of a usable cell is, if it is one. Takes memory for its name.
fn register_of(
    alloc: Global,
    cell: &Cell,
    node: &Node,
    classes: &[u32],
) -> Result<Option<Register>, AllocError>
    requires { IsUsable cell.now }
    ensures some { IfOk result (λ o. IfSome o (λ r. IsRegisterBy cell.now node.now classes.now r)) }
    ensures none { IfOk result (λ o. IsNone o → is_flip_flop cell.now.function ≡ false) }
{
    let Some(data) = data_pin(cell.function.as_enum()) else {
        return Ok(None);
    };
    let Some(output) = output_pin(cell.pins.as_slice()) else {
        return Ok(None);
    };
    let place = pin_place(node, data);
    Ok(Some(Register {
        name: node.name.copy(alloc)?,
        place,
        loads: class_at(classes, place),
        gives: class_at(classes, pin_place(node, output)),
    }))
}

// Puts the register that an instance is, if it is one, behind the others.
fn push_register(
    alloc: Global,
    registers: &mut Vec<Register>,
    netlist: &Netlist,
    library: &Library,
    node: &Node,
) -> Result<(), AllocError>
    requires scannable { IsScannable library.now netlist.now }
    requires node { IsNodeOf netlist.now node.now }
    requires known { node.now.model < length netlist.now.models }
    ensures { OnOk result (PushesRegister netlist.now library.now node.now registers.old.items registers.new.items) }
{
    let Some(cell) = cell_named(library.cells(), &netlist.models()[node.model]) else {
        return Ok(());
    };
    if let Some(register) = register_of(alloc, cell, node, netlist.classes())? {
        registers.push(register)?;
    }
    Ok(())
}

/// The registers of a netlist, in the order of its instances. Takes memory for their names; time for each instance once for each cell of
/// the library, and for its pins.
pub(crate) fn registers(
    alloc: Global,
    netlist: &Netlist,
    library: &Library,
) -> Result<Vec<Register>, AllocError>
    requires scannable { IsScannable library.now netlist.now }
    requires room { HasRoomForScan netlist.now }
    ensures registers { IfOk result (λ rs. AreRegisters netlist.now library.now (register_names library.now netlist.now) rs.items) }
    ensures few { IfOk result (λ rs. length rs.items < 2 ^ 27) }
    ensures sound { OnOk result (IsNetlist netlist.now) }
{
    // What is known of each netlist.
    let _ = netlist.classes();
    let mut registers = Vec::new(alloc);
    let nodes = netlist.nodes();
    for node in nodes {
        push_register(alloc, &mut registers, netlist, library, node)?;
    }
    Ok(registers)
}
