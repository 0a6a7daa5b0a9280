// The pins of a cell, with its supplies.
ghost use Rattle.std.specs.Prelude.{◌≡◌, ◌↔◌, ◌++◌, map, filter, IsTrue, IfOk, OnOk};
ghost use Rattle.vlsi_base.specs.Names.{scalar, vdd, vss, comes_before};
ghost use Rattle.cell_model.specs.View.{function_view};
ghost use Rattle.cell_model.specs.Cell.{pin_ports};
ghost use Rattle.cell_pins.specs.Pins.{with_supply, all_ports, IsClockPin};

use cell_model::{Cell, Function, Pin};
use std::alloc::{AllocError, Global};
use vlsi_base::{Dir, Name, Port, Text};

fn copied(alloc: Global, port: &Port) -> Result<Port, AllocError>
    ensures { IfOk result (λ made. made ≡ port.now) }
{
    Ok(Port {
        name: port.name.copy(alloc)?,
        dir: port.dir,
    })
}

fn signal_ports(alloc: Global, pins: &[Pin]) -> Result<Vec<Port>, AllocError>
    ensures { IfOk result (λ ports. ports.items ≡ map (λ p. p.port) pins.now) }
{
    let mut ports = Vec::new(alloc);
    for pin in pins {
        ports.push(copied(alloc, &pin.port)?)?;
    }
    Ok(ports)
}

/// Puts those ports behind the others that come before a name.
fn push_before(
    alloc: Global,
    made: &mut Vec<Port>,
    ports: &[Port],
    name: &Name,
) -> Result<(), AllocError>
    ensures { OnOk result (made.new.items ≡ made.old.items ++ filter (λ p. comes_before p.name name.now) ports.now) }
{
    for port in ports {
        if port.name.compare(name).is_lt() {
            made.push(copied(alloc, port)?)?;
        }
    }
    Ok(())
}

/// Puts those ports behind the others that a name comes before.
fn push_behind(
    alloc: Global,
    made: &mut Vec<Port>,
    ports: &[Port],
    name: &Name,
) -> Result<(), AllocError>
    ensures { OnOk result (made.new.items ≡ made.old.items ++ filter (λ p. comes_before name.now p.name) ports.now) }
{
    for port in ports {
        if name.compare(&port.name).is_lt() {
            made.push(copied(alloc, port)?)?;
        }
    }
    Ok(())
}

/// The ports with a supply where its name belongs.
fn add_supply(alloc: Global, ports: &[Port], text: &[u8]) -> Result<Vec<Port>, AllocError>
    ensures { IfOk result (λ made. made.items ≡ with_supply (scalar text.now) ports.now) }
{
    let name = Name::scalar(Text::from_bytes(alloc, text)?);
    let mut made = Vec::new(alloc);
    push_before(alloc, &mut made, ports, &name)?;
    made.push(Port {
        name: name.copy(alloc)?,
        dir: Dir::In,
    })?;
    push_behind(alloc, &mut made, ports, &name)?;
    Ok(made)
}

/// Ports in the order of names with vdd and vss where their names belong. Takes memory for their names.
pub fn with_supplies(alloc: Global, ports: &[Port]) -> Result<Vec<Port>, AllocError>
    ensures { IfOk result (λ made. made.items ≡ with_supply vss (with_supply vdd ports.now)) }
{
    let ports = add_supply(alloc, ports, b"vdd")?;
    add_supply(alloc, &ports, b"vss")
}

/// The pins of a cell in the order of names, vdd and vss among them. Takes memory for their names.
pub fn all_ports(alloc: Global, cell: &Cell) -> Result<Vec<Port>, AllocError>
    ensures { IfOk result (λ ports. ports.items ≡ all_ports cell.now) }
{
    let ports = signal_ports(alloc, cell.pins.as_slice())?;
    with_supplies(alloc, &ports)
}

/// Whether a pin of a cell with this function is a clock pin. Takes no memory.
pub(crate) fn is_clock_pin(function: &Function, name: &Name) -> bool
    ensures { IsTrue result ↔ IsClockPin (function_view function.now) name.now }
{
    match function {
        Function::Gate(_) => false,
        Function::FlipFlop { clock, .. } => clock.is_same(name),
        Function::Other(machine) => match machine.clock() {
            Some(clock) => clock.is_same(name),
            None => false,
        },
        Function::Opaque => false,
    }
}
