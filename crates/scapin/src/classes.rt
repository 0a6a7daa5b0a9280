// The class of each terminal of a netlist with a scan path.
ghost use Rattle.std.specs.Prelude.{◌≡◌, ◌+◌, ◌*◌, ◌<◌, ◌≤◌, ◌^◌, ◌++◌, All, map, drop, length, IfOk, OnOk};
ghost use Rattle.std.specs.List.{flat_map};
ghost use Rattle.vlsi_base.specs.Names.{scalar};
ghost use Rattle.machine_core.specs.Named.{is_same_name};
ghost use Rattle.net_core.specs.Netlist.{port, IsNetlist, IsClassOf};
ghost use Rattle.scan_theory.specs.Gates.{read_class};
ghost use Rattle.scan_theory.specs.Scan.{class_in, on_supply};
ghost use Rattle.scapin.specs.Gates.{number_of, reads_of};
ghost use Rattle.scapin.specs.Classes.{lines_of, part_for, line_class, pin_class, gate_classes, moved, all_classes};

use crate::gates::{Gate, shown};
use cell_pins::is_scalar;
use net_core::Netlist;
use scan_checks::{Part, Parts, Plan, Register};
use std::alloc::{AllocError, Global};
use vlsi_base::{Name, Port, Terminal, Text};

/// How many classes the given netlist has, and the classes of the supplies and of scout.
#[derive(Clone, Copy)]
pub(crate) struct Lines {
    pub(crate) count: usize,
    high: usize,
    low: usize,
    scout: usize,
}

#[tactic(auto, using(cell_pins::proofs::Starts::same_test))]
fn is_named(name: &Name, text: &[u8]) -> bool
    ensures { result ≡ is_same_name name.now (scalar text.now) }
{
    is_scalar(name, text)
}

#[tactic(auto, using(cell_pins::proofs::Starts::same_test))]
fn is_same(a: &Name, b: &Name) -> bool
    ensures { result ≡ is_same_name a.now b.now }
{
    a.is_same(b)
}

// The class of a port of the given netlist.
fn port_class(alloc: Global, netlist: &Netlist, name: &Name) -> Result<Option<u32>, AllocError>
    ensures class { IfOk result (λ class. IsClassOf netlist.now (port name.now) class) }
    ensures sound { IsNetlist netlist.now }
{
    // What is known of each netlist.
    let _ = netlist.classes();
    let terminal = Terminal {
        instance: None,
        pin: name.copy(alloc)?,
    };
    Ok(netlist.class(&terminal))
}

// The class of a port of the given netlist, or 0 where it has no such port.
fn class_or_zero(alloc: Global, netlist: &Netlist, name: &Name) -> Result<usize, AllocError>
    ensures { IfOk result (λ class. class ≡ class_in netlist.now (port name.now)) }
{
    match port_class(alloc, netlist, name)? {
        Some(class) => Ok(class as usize),
        None => Ok(0),
    }
}

// The class of a supply, or this one behind the others where the given netlist has no such port.
fn class_or_new(
    alloc: Global,
    netlist: &Netlist,
    name: &Name,
    new: usize,
) -> Result<usize, AllocError>
    requires { new < 2 ^ 32 }
    ensures { IfOk result (λ class. class ≡ on_supply netlist.now name.now new) }
{
    match port_class(alloc, netlist, name)? {
        Some(class) => Ok(class as usize),
        None => Ok(netlist.count() as usize + new),
    }
}

fn supply_class(
    alloc: Global,
    netlist: &Netlist,
    text: &[u8],
    new: usize,
) -> Result<usize, AllocError>
    requires { new < 2 ^ 32 }
    ensures { IfOk result (λ class. class ≡ on_supply netlist.now (scalar text.now) new) }
{
    let name = Name::scalar(Text::from_bytes(alloc, text)?);
    class_or_new(alloc, netlist, &name, new)
}

impl Lines {
    /// Those of a netlist with so many registers.
    pub(crate) fn of(alloc: Global, netlist: &Netlist, many: usize) -> Result<Self, AllocError>
        requires { many < 2 ^ 32 }
        ensures lines { IfOk result (λ lines. lines ≡ lines_of netlist.now many) }
        ensures few { IfOk result (λ lines. lines.count < 2 ^ 32) }
    {
        let count = netlist.count() as usize;
        Ok(Lines {
            count,
            high: supply_class(alloc, netlist, b"vdd", 2)?,
            low: supply_class(alloc, netlist, b"vss", 3)?,
            scout: shown(count, 3 * many + 2),
        })
    }

    // The class of a port.
    fn class(self, alloc: Global, netlist: &Netlist, name: &Name) -> Result<usize, AllocError>
        requires { self.count < 2 ^ 32 }
        ensures { IfOk result (λ class. class ≡ line_class netlist.now self name.now) }
    {
        if is_named(name, b"scin") {
            return Ok(self.count);
        }
        if is_named(name, b"test") {
            return Ok(self.count + 1);
        }
        if is_named(name, b"scout") {
            return Ok(self.scout);
        }
        if is_named(name, b"vdd") {
            return Ok(self.high);
        }
        if is_named(name, b"vss") {
            return Ok(self.low);
        }
        class_or_zero(alloc, netlist, name)
    }
}

// Puts the classes of the ports behind the others.
fn push_ports(
    alloc: Global,
    classes: &mut Vec<usize>,
    netlist: &Netlist,
    lines: Lines,
    ports: &[Port],
) -> Result<(), AllocError>
    requires { lines.count < 2 ^ 32 }
    ensures { OnOk result (classes.new.items ≡ classes.old.items ++ map (λ p. line_class netlist.now lines p.name) ports.now) }
{
    for port in ports {
        classes.push(lines.class(alloc, netlist, &port.name)?)?;
    }
    Ok(())
}

fn wide(class: u32) -> usize
    ensures { result ≡ class }
{
    class as usize
}

fn widened(alloc: Global, classes: &[u32]) -> Result<Vec<usize>, AllocError>
    ensures { IfOk result (λ wide. wide.items ≡ classes.now) }
{
    let mut wider = Vec::new(alloc);
    for class in classes {
        wider.push(wide(*class))?;
    }
    Ok(wider)
}

// Puts the data pin of each register into the class of the multiplexer before it.
fn move_pins(classes: &mut [usize], count: usize, registers: &[Register])
    requires count { count < 2 ^ 32 }
    requires few { length registers.now < 2 ^ 32 }
    requires places { All (λ r. r.place < length classes.old) registers.now }
    ensures { classes.new ≡ moved count 0 registers.now classes.old }
{
    for place in 0..registers.len() {
        classes[registers[place].place] = shown(count, 3 * place + 3);
    }
}

// What stands behind so many classes.
fn behind(classes: &[usize], many: usize) -> &[usize]
    ensures { result.now ≡ drop many classes.now }
{
    if many <= classes.len() {
        &classes[many..]
    } else {
        &[]
    }
}

// Puts the classes of the given instances' pins behind the others.
fn push_pins(
    alloc: Global,
    classes: &mut Vec<usize>,
    netlist: &Netlist,
    registers: &[Register],
) -> Result<(), AllocError>
    requires few { length registers.now < 2 ^ 32 }
    requires places { All (λ r. r.place < length netlist.now.classes) registers.now }
    ensures { OnOk result (classes.new.items
        ≡ classes.old.items ++ drop (length netlist.now.ports) (moved netlist.now.count 0 registers.now netlist.now.classes)) }
{
    let mut all = widened(alloc, netlist.classes())?;
    move_pins(&mut all, netlist.count() as usize, registers);
    classes.extend_from_slice(behind(&all, netlist.ports().len()))?;
    Ok(())
}

/// The cell of a gate.
pub(crate) fn part_for(parts: &Parts, gate: Gate) -> &Part
    ensures { result.now ≡ part_for parts.now gate }
{
    match gate {
        Gate::Inverts { .. } => &parts.inverter,
        Gate::Nands { .. } => &parts.nand,
    }
}

// The class that stands beside the name of an input; for another pin that of the output.
fn read_class(inputs: &[Name], gate: Gate, output: usize, pin: &Name) -> usize
    ensures { result ≡ read_class inputs.now (reads_of gate) output pin.now }
{
    for place in 0..inputs.len() {
        if is_same(&inputs[place], pin) {
            return gate.read(place, output);
        }
    }
    output
}

// The class of a pin of a gate.
fn pin_class(lines: Lines, inputs: &[Name], gate: Gate, pin: &Name) -> usize
    requires count { lines.count < 2 ^ 32 }
    requires number { number_of gate < 2 ^ 40 }
    ensures { result ≡ pin_class lines inputs.now gate pin.now }
{
    if is_named(pin, b"vdd") {
        return lines.high;
    }
    if is_named(pin, b"vss") {
        return lines.low;
    }
    read_class(inputs, gate, shown(lines.count, gate.number()), pin)
}

// Puts the classes of a gate's pins behind the others.
fn push_gate(
    classes: &mut Vec<usize>,
    lines: Lines,
    part: &Part,
    gate: Gate,
) -> Result<(), AllocError>
    requires count { lines.count < 2 ^ 32 }
    requires number { number_of gate < 2 ^ 40 }
    ensures { OnOk result (classes.new.items ≡ classes.old.items ++ map (pin_class lines part.now.inputs gate) part.now.pins) }
{
    let inputs = part.inputs.as_slice();
    for pin in part.pins.as_slice() {
        classes.push(pin_class(lines, inputs, gate, pin))?;
    }
    Ok(())
}

// Puts the classes of the gates' pins behind the others.
fn push_gates(
    classes: &mut Vec<usize>,
    lines: Lines,
    parts: &Parts,
    gates: &[Gate],
) -> Result<(), AllocError>
    requires count { lines.count < 2 ^ 32 }
    requires numbers { All (λ g. number_of g < 2 ^ 40) gates.now }
    ensures { OnOk result (classes.new.items ≡ classes.old.items ++ flat_map (gate_classes lines parts.now) gates.now) }
{
    for gate in gates {
        push_gate(classes, lines, part_for(parts, *gate), *gate)?;
    }
    Ok(())
}

/// The class of each terminal, ports before the pins of the given instances and then of the gates. Takes memory for each of them.
pub(crate) fn all_classes(
    alloc: Global,
    netlist: &Netlist,
    plan: &Plan,
    ports: &[Port],
    gates: &[Gate],
) -> Result<Vec<usize>, AllocError>
    requires few { length plan.now.registers.items < 2 ^ 32 }
    requires places { All (λ r. r.place < length netlist.now.classes) plan.now.registers.items }
    requires numbers { All (λ g. number_of g < 2 ^ 40) gates.now }
    ensures { IfOk result (λ classes. classes.items ≡ all_classes netlist.now plan.now ports.now gates.now) }
{
    let lines = Lines::of(alloc, netlist, plan.registers.len())?;
    let mut classes = Vec::new(alloc);
    push_ports(alloc, &mut classes, netlist, lines, ports)?;
    push_pins(alloc, &mut classes, netlist, &plan.registers)?;
    push_gates(&mut classes, lines, &plan.parts, gates)?;
    Ok(classes)
}
