// The netlist of its parts.
ghost use Rattle.std.specs.Prelude.{◌≡◌, ◌++◌, ◌<◌, map, length, IfOk, OnOk};
ghost use Rattle.std.specs.List.{All};
ghost use Rattle.net_core.specs.declared.error.BuildError.TheVariants.{Memory};
ghost use Rattle.net_core.specs.Netlist.{IsNetlist, port, pin_of, terminals_of};
ghost use Rattle.net_core.specs.Joins.{draft_terminals};
ghost use Rattle.loon_fanout.specs.Building.{with_instances, with_joins, AreHeads, joins_of};
ghost use Rattle.scan_build.specs.Sketched.{instance_by, IsAddable, IsSketch, IsBuilt};

use net_core::{BuildError, Builder, Netlist};
use std::alloc::{AllocError, Global};
use vlsi_base::{Listed, Name, Names, Port, Terminal, Text};

/// An instance of a netlist: its name, its model, and its pins in the order of names.
#[derive(Drop)]
pub struct Entry {
    pub name: Text,
    pub model: Text,
    pub pins: Names,
}

/// A netlist by its parts: its name, its ports in the order of names, its instances, the class of each terminal, ports before the
/// pins of each instance in turn, and a number above all classes.
#[derive(Drop)]
pub struct Sketch {
    pub name: Text,
    pub ports: Vec<Port>,
    pub entries: Vec<Entry>,
    pub classes: Vec<usize>,
    pub count: usize,
}

/// What is refused for memory alone.
fn only_memory(error: BuildError) -> AllocError
    requires { error ≡ Memory }
{
    match error {
        BuildError::Memory => AllocError,
        BuildError::Twice => unreachable!(),
        BuildError::Unknown => unreachable!(),
    }
}

fn copied_port(alloc: Global, port: &Port) -> Result<Port, AllocError>
    ensures { IfOk result (λ copy. copy ≡ port.now) }
{
    Ok(Port {
        name: port.name.copy(alloc)?,
        dir: port.dir,
    })
}

fn copied_ports(alloc: Global, ports: &[Port]) -> Result<Vec<Port>, AllocError>
    ensures { IfOk result (λ copies. copies.items ≡ ports.now) }
{
    let mut copies = Vec::new(alloc);
    for port in ports {
        copies.push(copied_port(alloc, port)?)?;
    }
    Ok(copies)
}

fn port_terminals(alloc: Global, ports: &[Port]) -> Result<Vec<Terminal>, AllocError>
    ensures { IfOk result (λ terminals. terminals.items ≡ map (λ p. port p.name) ports.now) }
{
    let mut terminals = Vec::new(alloc);
    for port in ports {
        terminals.push(Terminal {
            instance: None,
            pin: port.name.copy(alloc)?,
        })?;
    }
    Ok(terminals)
}

fn push_pins(
    alloc: Global,
    terminals: &mut Vec<Terminal>,
    owner: &Text,
    pins: &[Name],
) -> Result<(), AllocError>
    ensures { OnOk result (terminals.new.items ≡ terminals.old.items ++ map (pin_of owner.now) pins.now) }
{
    for pin in pins {
        terminals.push(Terminal {
            instance: Some(owner.copy(alloc)?),
            pin: pin.copy(alloc)?,
        })?;
    }
    Ok(())
}

/// The terminals of these ports and instances, in order.
fn all_terminals(
    alloc: Global,
    ports: &[Port],
    entries: &[Entry],
) -> Result<Vec<Terminal>, AllocError>
    ensures { IfOk result (λ terminals. terminals.items ≡ terminals_of ports.now (map instance_by entries.now)) }
{
    let mut terminals = port_terminals(alloc, ports)?;
    for entry in entries {
        push_pins(alloc, &mut terminals, &entry.name, entry.pins.as_slice())?;
    }
    Ok(terminals)
}

fn add_all(alloc: Global, builder: &mut Builder, entries: &[Entry]) -> Result<(), AllocError>
    requires { IsAddable builder.now entries.now }
    ensures { OnOk result (builder.new ≡ with_instances builder.old (map instance_by entries.now)) }
{
    for entry in entries {
        match builder.add(alloc, &entry.name, &entry.model, &entry.pins) {
            Ok(_) => {}
            Err(error) => return Err(only_memory(error)),
        }
    }
    Ok(())
}

/// For each class the place of a terminal in it.
fn heads(alloc: Global, classes: &[usize], count: usize) -> Result<Vec<usize>, AllocError>
    requires { All (λ class. class < count) classes.now }
    ensures { IfOk result (λ heads. AreHeads classes.now heads.items) }
{
    let mut heads = vec![in alloc; 0; count]?;
    for place in 0..classes.len() {
        heads[classes[place]] = place;
    }
    Ok(heads)
}

/// Joins each terminal to the head of its class.
fn join_all(
    builder: &mut Builder,
    terminals: &[Terminal],
    classes: &[usize],
    heads: &[usize],
) -> Result<(), AllocError>
    requires terminals { terminals.now ≡ draft_terminals builder.now }
    requires each { length classes.now ≡ length terminals.now }
    requires heads { AreHeads classes.now heads.now }
    ensures { OnOk result (builder.new ≡ with_joins builder.old (joins_of terminals.now classes.now heads.now)) }
{
    for place in 0..terminals.len() {
        let head = heads[classes[place]];
        match builder.join(&terminals[place], &terminals[head]) {
            Ok(()) => {}
            Err(error) => return Err(only_memory(error)),
        }
    }
    Ok(())
}

/// The netlist of these parts, in which two terminals have one class exactly where they have one in the sketch. Instances and terminals
/// must be fewer than 2^32, so that they can be numbered. Takes memory for the netlist, and meanwhile for each terminal.
pub fn build(alloc: Global, sketch: &Sketch) -> Result<Netlist, AllocError>
    requires { IsSketch sketch.now }
    ensures built { IfOk result (λ r. IsBuilt sketch.now r) }
    ensures sound { IfOk result (λ r. IsNetlist r) }
{
    let terminals = all_terminals(alloc, &sketch.ports, &sketch.entries)?;
    let ports = copied_ports(alloc, &sketch.ports)?;
    let mut builder = Builder::begin(alloc, sketch.name.copy(alloc)?, Listed::new(ports))?;
    add_all(alloc, &mut builder, &sketch.entries)?;
    let heads = heads(alloc, &sketch.classes, sketch.count)?;
    join_all(&mut builder, &terminals, &sketch.classes, &heads)?;
    builder.finish(alloc)
}
