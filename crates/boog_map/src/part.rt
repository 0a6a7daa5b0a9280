// Cells as a netlist uses them, and what their pins are tied to.
ghost use Rattle.std.specs.Prelude.{◌≡◌, ◌∷◌, [], map, filter, not, length, IfOk};
ghost use Rattle.vlsi_base.specs.Names.{scalar};
ghost use Rattle.machine_core.specs.Machine.{is_input, names_of};
ghost use Rattle.machine_core.specs.Named.{is_same_name};
ghost use Rattle.cell_model.specs.Cell.{cell_inputs};
ghost use Rattle.cell_model.specs.Library.{IsUsable};
ghost use Rattle.boog_map.specs.Tied.{read_pins, name_place, tie_of, tied_pin, IsPart};

use cell_model::{Cell, Function, Pin};
use cell_pins::{all_ports, is_scalar};
use std::alloc::{AllocError, Global};
use vlsi_base::{Dir, Name, Names, Port, Text};

/// What a pin of a cell is tied to.
#[derive(Clone, Copy)]
pub(crate) enum Tie {
    High,
    Low,
    /// The node that the cell shows.
    Shown,
    /// What the cell reads at this place.
    Read(usize),
}

/// A pin, and what it is tied to.
#[derive(Drop)]
pub(crate) struct TiedPin {
    pub(crate) name: Name,
    pub(crate) tie: Tie,
}

/// A cell as a netlist uses it: its name, its pins with vdd and vss in the order of names, what these are tied to, and its
/// output pin.
#[derive(Drop)]
pub(crate) struct Part {
    pub(crate) model: Text,
    pub(crate) pins: Names,
    pub(crate) ties: Vec<TiedPin>,
    pub(crate) output: Name,
}

/// Whether the two are one name.
pub(crate) fn is_same(a: &Name, b: &Name) -> bool
    ensures { result ≡ is_same_name a.now b.now }
{
    a.is_same(b)
}

/// Whether a name is this text without a bit.
pub(crate) fn is_named(name: &Name, text: &[u8]) -> bool
    ensures { result ≡ is_same_name name.now (scalar text.now) }
{
    is_scalar(name, text)
}

fn input_names(alloc: Global, pins: &[Pin]) -> Result<Vec<Name>, AllocError>
    ensures { IfOk result (λ names. names.items ≡ names_of (filter (λ p. is_input p.dir) (map (λ p. p.port) pins.now))) }
{
    let mut names = Vec::new(alloc);
    for pin in pins {
        if pin.port.dir == Dir::In {
            names.push(pin.port.name.copy(alloc)?)?;
        }
    }
    Ok(names)
}

fn both_names(alloc: Global, first: &Name, second: &Name) -> Result<Vec<Name>, AllocError>
    ensures { IfOk result (λ names. names.items ≡ first.now ∷ second.now ∷ []) }
{
    let mut names = Vec::new(alloc);
    names.push(first.copy(alloc)?)?;
    names.push(second.copy(alloc)?)?;
    Ok(names)
}

/// The pins that a cell reads: of a gate its inputs in the order of names, of a flip-flop the data pin and then the clock pin.
fn read_pins(alloc: Global, cell: &Cell) -> Result<Vec<Name>, AllocError>
    ensures { IfOk result (λ names. names.items ≡ read_pins cell.now) }
{
    match cell.function.as_enum() {
        Function::FlipFlop { data, clock } => both_names(alloc, data, clock),
        _ => input_names(alloc, cell.pins.as_slice()),
    }
}

/// The first place of a name, or how many there are where it isn't among them.
fn name_place(name: &Name, names: &[Name]) -> usize
    ensures { result ≡ name_place name.now names.now }
{
    for (place, other) in names.iter().enumerate() {
        if is_same(other, name) {
            return place;
        }
    }
    names.len()
}

fn tie_of(reads: &[Name], port: &Port) -> Tie
    ensures { result ≡ tie_of reads.now port.now }
{
    if is_named(&port.name, b"vdd") {
        return Tie::High;
    }
    if is_named(&port.name, b"vss") {
        return Tie::Low;
    }
    if port.dir == Dir::Out {
        return Tie::Shown;
    }
    Tie::Read(name_place(&port.name, reads))
}

fn tied_pins(alloc: Global, reads: &[Name], ports: &[Port]) -> Result<Vec<TiedPin>, AllocError>
    ensures { IfOk result (λ ties. ties.items ≡ map (tied_pin reads.now) ports.now) }
{
    let mut ties = Vec::new(alloc);
    for port in ports {
        let name = port.name.copy(alloc)?;
        let tie = tie_of(reads, port);
        ties.push(TiedPin { name, tie })?;
    }
    Ok(ties)
}

fn port_names(alloc: Global, ports: &[Port]) -> Result<Vec<Name>, AllocError>
    ensures { IfOk result (λ names. names.items ≡ names_of ports.now) }
{
    let mut names = Vec::new(alloc);
    for port in ports {
        names.push(port.name.copy(alloc)?)?;
    }
    Ok(names)
}

/// The first output pin.
fn output_of(alloc: Global, pins: &[Pin]) -> Result<Name, AllocError>
    requires { length (names_of (filter (λ p. not (is_input p.dir)) (map (λ p. p.port) pins.now))) ≡ 1 }
    ensures { IfOk result (λ name. names_of (filter (λ p. not (is_input p.dir)) (map (λ p. p.port) pins.now)) ≡ name ∷ []) }
{
    for pin in pins {
        if pin.port.dir == Dir::Out {
            return pin.port.name.copy(alloc);
        }
    }
    unreachable!()
}

/// A cell as a netlist uses it. Takes memory for the names of its pins.
pub(crate) fn part_of_cell(alloc: Global, cell: &Cell) -> Result<Part, AllocError>
    requires { IsUsable cell.now }
    ensures { IfOk result (λ p. IsPart cell.now p) }
{
    let ports = all_ports(alloc, cell)?;
    let pins = port_names(alloc, &ports)?;
    let reads = read_pins(alloc, cell)?;
    let ties = tied_pins(alloc, &reads, &ports)?;
    Ok(Part {
        model: cell.name.copy(alloc)?,
        pins: Names::new(pins),
        ties,
        output: output_of(alloc, cell.pins.as_slice())?,
    })
}
