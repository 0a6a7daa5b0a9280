// What groups of sinks are put behind.
ghost use Rattle.std.specs.Prelude.{◌≡◌, ◌↔◌, ◌∷◌, [], Bool, map, filter, length, IsTrue, IfOk, IfSome, IfNone, All, if◌then◌else◌};
ghost use Rattle.vlsi_base.specs.Member.{In};
ghost use Rattle.bool_expr.specs.Expression.{val, IsOver};
ghost use Rattle.bool_expr.specs.View.{view};
ghost use Rattle.machine_core.specs.Machine.{is_input, names_of};
ghost use Rattle.machine_core.specs.Named.{is_same_name};
ghost use Rattle.vlsi_base.specs.Names.{scalar};
ghost use Rattle.cell_model.specs.Cell.{cell_inputs};
ghost use Rattle.cell_model.specs.Usable.{IsFormed};
ghost use Rattle.cell_model.specs.Connectors.{PinsAreConnectors};
ghost use Rattle.cell_model.specs.declared.cell.Cell.{Cell};
ghost use Rattle.loon_wiring.specs.Repeaters.{GivesItsInput, IsBufferCell, IsInverterCell, IsFirst, NoneRepeats};
ghost use Rattle.loon_wiring.specs.Stages.{tie_of, IsPart, IsRepeaterOf};

use bool_expr::{Expr, value_at};
use cell_checks::Library;
use cell_model::{Cell, Function, Kind, Pin, kind_of, usable};
use cell_pins::{all_ports, is_scalar};
use std::alloc::{AllocError, Global};
use vlsi_base::{Dir, Name, Names, Port, Text};

/// What a pin of a gate of one input is tied to.
#[derive(Clone, Copy)]
pub enum Tie {
    /// The class of vdd.
    High,
    /// The class of vss.
    Low,
    /// The class that the gate reads.
    Read,
    /// The class that it drives.
    Driven,
}

/// A cell of one input: its name, its pins with vdd and vss in the order of names, what each is tied to, and whether two gates of
/// it stand in a row.
#[derive(Drop)]
pub struct Repeater {
    pub model: Text,
    pub pins: Names,
    pub ties: Vec<Tie>,
    pub twice: bool,
}

/// Whether a gate of one input gives it.
fn gives_its_input(e: &Expr) -> bool
    requires { IsOver (view e.now) 1 }
    ensures { IsTrue result ↔ ((a : Bool) → val (view e.now) (a ∷ []) ≡ a) }
{
    !value_at(e, &[false]) && value_at(e, &[true])
}

fn count_inputs(pins: &[Pin]) -> usize
    ensures { result ≡ length (filter (λ p. is_input p.port.dir) pins.now) }
{
    pins.iter().filter(|pin| pin.port.dir == Dir::In).count()
}

/// Whether a gate of so many inputs has one, and gives it.
fn is_buffer_gate(e: &Expr, inputs: usize) -> bool
    requires { IsOver (view e.now) inputs }
    ensures { IsTrue result ↔ ((inputs ≡ 1) × ((a : Bool) → val (view e.now) (a ∷ []) ≡ a)) }
{
    inputs == 1 && gives_its_input(e)
}

/// Whether a cell is a gate that gives its one input.
fn gives_input(cell: &Cell) -> bool
    requires { IsFormed cell.now }
    ensures { IsTrue result ↔ GivesItsInput cell.now.function (length (cell_inputs cell.now)) }
{
    match cell.function.as_enum() {
        Function::Gate(e) => is_buffer_gate(e, count_inputs(cell.pins.as_slice())),
        Function::FlipFlop { .. } => false,
        Function::Other(_) => false,
        Function::Opaque => false,
    }
}

fn is_buffer(cell: &Cell) -> bool
    requires formed { IsFormed cell.now }
    requires connectors { PinsAreConnectors cell.now }
    ensures { IsTrue result ↔ IsBufferCell cell.now }
{
    usable(cell) && gives_input(cell)
}

#[tactic(auto, using(cell_model::proofs::KindLemmas::kind_told, cell_model::proofs::KindLemmas::kind_said))]
fn is_inverter(cell: &Cell) -> bool
    requires formed { IsFormed cell.now }
    requires connectors { PinsAreConnectors cell.now }
    ensures { IsTrue result ↔ IsInverterCell cell.now }
{
    usable(cell) && kind_of(cell) == Some(Kind::Inv)
}

fn first_buffer(cells: &[Cell]) -> Option<&Cell>
    requires formed { All IsFormed cells.now }
    requires connectors { All PinsAreConnectors cells.now }
    ensures found { IfSome result (λ c. IsFirst IsBufferCell cells.now c.now) }
    ensures none { IfNone result ((c : Cell) → In c cells.now → IsBufferCell c → ⊥) }
{
    for cell in cells {
        if is_buffer(cell) {
            return Some(cell);
        }
    }
    None
}

fn first_inverter(cells: &[Cell]) -> Option<&Cell>
    requires formed { All IsFormed cells.now }
    requires connectors { All PinsAreConnectors cells.now }
    ensures found { IfSome result (λ c. IsFirst IsInverterCell cells.now c.now) }
    ensures none { IfNone result ((c : Cell) → In c cells.now → IsInverterCell c → ⊥) }
{
    for cell in cells {
        if is_inverter(cell) {
            return Some(cell);
        }
    }
    None
}

#[tactic(auto, using(cell_pins::proofs::Starts::same_test))]
fn is_named(name: &Name, text: &[u8]) -> bool
    ensures { result ≡ is_same_name name.now (scalar text.now) }
{
    is_scalar(name, text)
}

fn tie_of(port: &Port) -> Tie
    ensures { result ≡ tie_of port.now }
{
    if is_named(&port.name, b"vdd") {
        return Tie::High;
    }
    if is_named(&port.name, b"vss") {
        return Tie::Low;
    }
    match port.dir {
        Dir::In => Tie::Read,
        Dir::Out => Tie::Driven,
    }
}

fn ties_of(alloc: Global, ports: &[Port]) -> Result<Vec<Tie>, AllocError>
    ensures { IfOk result (λ ties. ties.items ≡ map tie_of ports.now) }
{
    let mut ties = Vec::new(alloc);
    for port in ports {
        ties.push(tie_of(port))?;
    }
    Ok(ties)
}

fn port_names(alloc: Global, ports: &[Port]) -> Result<Vec<Name>, AllocError>
    ensures { IfOk result (λ names. names.items ≡ names_of ports.now) }
{
    let mut names = Vec::new(alloc);
    for port in ports {
        names.push(port.name.copy(alloc)?)?;
    }
    Ok(names)
}

fn repeater_of(alloc: Global, cell: &Cell, twice: bool) -> Result<Repeater, AllocError>
    ensures { IfOk result (λ r. IsPart cell.now (if twice then 2 else 1) r) }
{
    let ports = all_ports(alloc, cell)?;
    Ok(Repeater {
        model: cell.name.copy(alloc)?,
        pins: Names::new(port_names(alloc, &ports)?),
        ties: ties_of(alloc, &ports)?,
        twice,
    })
}

/// Two gates of the first inverter; none where there is none.
fn two_inverters(alloc: Global, cells: &[Cell]) -> Result<Option<Repeater>, AllocError>
    requires formed { All IsFormed cells.now }
    requires connectors { All PinsAreConnectors cells.now }
    requires no_buffer { (c : Cell) → In c cells.now → IsBufferCell c → ⊥ }
    ensures found { IfOk result (λ r. IfSome r (λ b. IsRepeaterOf cells.now b)) }
    ensures none { IfOk result (λ r. IfNone r (NoneRepeats cells.now)) }
{
    match first_inverter(cells) {
        Some(cell) => Ok(Some(repeater_of(alloc, cell, true)?)),
        None => Ok(None),
    }
}

/// One gate of the first buffer, or two of the first inverter where there is no buffer; none where there is neither. Takes memory
/// for the names of pins.
pub fn make_repeater(alloc: Global, cells: &[Cell]) -> Result<Option<Repeater>, AllocError>
    requires formed { All IsFormed cells.now }
    requires connectors { All PinsAreConnectors cells.now }
    ensures found { IfOk result (λ r. IfSome r (λ b. IsRepeaterOf cells.now b)) }
    ensures none { IfOk result (λ r. IfNone r (NoneRepeats cells.now)) }
{
    match first_buffer(cells) {
        Some(cell) => Ok(Some(repeater_of(alloc, cell, false)?)),
        None => two_inverters(alloc, cells),
    }
}
