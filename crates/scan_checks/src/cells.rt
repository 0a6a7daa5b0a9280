// The cells of the gates.
ghost use Rattle.std.specs.Prelude.{◌≡◌, ◌↔◌, map, filter, IsTrue, IfOk, IfSome, IsNone, All};
ghost use Rattle.machine_core.specs.Machine.{names_of, is_input};
ghost use Rattle.cell_model.specs.Covering.{HasKind, HasCellOf};
ghost use Rattle.cell_model.specs.Library.{IsUsable};
ghost use Rattle.cell_model.specs.Usable.{IsFormed};
ghost use Rattle.cell_model.specs.Connectors.{PinsAreConnectors};
ghost use Rattle.cell_checks.specs.Checked.{library_of};
ghost use Rattle.scan_theory.specs.Scan.{IsCellOf};
ghost use Rattle.scan_checks.specs.Cells.{IsPartOf, ArePartsOf};

use cell_model::{Cell, Kind, Pin, kind_of, usable};
use cell_pins::all_ports;
use std::alloc::{AllocError, Global};
use vlsi_base::{Dir, Name, Names, Port, Text};

/// A cell as a gate uses it: its name, its pins with vdd and vss, and its input pins, both in the order of names.
#[derive(Drop)]
pub struct Part {
    pub model: Text,
    pub pins: Names,
    pub inputs: Names,
}

/// The cells of the gates: an inverter, and a nand of two inputs.
#[derive(Drop)]
pub struct Parts {
    pub inverter: Part,
    pub nand: Part,
}

// Whether a netlist may use the cell, and it has the kind.
#[tactic(auto, using(cell_model::proofs::KindLemmas::kind_told, cell_model::proofs::KindLemmas::kind_said))]
fn is_cell_of(cell: &Cell, kind: Kind) -> bool
    requires formed { IsFormed cell.now }
    requires connectors { PinsAreConnectors cell.now }
    ensures { IsTrue result ↔ (IsUsable cell.now × HasKind cell.now kind) }
{
    usable(cell) && kind_of(cell) == Some(kind)
}

/// A usable cell of a kind: the first, though no clause says so. Takes no memory.
pub(crate) fn first_of(cells: &[Cell], kind: Kind) -> Option<&Cell>
    requires formed { All IsFormed cells.now }
    requires connectors { All PinsAreConnectors cells.now }
    ensures found { IfSome result (λ c. IsCellOf (library_of cells.now) kind c.now) }
    ensures none { IsNone result → HasCellOf cells.now kind → ⊥ }
{
    for cell in cells {
        if is_cell_of(cell, kind) {
            return Some(cell);
        }
    }
    None
}

fn port_names(alloc: Global, ports: &[Port]) -> Result<Vec<Name>, AllocError>
    ensures { IfOk result (λ names. names.items ≡ names_of ports.now) }
{
    let mut names = Vec::new(alloc);
    for port in ports {
        names.push(port.name.copy(alloc)?)?;
    }
    Ok(names)
}

fn input_names(alloc: Global, pins: &[Pin]) -> Result<Vec<Name>, AllocError>
    ensures { IfOk result (λ names. names.items ≡ names_of (filter (λ p. is_input p.dir) (map (λ p. p.port) pins.now))) }
{
    let mut names = Vec::new(alloc);
    for pin in pins {
        if pin.port.dir == Dir::In {
            names.push(pin.port.name.copy(alloc)?)?;
        }
    }
    Ok(names)
}

fn part_of(alloc: Global, cell: &Cell) -> Result<Part, AllocError>
    ensures { IfOk result (λ part. IsPartOf cell.now part) }
{
    let ports = all_ports(alloc, cell)?;
    Ok(Part {
        model: cell.name.copy(alloc)?,
        pins: Names::new(port_names(alloc, &ports)?),
        inputs: Names::new(input_names(alloc, cell.pins.as_slice())?),
    })
}

/// The cells of the gates as they are used. Takes memory for the names of their pins.
pub(crate) fn parts_of(alloc: Global, inverter: &Cell, nand: &Cell) -> Result<Parts, AllocError>
    ensures { IfOk result (λ parts. ArePartsOf (record { inverter = inverter.now; nand = nand.now }) parts) }
{
    Ok(Parts {
        inverter: part_of(alloc, inverter)?,
        nand: part_of(alloc, nand)?,
    })
}
