// The cells of a library that a netlist is made of.
ghost use Rattle.std.specs.Prelude.{◌≡◌, ◌↔◌, length, IsTrue, IfOk, All, if◌then◌else◌};
ghost use Rattle.vlsi_base.specs.Member.{In};
ghost use Rattle.vlsi_base.specs.declared.kind.Kind.{Kind};
ghost use Rattle.cell_model.specs.Covering.{HasKind, HasCellOf, needed};
ghost use Rattle.cell_model.specs.Library.{IsUsable};
ghost use Rattle.cell_model.specs.Usable.{IsFormed};
ghost use Rattle.cell_model.specs.Connectors.{PinsAreConnectors};
ghost use Rattle.cell_checks.specs.Checked.{library_of};
ghost use Rattle.gate_cells.specs.Listed.{AreGateCells};
ghost use Rattle.boog_map.specs.Tied.{part_of, IsCellOf, IsUsableAt, IsRegisterPart, AreGateParts, AreParts};

use crate::part::{Part, part_of_cell};
use cell_model::{Cell, Kind, kind_of, usable};
use gate_cells::GateCells;
use std::alloc::{AllocError, Global};

/// Which cell an instance has: that of registers, or the gate of this number.
#[derive(Clone, Copy)]
pub(crate) enum Role {
    Register,
    Gate(usize),
}

/// The cells that a netlist is made of: gates by rising width with their parts, and the cell of registers.
#[derive(Drop)]
pub(crate) struct Parts {
    pub(crate) cells: GateCells,
    pub(crate) gates: Vec<Part>,
    pub(crate) register: Part,
}

impl Parts {
    /// The cell of a role. Takes no memory.
    pub(crate) fn of(&self, role: Role) -> &Part
        ensures { result.now ≡ part_of self.now role }
    {
        match role {
            Role::Register => &self.register,
            Role::Gate(number) => match self.gates.get(number) {
                Some(part) => part,
                None => &self.register,
            },
        }
    }
}

/// The cells at these places as a netlist uses them. Takes memory for the names of their pins.
fn parts_at(alloc: Global, cells: &[Cell], places: &[usize]) -> Result<Vec<Part>, AllocError>
    requires { All (IsUsableAt cells.now) places.now }
    ensures { IfOk result (λ parts. AreGateParts cells.now places.now parts.items) }
{
    let mut parts = Vec::new(alloc);
    for place in places {
        parts.push(part_of_cell(alloc, &cells[*place])?)?;
    }
    Ok(parts)
}

/// Whether a netlist may use the cell, and it has the kind.
#[tactic(auto, using(cell_model::proofs::KindLemmas::kind_told, cell_model::proofs::KindLemmas::kind_said))]
fn is_cell_of(cell: &Cell, kind: Kind) -> bool
    requires formed { IsFormed cell.now }
    requires connectors { PinsAreConnectors cell.now }
    ensures { IsTrue result ↔ (IsUsable cell.now × HasKind cell.now kind) }
{
    usable(cell) && kind_of(cell) == Some(kind)
}

/// The first usable cell of a kind.
fn chosen(cells: &[Cell], kind: Kind) -> &Cell
    requires formed { All IsFormed cells.now }
    requires connectors { All PinsAreConnectors cells.now }
    requires there { HasCellOf cells.now kind }
    ensures { IsCellOf cells.now kind result.now }
{
    for cell in cells {
        if is_cell_of(cell, kind) {
            return cell;
        }
    }
    unreachable!()
}

/// The first usable flip-flop. Without registers none is needed, and an inverter stands for it. Takes memory for the names of its
/// pins.
fn register_part(alloc: Global, cells: &[Cell], registers: bool) -> Result<Part, AllocError>
    requires formed { All IsFormed cells.now }
    requires connectors { All PinsAreConnectors cells.now }
    requires there { (k : Kind) → In k (needed registers) → HasCellOf cells.now k }
    ensures { IfOk result (λ p. IsRegisterPart cells.now registers p) }
{
    let kind = if registers { Kind::Dff } else { Kind::Inv };
    part_of_cell(alloc, chosen(cells, kind))
}

/// The gates of a library as a netlist uses them, and its first flip-flop where there are registers. Takes memory for the names of
/// their pins.
pub(crate) fn chosen_parts(
    alloc: Global,
    cells: &[Cell],
    gates: GateCells,
    registers: bool,
) -> Result<Parts, AllocError>
    requires formed { All IsFormed cells.now }
    requires connectors { All PinsAreConnectors cells.now }
    requires there { (k : Kind) → In k (needed registers) → HasCellOf cells.now k }
    requires gates { AreGateCells (library_of cells.now) gates }
    ensures { IfOk result (λ ps. AreParts (library_of cells.now) registers ps) }
{
    let parts = parts_at(alloc, cells, &gates.places)?;
    Ok(Parts {
        cells: gates,
        gates: parts,
        register: register_part(alloc, cells, registers)?,
    })
}
