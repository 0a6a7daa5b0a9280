// What the models of a netlist's instances are.
ghost use Rattle.std.specs.Prelude.{◌≡◌, ◌<◌, map, length, IfOk, IfSome, IfNone};
ghost use Rattle.std.specs.Option.{option_copied};
ghost use Rattle.std.specs.List.{All};
ghost use Rattle.cell_model.specs.Library.{cell_named};
ghost use Rattle.net_flat.specs.Parts.{part_of, part_at};
ghost use Rattle.net_flat.specs.Nodes.{is_other, is_register, IsFirstOther, HasNoOther, names_by};

use cell_model::{Cell, Function};
use net_core::Node;
use std::alloc::{AllocError, Global};
use vlsi_base::{Name, Text};

/// What a cell is in a netlist: a gate, a register, or another of which this says nothing.
#[derive(Clone, Copy)]
pub enum Part {
    Gate,
    Register,
    Other,
}

/// The first cell of this name.
fn cell_named<'l>(cells: &'l [Cell], model: &Text) -> Option<&'l Cell>
    ensures { option_copied result ≡ cell_named cells.now model.now }
{
    for cell in cells {
        if cell.name.is_same(model) {
            return Some(cell);
        }
    }
    None
}

/// What a cell is; one that the library lacks counts as a gate.
fn part_of(cell: Option<&Cell>) -> Part
    ensures { result ≡ part_at (option_copied cell.entry) }
{
    match cell {
        Some(cell) => match cell.function.as_enum() {
            Function::Gate(_) => Part::Gate,
            Function::FlipFlop { .. } => Part::Register,
            Function::Other(_) | Function::Opaque => Part::Other,
        },
        None => Part::Gate,
    }
}

/// What the cell of each of these models is.
pub fn parts(alloc: Global, models: &[Text], cells: &[Cell]) -> Result<Vec<Part>, AllocError>
    ensures { IfOk result (λ parts. parts.items ≡ map (λ m. part_at (cell_named cells.now m)) models.now) }
{
    let mut parts = Vec::new(alloc);
    for model in models {
        parts.push(part_of(cell_named(cells, model)))?;
    }
    Ok(parts)
}

fn is_other(part: Part) -> bool
    ensures { result ≡ is_other part }
{
    match part {
        Part::Other => true,
        Part::Gate | Part::Register => false,
    }
}

fn is_register(part: Part) -> bool
    ensures { result ≡ is_register part }
{
    match part {
        Part::Register => true,
        Part::Gate | Part::Other => false,
    }
}

/// The first instance that is neither a gate nor a register.
pub fn first_other(nodes: &[Node], parts: &[Part]) -> Option<usize>
    requires { All (λ i. i.model < length parts.now) nodes.now }
    ensures some { IfSome result (λ k. IsFirstOther nodes.now parts.now k) }
    ensures none { IfNone result (HasNoOther nodes.now parts.now) }
{
    for (k, node) in nodes.iter().enumerate() {
        if is_other(parts[node.model]) {
            return Some(k);
        }
    }
    None
}

/// The names of the registers, in the order of instances.
pub fn register_names(
    alloc: Global,
    nodes: &[Node],
    parts: &[Part],
) -> Result<Vec<Name>, AllocError>
    requires { All (λ i. i.model < length parts.now) nodes.now }
    ensures { IfOk result (λ names. names.items ≡ names_by parts.now nodes.now) }
{
    let mut names = Vec::new(alloc);
    for node in nodes {
        if is_register(parts[node.model]) {
            names.push(Name::scalar(node.name.copy(alloc)?))?;
        }
    }
    Ok(names)
}
