// The netlist of a figure's names and instances and of its connectors.
ghost use Rattle.std.specs.Prelude.{◌≡◌, ◌↔◌, ◌∷◌, [], ◌+◌, ◌<◌, ◌^◌, map, length, Some, IfOk, OnOk};
ghost use Rattle.std.specs.List.{All};
ghost use Rattle.vlsi_base.specs.Member.{In, AllDifferent};
ghost use Rattle.vlsi_base.specs.declared.name.Name.{Name as PinName};
ghost use Rattle.machine_core.specs.Machine.{names_of};
ghost use Rattle.sym_geom.specs.declared.item.Instance.{Instance as PlacedInstance};
ghost use Rattle.sym_shapes.specs.Shape.{connector_names};
ghost use Rattle.net_core.specs.Places.{IsThere, NoneTwice};
ghost use Rattle.net_core.specs.Joins.{draft_terminals};
ghost use Rattle.cell_model.specs.declared.cell.Cell.{Cell as CellParts};
ghost use Rattle.cell_model.specs.Library.{cell_of as cell_in};
ghost use Rattle.cell_model.specs.Layout.{instances_of};
ghost use Rattle.cell_model.specs.Usable.{IsFormed};
ghost use Rattle.cell_checks.specs.Checked.{library_of};
ghost use Rattle.cell_pins.specs.Pins.{all_ports as ports_of_cell};
ghost use Rattle.cougar_extract.specs.Extracted.{AreKnown, figure_text as text_of_name, instance_of};
ghost use Rattle.cougar_extract.specs.Refused.{pin_count};
ghost use Rattle.cougar_extract.specs.Stages.{AreTerminals, IsBuilt, with_instances};

use crate::cells::cell_of;
use crate::directions::directed_ports;
use crate::links::{Link, bound, leaders};
use crate::pairs::{join_links, only_memory};
use ap_io::Figure;
use cell_model::Cell;
use cell_pins::all_ports;
use net_core::{Builder, Netlist};
use std::alloc::{AllocError, Global};
use sym_geom::{Instance, Item};
use vlsi_base::{Name, Names, Ports, Text};

/// The names of a cell's pins in their order, vdd and vss among them.
fn pin_names(alloc: Global, cell: &Cell) -> Result<Vec<Name>, AllocError>
    ensures { IfOk result (λ names. names.items ≡ names_of (ports_of_cell cell.now)) }
{
    let ports = all_ports(alloc, cell)?;
    let mut names = Vec::with_capacity(alloc, ports.len())?;
    for port in &ports {
        names.push(port.name.copy(alloc)?)?;
    }
    Ok(names)
}

/// Puts an instance of the figure behind the others.
fn add_instance(
    alloc: Global,
    builder: &mut Builder,
    cells: &[Cell],
    instance: &Instance,
) -> Result<(), AllocError>
    requires known { (c : CellParts) × (cell_in (library_of cells.now) instance.now.model ≡ Some c) }
    requires formed { All IsFormed cells.now }
    requires fresh { IsThere (map (λ i. i.name) builder.old.instances) instance.now.name → ⊥ }
    requires few { length builder.old.instances < 2 ^ 32 }
    requires room { length (draft_terminals builder.old) + length (instance_of (library_of cells.now) instance.now).pins < 2 ^ 32 }
    ensures { OnOk result (builder.new ≡ with_instances builder.old (instance_of (library_of cells.now) instance.now ∷ [])) }
{
    let Some(cell) = cell_of(cells, &instance.model) else {
        unreachable!()
    };
    let pins = pin_names(alloc, cell)?;
    match builder.add(alloc, &instance.name, &instance.model, &Names::new(pins)) {
        Ok(_) => Ok(()),
        Err(error) => Err(only_memory(error)),
    }
}

/// Puts a line that is an instance behind the others.
fn add_item(
    alloc: Global,
    builder: &mut Builder,
    cells: &[Cell],
    item: &Item,
) -> Result<(), AllocError>
    requires known { AreKnown (instances_of (item.now ∷ [])) (library_of cells.now) }
    requires formed { All IsFormed cells.now }
    requires fresh { (i : PlacedInstance) → In i (instances_of (item.now ∷ [])) → IsThere (map (λ j. j.name) builder.old.instances) i.name → ⊥ }
    requires few { length builder.old.instances < 2 ^ 32 }
    requires room { length (draft_terminals builder.old) + pin_count (item.now ∷ []) (library_of cells.now) < 2 ^ 32 }
    ensures { OnOk result (builder.new ≡ with_instances builder.old
        (map (instance_of (library_of cells.now)) (instances_of (item.now ∷ [])))) }
{
    match item {
        Item::Instance(instance) => add_instance(alloc, builder, cells, instance),
        _ => Ok(()),
    }
}

/// Puts the instances of a figure into a netlist that has only ports.
fn add_instances(
    alloc: Global,
    builder: &mut Builder,
    items: &[Item],
    cells: &[Cell],
) -> Result<(), AllocError>
    requires none { builder.old.instances ≡ [] }
    requires known { AreKnown (instances_of items.now) (library_of cells.now) }
    requires formed { All IsFormed cells.now }
    requires once { NoneTwice (map (λ i. i.name) (instances_of items.now)) }
    requires few { length items.now < 2 ^ 32 }
    requires room { length builder.old.ports + pin_count items.now (library_of cells.now) < 2 ^ 32 }
    ensures { OnOk result (builder.new ≡ with_instances builder.old (map (instance_of (library_of cells.now)) (instances_of items.now))) }
{
    for item in items {
        add_item(alloc, builder, cells, item)?;
    }
    Ok(())
}

/// The name of a figure as a text: no bytes where it has none.
fn figure_text(alloc: Global, name: &Option<Name>) -> Result<Text, AllocError>
    ensures { IfOk result (λ text. text ≡ text_of_name name.now) }
{
    match name {
        Some(name) => name.to_text(alloc),
        None => Ok(Text::new(Vec::new(alloc))),
    }
}

/// The netlist of a figure whose connectors have these names and whose instances are these cells, where connectors with one number
/// are joined. Takes memory for it, for the pairs that are joined, and for a place for each number up to the greatest.
pub(crate) fn netlist_of(
    alloc: Global,
    figure: &Figure,
    cells: &[Cell],
    names: &[Name],
    links: &[Link],
) -> Result<Netlist, AllocError>
    requires known { AreKnown (instances_of figure.now.items) (library_of cells.now) }
    requires formed { All IsFormed cells.now }
    requires once { NoneTwice (map (λ i. i.name) (instances_of figure.now.items)) }
    requires few { length figure.now.items < 2 ^ 32 }
    requires different { AllDifferent names.now }
    requires same { (n : PinName) → In n names.now ↔ In n (connector_names figure.now.items) }
    requires room { length names.now + pin_count figure.now.items (library_of cells.now) < 2 ^ 32 }
    requires terminals { AreTerminals figure.now.items (library_of cells.now) links.now }
    ensures { IfOk result (λ n. IsBuilt figure.now (library_of cells.now) links.now n) }
{
    let count = bound(links);
    let ports = directed_ports(alloc, names, links, count)?;
    let places = leaders(alloc, links, count)?;
    let name = figure_text(alloc, &figure.name)?;
    let mut builder = Builder::begin(alloc, name, Ports::new(ports))?;
    add_instances(alloc, &mut builder, figure.items.as_slice(), cells)?;
    join_links(&mut builder, links, &places)?;
    let netlist = builder.finish(alloc)?;
    Ok(netlist)
}
