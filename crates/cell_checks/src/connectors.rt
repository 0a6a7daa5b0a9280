// Whether the pins of a cell are the connectors of its layout.
ghost use Rattle.std.specs.Prelude.{◌≡◌, ◌↔◌, ◌∷◌, map, IsTrue, IfOk};
ghost use Rattle.vlsi_base.specs.Member.{In};
ghost use Rattle.vlsi_base.specs.Names.{vdd, vss};
ghost use Rattle.machine_core.specs.Machine.{names_of};
ghost use Rattle.sym_geom.specs.declared.layer.Layer.{Layer};
ghost use Rattle.vlsi_base.specs.declared.name.Name.{Name};
ghost use Rattle.sym_shapes.specs.Shape.{wire_name, connector_name, connector_names, label};
ghost use Rattle.cell_model.specs.Cell.{pin_ports};
ghost use Rattle.cell_model.specs.Connectors.{PinsAreConnectors};
ghost use Rattle.std.specs.Option.{option_copied};

use cell_model::{Cell, Pin};
use std::alloc::{AllocError, Global};
use sym_geom::{Item, Layer};
use vlsi_base::{Name, NameIndex, Text};

/// The name of a line where it is a connector.
fn connector_name(item: &Item) -> Option<&Name>
    ensures { label (option_copied result) ≡ connector_name item.now }
{
    match item {
        Item::Segment(segment) => match segment.layer {
            Layer::Calu(_) => segment.name.as_ref(),
            _ => None,
        },
        Item::Connector(connector) => connector.name.as_ref(),
        Item::Via(_) | Item::Instance(_) | Item::Reference(_) | Item::Remark(_) => None,
    }
}

/// The names of the connectors, whatever their layers. Takes memory for the names.
fn connector_names(alloc: Global, items: &[Item]) -> Result<Vec<Name>, AllocError>
    ensures { IfOk result (λ names. names.items ≡ connector_names items.now) }
{
    let mut names = Vec::new(alloc);
    for item in items {
        if let Some(name) = connector_name(item) {
            names.push(name.copy(alloc)?)?;
        }
    }
    Ok(names)
}

/// The names of vdd, of vss and of the pins. Takes memory for the names.
pub fn pin_names(alloc: Global, pins: &[Pin]) -> Result<Vec<Name>, AllocError>
    ensures { IfOk result (λ names. names.items ≡ vdd ∷ vss ∷ names_of (map (λ p. p.port) pins.now)) }
{
    let mut names = Vec::new(alloc);
    names.push(Name::scalar(Text::from_bytes(alloc, b"vdd")?))?;
    names.push(Name::scalar(Text::from_bytes(alloc, b"vss")?))?;
    for pin in pins {
        names.push(pin.port.name.copy(alloc)?)?;
    }
    Ok(names)
}

/// Whether a name stands in a list. What the index says is looked at; a name that isn't there is looked for among all.
#[tactic(auto, using(crate::proofs::Among::among_at, crate::proofs::Among::none_among))]
fn is_among<'a>(index: &NameIndex<'a>, names: &[Name], name: &'a Name) -> bool
    ensures { IsTrue result ↔ In name.now names.now }
{
    if let Some(k) = index.find(name.text.as_bytes(), name.bit) {
        if k < names.len() && names[k].is_same(name) {
            return true;
        }
    }
    for other in names {
        if other.is_same(name) {
            return true;
        }
    }
    false
}

/// Whether each name of a list stands in another. Takes memory for one entry a name.
#[tactic(auto, using(crate::proofs::Among::all_of, crate::proofs::Among::not_all))]
fn all_among(alloc: Global, names: &[Name], others: &[Name]) -> Result<bool, AllocError>
    ensures { IfOk result (λ all. IsTrue all ↔ ((name : Name) → In name names.now → In name others.now)) }
{
    let mut index = NameIndex::new(alloc);
    index.insert_all(others)?;
    for name in names {
        if !is_among(&index, others, name) {
            return Ok(false);
        }
    }
    Ok(true)
}

/// Whether the names of the pins, with vdd and vss, are those of the layout's connectors, on whatever layer. Takes memory for
/// the names.
#[tactic(auto, using(crate::proofs::Among::both_ways, crate::proofs::Among::one_way, crate::proofs::Among::other_way))]
pub fn pins_are_connectors(alloc: Global, cell: &Cell) -> Result<bool, AllocError>
    ensures { IfOk result (λ same. IsTrue same ↔ PinsAreConnectors cell.now) }
{
    let pins = pin_names(alloc, cell.pins.as_slice())?;
    let connectors = connector_names(alloc, cell.items.as_slice())?;
    if !all_among(alloc, &connectors, &pins)? {
        return Ok(false);
    }
    all_among(alloc, &pins, &connectors)
}
