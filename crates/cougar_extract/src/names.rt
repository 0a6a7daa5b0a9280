// The names of a figure's connectors, each once.
ghost use Rattle.std.specs.Prelude.{◌≡◌, ◌↔◌, IfOk, OnOk};
ghost use Rattle.std.specs.Option.{option_copied};
ghost use Rattle.vlsi_base.specs.declared.name.Name.{Name};
ghost use Rattle.vlsi_base.specs.Member.{In, AllDifferent};
ghost use Rattle.sym_shapes.specs.Shape.{connector_name as name_of_line, connector_names, label};
ghost use Rattle.cougar_extract.specs.Stages.{Knows, PutsNew};

use std::alloc::{AllocError, Global};
use sym_geom::{Item, Layer};
use vlsi_base::{Name, NameIndex};

/// The name of a line where it is a connector.
fn connector_name(item: &Item) -> Option<&Name>
    ensures { label (option_copied result) ≡ name_of_line item.now }
{
    match item {
        Item::Segment(segment) => match segment.layer {
            Layer::Calu(_) => segment.name.as_ref(),
            _ => None,
        },
        Item::Connector(connector) => connector.name.as_ref(),
        Item::Via(_) | Item::Instance(_) | Item::Reference(_) | Item::Remark(_) => None,
    }
}

/// Puts the name of a line that is a connector behind the others, if it isn't among them.
fn add_name<'n>(
    alloc: Global,
    index: &mut NameIndex<'n>,
    names: &mut Vec<Name>,
    item: &'n Item,
) -> Result<(), AllocError>
    requires known { Knows index.old names.old.items }
    ensures puts { OnOk result (PutsNew names.old.items (name_of_line item.now) names.new.items) }
    ensures known { OnOk result (Knows index.new names.new.items) }
{
    let Some(name) = connector_name(item) else {
        return Ok(());
    };
    if index.find(name.text.as_bytes(), name.bit).is_some() {
        return Ok(());
    }
    index.insert(name.text.as_bytes(), name.bit, names.len())?;
    names.push(name.copy(alloc)?)?;
    Ok(())
}

/// The names of the connectors, on whatever layer, each once. Takes memory for each name and an index of them.
pub(crate) fn distinct_names(alloc: Global, items: &[Item]) -> Result<Vec<Name>, AllocError>
    ensures different { IfOk result (λ names. AllDifferent names.items) }
    ensures same { IfOk result (λ names. (n : Name) → In n names.items ↔ In n (connector_names items.now)) }
{
    let mut index = NameIndex::new(alloc);
    let mut names = Vec::new(alloc);
    for item in items {
        add_name(alloc, &mut index, &mut names, item)?;
    }
    Ok(names)
}
