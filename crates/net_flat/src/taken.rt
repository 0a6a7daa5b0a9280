// Names whose text a port has.
ghost use Rattle.std.specs.Prelude.{◌≡◌, is_some, IfOk};
ghost use Rattle.std.specs.List.{list_any};
ghost use Rattle.std.specs.FinMap.{get};
ghost use Rattle.vlsi_base.specs.declared.name.Name.{Name};
ghost use Rattle.machine_core.specs.Named.{is_same_name};
ghost use Rattle.net_flat.specs.Taken.{port_texts, is_taken, is_indexed, IsFirst};

use std::alloc::{AllocError, Global};
use vlsi_base::{Name, NameIndex, Port};

/// An index of names.
pub fn index_of<'a>(alloc: Global, names: &'a [Name]) -> Result<NameIndex<'a>, AllocError>
    ensures { IfOk result (λ index. (n : Name) → is_some (get index n) ≡ list_any (λ m. is_same_name m n) names.now) }
{
    let mut index = NameIndex::new(alloc);
    index.insert_all(names)?;
    Ok(index)
}

fn port_texts(alloc: Global, ports: &[Port]) -> Result<Vec<Name>, AllocError>
    ensures { IfOk result (λ texts. texts.items ≡ port_texts ports.now) }
{
    let mut texts = Vec::new(alloc);
    for port in ports {
        texts.push(Name::scalar(port.name.text.copy(alloc)?))?;
    }
    Ok(texts)
}

/// The first of the names whose text the index has.
fn first_in<'a>(names: &'a [Name], texts: &NameIndex<'a>) -> Option<usize>
    ensures { IsFirst (is_indexed texts.now) names.now result }
{
    for (k, name) in names.iter().enumerate() {
        if texts.find(name.text.as_bytes(), None).is_some() {
            return Some(k);
        }
    }
    None
}

/// The first of the names that has the text of a port.
pub fn first_taken(
    alloc: Global,
    names: &[Name],
    ports: &[Port],
) -> Result<Option<usize>, AllocError>
    ensures { IfOk result (IsFirst (is_taken ports.now) names.now) }
{
    let texts = port_texts(alloc, ports)?;
    let index = index_of(alloc, &texts)?;
    Ok(first_in(names, &index))
}
