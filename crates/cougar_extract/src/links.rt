// Connectors, with the numbers of their joined shapes.
ghost use Rattle.std.specs.Prelude.{◌≡◌, ◌++◌, length, IfOk, OnOk};
ghost use Rattle.std.specs.Option.{option_copied};
ghost use Rattle.cougar_extract.specs.Stages.{shape_links, AreLinks, AreBelow, AreLeaders};

use crate::drawing::Drawing;
use std::alloc::{AllocError, Global};
use sym_shapes::Shape;
use vlsi_base::{Name, Terminal, Text};

/// A connector: the number that its shape has with all that it is joined to, its terminal, and whether this is an output pin of an
/// instance.
#[derive(Drop)]
pub(crate) struct Link {
    pub(crate) number: u32,
    pub(crate) terminal: Terminal,
    pub(crate) gives: bool,
}

/// The terminal that a shape with this name shows.
fn terminal(alloc: Global, owner: Option<&Text>, name: &Name) -> Result<Terminal, AllocError>
    ensures { IfOk result (λ made. made ≡ record { instance = option_copied owner.entry; pin = name.now }) }
{
    let instance = match owner {
        Some(own) => Some(own.copy(alloc)?),
        None => None,
    };
    Ok(Terminal {
        instance,
        pin: name.copy(alloc)?,
    })
}

/// Puts the connector that a shape is, if it has a name, behind the others.
fn push_link(
    alloc: Global,
    links: &mut Vec<Link>,
    shape: &Shape,
    number: u32,
    gives: bool,
) -> Result<(), AllocError>
    ensures { OnOk result (links.new.items ≡ links.old.items ++ shape_links shape.now number gives) }
{
    let Some(name) = shape.name() else {
        return Ok(());
    };
    let terminal = terminal(alloc, shape.owner(), name)?;
    links.push(Link {
        number,
        terminal,
        gives,
    })?;
    Ok(())
}

/// The connectors of a layout whose shapes have these numbers, in the order of shapes. Takes memory for their names.
pub(crate) fn links(
    alloc: Global,
    drawing: &Drawing,
    numbers: &[u32],
) -> Result<Vec<Link>, AllocError>
    requires numbers { length numbers.now ≡ length drawing.now.shapes.items }
    requires gives { length drawing.now.gives.items ≡ length drawing.now.shapes.items }
    ensures { IfOk result (λ links. AreLinks drawing.now.shapes.items numbers.now drawing.now.gives.items (length drawing.now.shapes.items) links.items) }
{
    let mut links = Vec::new(alloc);
    for k in 0..drawing.shapes.len() {
        let gives = drawing.gives[k];
        push_link(alloc, &mut links, &drawing.shapes[k], numbers[k], gives)?;
    }
    Ok(links)
}

/// A number above those of all connectors.
pub(crate) fn bound(links: &[Link]) -> usize
    ensures { AreBelow links.now result }
{
    let mut bound: usize = 0;
    for link in links {
        if link.number as usize >= bound {
            bound = link.number as usize + 1;
        }
    }
    bound
}

/// For each number that a connector has the place of the last such. Takes memory for `count` places.
pub(crate) fn leaders(alloc: Global, links: &[Link], count: usize) -> Result<Vec<usize>, AllocError>
    requires { AreBelow links.now count }
    ensures many { IfOk result (λ places. length places.items ≡ count) }
    ensures led { IfOk result (λ places. AreLeaders links.now places.items) }
{
    let mut places = vec![in alloc; 0; count]?;
    for k in 0..links.len() {
        let number = links[k].number;
        places[number as usize] = k;
    }
    Ok(places)
}
