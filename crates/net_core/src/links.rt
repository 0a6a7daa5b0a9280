// How classes of terminals depend on each other through instances.
ghost use Rattle.std.specs.Prelude.{◌≡◌, ◌++◌, ◌+◌, ◌<◌, ◌≤◌, [], map, length, take, drop, IfOk, OnOk};
ghost use Rattle.std.specs.List.{All};
ghost use Rattle.vlsi_base.specs.declared.name.Dir.TheVariants.{Out};
ghost use Rattle.net_core.specs.Checks.{Fits};
ghost use Rattle.net_core.specs.Netlist.{IsNetlist};
ghost use Rattle.net_core.specs.Links.{AreLinks, AreGrouped, links_of_dir, instance_links, inputs_of};

use crate::netlist::Netlist;
use crate::pins::{ModelPin, PinTable};
use crate::roles::{model_names, pins_of};
use std::alloc::{AllocError, Global};
use vlsi_base::Dir;

/// That an output pin of an instance depends at once on an input pin.
#[derive(Clone, Copy)]
pub struct Link {
    /// The class of the output pin.
    pub output: u32,
    /// The class of the input pin.
    pub input: u32,
    /// The number of the instance.
    pub owner: usize,
}

/// Puts the links of an output pin behind the others.
fn push_output_links(
    links: &mut Vec<Link>,
    places: &[u32],
    classes: &[u32],
    output: u32,
    owner: usize,
) -> Result<(), AllocError>
    requires { All (λ d. d < length classes.now) places.now }
    ensures { OnOk result (links.new.items ≡ links.old.items ++ links_of_dir Out owner classes.now output places.now) }
{
    for place in places {
        links.push(Link {
            output,
            input: classes[*place as usize],
            owner,
        })?;
    }
    Ok(())
}

/// Puts the links of an instance behind the others, where its pins have these classes.
fn push_instance_links(
    links: &mut Vec<Link>,
    pins: &[ModelPin],
    classes: &[u32],
    owner: usize,
) -> Result<(), AllocError>
    requires each { length classes.now ≡ length pins.now }
    requires depends { All (λ p. All (λ d. d < length classes.now) p.depends_on) pins.now }
    ensures { OnOk result (links.new.items ≡ links.old.items ++ instance_links owner classes.now pins.now) }
{
    for k in 0..pins.len() {
        let pin = &pins[k];
        match pin.dir {
            Dir::In => {}
            Dir::Out => {
                push_output_links(links, pin.depends_on.as_slice(), classes, classes[k], owner)?;
            }
        }
    }
    Ok(())
}

/// So many of the classes, from the first on.
fn classes_from<'c>(classes: &'c [u32], first: u32, many: usize) -> &'c [u32]
    requires { first + many ≤ length classes.now }
    ensures { result.now ≡ take many (drop first classes.now) }
{
    let start = first as usize;
    &classes[start..start + many]
}

/// The links of a netlist. Takes memory for each, and for the names of the table's models.
pub fn links(alloc: Global, netlist: &Netlist, table: &PinTable) -> Result<Vec<Link>, AllocError>
    requires { Fits netlist.now table.now }
    ensures all { IfOk result (λ links. AreLinks table.now netlist.now links.items) }
    ensures sound { OnOk result (IsNetlist netlist.now) }
{
    let names = model_names(alloc, table.as_slice())?;
    let models = netlist.models();
    let classes = netlist.classes();
    let nodes = netlist.nodes();
    let mut links = Vec::new(alloc);
    for owner in 0..nodes.len() {
        let node = &nodes[owner];
        let pins = pins_of(&names, table.as_slice(), &models[node.model]);
        let own = classes_from(classes, node.first, pins.len());
        push_instance_links(&mut links, pins, own, owner)?;
    }
    Ok(links)
}

/// Links by the class of their output pin, for each of so many classes. Takes memory for each class and each link.
pub fn grouped(alloc: Global, count: u32, links: &[Link]) -> Result<Vec<Vec<Link>>, AllocError>
    requires { All (λ l. l.output < count) links.now }
    ensures many { IfOk result (λ groups. length groups.items ≡ count) }
    ensures grouped { IfOk result (λ groups. AreGrouped links.now groups.items) }
{
    let mut groups = no_groups(alloc, count)?;
    for link in links {
        groups[link.output as usize].push(*link)?;
    }
    Ok(groups)
}

/// No links for each of so many classes.
fn no_groups(alloc: Global, count: u32) -> Result<Vec<Vec<Link>>, AllocError>
    ensures many { IfOk result (λ groups. length groups.items ≡ count) }
    ensures empty { IfOk result (λ groups. AreGrouped [] groups.items) }
{
    let mut groups = Vec::new(alloc);
    for _ in 0..count {
        groups.push(Vec::new(alloc))?;
    }
    Ok(groups)
}

/// The classes of the input pins of links.
fn input_classes(alloc: Global, links: &[Link]) -> Result<Vec<u32>, AllocError>
    ensures { IfOk result (λ inputs. inputs.items ≡ map (λ l. l.input) links.now) }
{
    let mut inputs = Vec::new(alloc);
    for link in links {
        inputs.push(link.input)?;
    }
    Ok(inputs)
}

/// For each class, the classes on which its output pin depends. Takes memory for each class and each link.
pub fn inputs(alloc: Global, groups: &[Vec<Link>]) -> Result<Vec<Vec<u32>>, AllocError>
    ensures { IfOk result (λ inputs. map (λ i. i.items) inputs.items ≡ inputs_of groups.now) }
{
    let mut inputs = Vec::new(alloc);
    for group in groups {
        inputs.push(input_classes(alloc, group)?)?;
    }
    Ok(inputs)
}
