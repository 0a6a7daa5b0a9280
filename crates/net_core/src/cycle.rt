// Rings of output pins that depend on each other.
ghost use Rattle.std.specs.Prelude.{◌≡◌, ◌<◌, map, length, option_map, IfOk};
ghost use Rattle.std.specs.List.{All};
ghost use Rattle.bit_order.specs.Order as order;
ghost use Rattle.net_core.specs.Checks.{Fits};
ghost use Rattle.net_core.specs.Links.{inputs_of, IsLinkTo, AreChosen, owner_name, name_at, IsLeastName, NamesLinks, IsCycle};

use crate::frame::Node;
use crate::links::{Link, grouped, inputs, links};
use crate::netlist::Netlist;
use crate::pins::PinTable;
use bit_order::{Order, an_order_leaves_no_ring, order};
use std::alloc::{AllocError, Global};
use vlsi_base::Name;

/// A link to a class; none exactly where there is none.
fn link_to(links: &[Link], class: u32) -> Option<Link>
    ensures { IsLinkTo links.now class result }
{
    for link in links {
        if link.input == class {
            return Some(*link);
        }
    }
    None
}

/// A link from each class of a ring to the next.
fn ring_links(alloc: Global, groups: &[Vec<Link>], ring: &[u32]) -> Result<Vec<Link>, AllocError>
    requires { order.IsRing (inputs_of groups.now) ring.now }
    ensures { IfOk result (λ chosen. AreChosen groups.now ring.now chosen.items) }
{
    let mut chosen = Vec::new(alloc);
    for k in 0..ring.len() {
        let next = if k + 1 < ring.len() {
            ring[k + 1]
        } else {
            ring[0]
        };
        if let Some(link) = link_to(&groups[ring[k] as usize], next) {
            chosen.push(link)?;
        }
    }
    Ok(chosen)
}

/// The name of each link's instance.
fn owner_names(alloc: Global, nodes: &[Node], links: &[Link]) -> Result<Vec<Name>, AllocError>
    requires { All (λ l. l.owner < length nodes.now) links.now }
    ensures { IfOk result (λ names. names.items ≡ map (owner_name nodes.now) links.now) }
{
    let mut names = Vec::new(alloc);
    for link in links {
        let owner = nodes[link.owner].name.copy(alloc)?;
        names.push(Name::scalar(owner))?;
    }
    Ok(names)
}

/// The place of a name that none of the names comes before.
fn least_place(names: &[Name]) -> usize
    requires { 0 < length names.now }
    ensures within { result < length names.now }
    ensures least { IsLeastName names.now (name_at names.now result) }
{
    let mut least = 0;
    for k in 1..names.len() {
        if names[k].compare(&names[least]).is_lt() {
            least = k;
        }
    }
    least
}

/// The names of the instances that link the classes of a ring, from a least one on.
fn ring_names(
    alloc: Global,
    nodes: &[Node],
    groups: &[Vec<Link>],
    ring: &[u32],
) -> Result<Vec<Name>, AllocError>
    requires ring { order.IsRing (inputs_of groups.now) ring.now }
    requires owners { All (λ g. All (λ l. l.owner < length nodes.now) g.items) groups.now }
    ensures { IfOk result (λ names. NamesLinks nodes.now groups.now ring.now names.items) }
{
    let chosen = ring_links(alloc, groups, ring)?;
    let mut names = owner_names(alloc, nodes, &chosen)?;
    let first = least_place(&names);
    names.rotate_left(first);
    Ok(names)
}

/// The names of the instances of a ring, from the least one on; none exactly where there is no ring. Takes memory for each class
/// and for each input pin on which an output pin depends, and time for them.
pub fn cycle(
    alloc: Global,
    netlist: &Netlist,
    table: &PinTable,
) -> Result<Option<Vec<Name>>, AllocError>
    requires { Fits netlist.now table.now }
    ensures { IfOk result (λ found. IsCycle table.now netlist.now (option_map (λ names. names.items) found)) }
{
    let links = links(alloc, netlist, table)?;
    let groups = grouped(alloc, netlist.count(), &links)?;
    let inputs = inputs(alloc, &groups)?;
    an_order_leaves_no_ring();
    match order(alloc, &inputs)? {
        Order::Sorted(_) => Ok(None),
        Order::Ring(ring) => {
            let names = ring_names(alloc, netlist.nodes(), &groups, &ring)?;
            Ok(Some(names))
        }
    }
}
