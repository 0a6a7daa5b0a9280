// The timing graph of a netlist: the arcs of its instances, between classes.
ghost use Rattle.std.specs.Prelude.{◌≡◌, ◌↔◌, ◌<◌, ℕ, [], length, slice_index, IsTrue, IfOk, OnOk, IfSome};
ghost use Rattle.std.specs.List.{All};
ghost use Rattle.cell_model.specs.View.{function_view};
ghost use Rattle.cell_checks.specs.Arcs.{HasPin};
ghost use Rattle.net_core.specs.Places.{Stands, IsPlaceOf};
ghost use Rattle.net_core.specs.Netlist.{Instance, IsNetlist, pin_of, HasClass, IsClassOf};
ghost use Rattle.delay_sta.specs.Loads.{load};
ghost use Rattle.delay_sta.specs.Graph.{AreFound, IsWay, IsFoundAs, IsShort, AddsArcs, AreTimedArcs, AreGrouped, AreOnward};

use crate::arc::arc_delay;
use cell_checks::Library;
use cell_model::{Arc, Cell, Function, Pin};
use net_core::Netlist;
use std::alloc::{AllocError, Global};
use vlsi_base::{Dir, Name, Terminal, Text};

/// An arc of an instance.
#[derive(Clone, Copy)]
pub struct TimedArc {
    /// The class of the pin at which it begins.
    pub from: u32,
    /// The class of the pin at which it ends.
    pub to: u32,
    /// In femtoseconds.
    pub delay: u128,
    /// Whether paths begin with it, as at a flip-flop.
    pub begins: bool,
    /// The number of its instance.
    pub owner: usize,
    /// The place of the pin at which it begins among the pins of its instance.
    pub input: usize,
    /// The place of the pin at which it ends.
    pub output: usize,
}

/// The class of an instance's pin, where it has one of this name.
pub fn class_of(
    alloc: Global,
    netlist: &Netlist,
    owner: &Text,
    pin: &Name,
) -> Result<Option<u32>, AllocError>
    ensures { IfOk result (λ class. IsClassOf netlist.now (pin_of owner.now pin.now) class) }
{
    let terminal = Terminal {
        instance: Some(owner.copy(alloc)?),
        pin: pin.copy(alloc)?,
    };
    Ok(netlist.class(&terminal))
}

/// The place of a name among names.
fn pin_place(pins: &[Name], name: &Name) -> Option<usize>
    ensures { IsPlaceOf pins.now name.now result }
{
    for place in 0..pins.len() {
        if pins[place].is_same(name) {
            return Some(place);
        }
    }
    None
}

/// Whether paths begin with an arc from a pin or go on with it; none where they do neither.
fn way(function: &Function, pin: &Name) -> Option<bool>
    ensures { IsWay (function_view function.now) pin.now result }
{
    match function {
        Function::Gate(_) => Some(false),
        Function::FlipFlop { clock, .. } => { if pin.is_same(clock) { Some(true) } else { None } }
        Function::Other(_) => None,
        Function::Opaque => None,
    }
}

/// Whether a pin of this name and direction is among them.
fn has_pin(pins: &[Pin], dir: Dir, name: &Name) -> bool
    ensures { IsTrue result ↔ HasPin pins.now dir name.now }
{
    for pin in pins {
        if pin.port.dir == dir && pin.port.name.is_same(name) {
            return true;
        }
    }
    false
}

/// The class of the pin at a place among those of an instance, by its number.
fn pin_class(netlist: &Netlist, owner: usize, place: usize) -> u32
    requires { (i : Instance) × (pin : Name) × Stands netlist.now.instances owner i × Stands i.pins place pin }
    ensures { (i : Instance) (pin : Name) → Stands netlist.now.instances owner i → Stands i.pins place pin → HasClass netlist.now (pin_of i.name pin) result }
{
    let node = &netlist.nodes()[owner];
    netlist.classes()[node.first as usize + place]
}

/// An arc of the cell of an instance, by its number, where its pins are as it says.
fn timed_arc(
    netlist: &Netlist,
    owner: usize,
    cell: &Cell,
    arc: &Arc,
    loads: &[u64],
) -> Option<TimedArc>
    requires sound { IsNetlist netlist.now }
    requires there { owner < length netlist.now.instances }
    requires each { length loads.now ≡ netlist.now.count }
    ensures short { IfSome result IsShort }
    ensures found { IsFoundAs netlist.now (slice_index loads.now) owner cell.now arc.now result }
{
    let node = &netlist.nodes()[owner];
    let begins = way(cell.function.as_enum(), &arc.from)?;
    let pins = cell.pins.as_slice();
    if !has_pin(pins, Dir::In, &arc.from) || !has_pin(pins, Dir::Out, &arc.to) {
        return None;
    }
    let input = pin_place(node.pins.as_slice(), &arc.from)?;
    let output = pin_place(node.pins.as_slice(), &arc.to)?;
    let to = pin_class(netlist, owner, output);
    Some(TimedArc {
        from: pin_class(netlist, owner, input),
        to,
        delay: arc_delay(arc, loads[to as usize]),
        begins,
        owner,
        input,
        output,
    })
}

/// Puts the arcs of an instance behind the others.
fn push_arcs(
    arcs: &mut Vec<TimedArc>,
    netlist: &Netlist,
    owner: usize,
    cell: &Cell,
    loads: &[u64],
) -> Result<(), AllocError>
    requires sound { IsNetlist netlist.now }
    requires there { owner < length netlist.now.instances }
    requires each { length loads.now ≡ netlist.now.count }
    ensures { OnOk result (AddsArcs netlist.now (slice_index loads.now) owner cell.now arcs.old.items arcs.new.items) }
{
    for arc in cell.arcs.as_slice() {
        if let Some(timed) = timed_arc(netlist, owner, cell, arc, loads) {
            arcs.push(timed)?;
        }
    }
    Ok(())
}

/// The arcs of all instances.
pub fn timed_arcs(
    alloc: Global,
    netlist: &Netlist,
    library: &Library,
    places: &[usize],
    loads: &[u64],
) -> Result<Vec<TimedArc>, AllocError>
    requires sound { IsNetlist netlist.now }
    requires cells { AreFound library.now.cells netlist.now.models places.now }
    requires each { length loads.now ≡ netlist.now.count }
    requires loads { (class : ℕ) → class < netlist.now.count → slice_index loads.now class ≡ load netlist.now library.now class }
    ensures { IfOk result (λ arcs. AreTimedArcs netlist.now library.now arcs.items) }
{
    let mut arcs = Vec::new(alloc);
    let nodes = netlist.nodes();
    for owner in 0..nodes.len() {
        let node = &nodes[owner];
        if let Some(cell) = library.cells().get(places[node.model]) {
            push_arcs(&mut arcs, netlist, owner, cell, loads)?;
        }
    }
    Ok(arcs)
}

/// No arcs to each of so many classes.
fn no_groups(alloc: Global, count: u32) -> Result<Vec<Vec<TimedArc>>, AllocError>
    ensures many { IfOk result (λ groups. length groups.items ≡ count) }
    ensures empty { IfOk result (λ groups. AreGrouped [] groups.items) }
{
    let mut groups = Vec::new(alloc);
    for _ in 0..count {
        groups.push(Vec::new(alloc))?;
    }
    Ok(groups)
}

/// Arcs by the class to which they lead, of so many classes.
pub fn grouped(
    alloc: Global,
    count: u32,
    arcs: &[TimedArc],
) -> Result<Vec<Vec<TimedArc>>, AllocError>
    requires { All (λ x. x.to < count) arcs.now }
    ensures many { IfOk result (λ groups. length groups.items ≡ count) }
    ensures grouped { IfOk result (λ groups. AreGrouped arcs.now groups.items) }
{
    let mut groups = no_groups(alloc, count)?;
    for arc in arcs {
        groups[arc.to as usize].push(*arc)?;
    }
    Ok(groups)
}

/// No numbers for each of so many classes.
fn no_numbers(alloc: Global, count: u32) -> Result<Vec<Vec<u32>>, AllocError>
    ensures many { IfOk result (λ lists. length lists.items ≡ count) }
    ensures empty { IfOk result (λ lists. AreOnward [] lists.items) }
{
    let mut lists = Vec::new(alloc);
    for _ in 0..count {
        lists.push(Vec::new(alloc))?;
    }
    Ok(lists)
}

/// For each of so many classes, those to which paths go on from there.
pub fn reached(alloc: Global, count: u32, arcs: &[TimedArc]) -> Result<Vec<Vec<u32>>, AllocError>
    requires { All (λ x. x.from < count) arcs.now }
    ensures many { IfOk result (λ lists. length lists.items ≡ count) }
    ensures reached { IfOk result (λ lists. AreOnward arcs.now lists.items) }
{
    let mut lists = no_numbers(alloc, count)?;
    for arc in arcs {
        if !arc.begins {
            lists[arc.from as usize].push(arc.to)?;
        }
    }
    Ok(lists)
}
