// Ports that are joined, and what joins them.
ghost use Rattle.std.specs.Prelude.{◌≡◌, ◌↔◌, ◌<◌, ◌≤◌, ◌^◌, map, option_map, length, take, slice_get, Some, IsTrue, IfOk};
ghost use Rattle.std.specs.List.{All};
ghost use Rattle.sym_shapes.specs.Joined.{Shows, AreJoined};
ghost use Rattle.net_core.specs.Netlist.{port};
ghost use Rattle.cougar_extract.specs.Refused.{step_of, IsChainOf};
ghost use Rattle.cougar_extract.specs.Stages.{nearer_of, IsPairFrom, IsShownAt};

use crate::error::{Step, Steps};
use net_core::Netlist;
use std::alloc::{AllocError, Global};
use sym_shapes::{Shape, chain};
use vlsi_base::{Listed, Name};

/// The pair of a place and of the next one of its class, if there is one; else the pair that was found behind.
fn nearer(
    next: Option<usize>,
    place: usize,
    found: Option<(usize, usize)>,
) -> Option<(usize, usize)>
    ensures { result ≡ nearer_of next place found }
{
    match next {
        Some(other) => Some((place, other)),
        None => found,
    }
}

/// Of the places with one class the least two: the first is the least whose class stands again, the second the next such place.
/// Takes memory for `count` places.
fn least_pair(
    alloc: Global,
    classes: &[u32],
    count: usize,
) -> Result<Option<(usize, usize)>, AllocError>
    requires { All (λ c. c < count) classes.now }
    ensures { IfOk result (λ found. IsPairFrom classes.now 0 found) }
{
    let mut next: Vec<Option<usize>> = vec![in alloc; None; count]?;
    let mut found = None;
    let mut k = classes.len();
    while k > 0 {
        k -= 1;
        let class = classes[k] as usize;
        found = nearer(next[class], k, found);
        next[class] = Some(k);
    }
    Ok(found)
}

/// The first two ports in the order of names that are in one class, by their places.
pub(crate) fn shorted_ports(
    alloc: Global,
    netlist: &Netlist,
) -> Result<Option<(usize, usize)>, AllocError>
    ensures { IfOk result (λ found. IsPairFrom (take (length netlist.now.ports) netlist.now.classes) 0 found) }
{
    let classes = &netlist.classes()[..netlist.ports().len()];
    least_pair(alloc, classes, netlist.count() as usize)
}

/// Whether a shape is a connector of a port.
fn is_shown(shape: &Shape, name: &Name) -> bool
    ensures { IsTrue result ↔ Shows (port name.now) shape.now }
{
    if shape.owner().is_some() {
        return false;
    }
    match shape.name() {
        Some(own) => own.is_same(name),
        None => false,
    }
}

/// The first shape that is a connector of a port.
fn shown_at(shapes: &[Shape], name: &Name) -> Option<u32>
    requires { length shapes.now < 2 ^ 32 }
    ensures { IsShownAt shapes.now name.now result }
{
    for k in 0..shapes.len() {
        if is_shown(&shapes[k], name) {
            return Some(k as u32);
        }
    }
    None
}

/// What a chain tells of a shape.
fn step(alloc: Global, shape: &Shape) -> Result<Step, AllocError>
    ensures { IfOk result (λ step. step ≡ step_of shape.now) }
{
    let owner = match shape.owner() {
        Some(owner) => Some(owner.copy(alloc)?),
        None => None,
    };
    Ok(Step {
        metal: shape.metal(),
        rect: shape.rect(),
        owner,
    })
}

/// What a chain tells of the shapes at these places.
fn steps(alloc: Global, shapes: &[Shape], places: &[u32]) -> Result<Vec<Step>, AllocError>
    requires { All (λ k. k < length shapes.now) places.now }
    ensures { IfOk result (λ steps. map Some steps.items ≡ map (λ k. option_map step_of (slice_get shapes.now k)) places.now) }
{
    let mut steps = Vec::with_capacity(alloc, places.len())?;
    for place in places {
        steps.push(step(alloc, &shapes[*place as usize])?)?;
    }
    Ok(steps)
}

/// The shapes that join two ports, from a connector of the first to one of the second. Takes memory for a few entries a shape.
pub(crate) fn shorting(
    alloc: Global,
    shapes: &[Shape],
    a: &Name,
    b: &Name,
) -> Result<Steps, AllocError>
    requires few { length shapes.now < 2 ^ 32 }
    requires joined { AreJoined shapes.now (port a.now) (port b.now) }
    ensures { IfOk result (λ steps. IsChainOf shapes.now a.now b.now steps) }
{
    let Some(from) = shown_at(shapes, a) else {
        unreachable!()
    };
    let Some(to) = shown_at(shapes, b) else {
        unreachable!()
    };
    let Some(places) = chain(alloc, shapes, from, to)? else {
        unreachable!()
    };
    let steps = steps(alloc, shapes, &places)?;
    Ok(Listed::new(steps))
}
