// The ports and instances of one netlist that differ from those of another.
ghost use Rattle.std.specs.Prelude.{◌≡◌, ◌↔◌, ◌<◌, ◌+◌, ◌^◌, ℕ, if◌then◌else◌, IsTrue, IfOk, IfSome, map, length};
ghost use Rattle.net_core.specs.Netlist.{Instance, Netlist as Meaning};
ghost use Rattle.net_core.specs.Places.{Stands};
ghost use Rattle.net_right.specs.Same.{HasInstance};
ghost use Rattle.lvx_compare.specs.Stages.{mark_at, AllMarked, AreMarks, IsFirstPort, IsOdd, IsFirstInstance, is_before};

use net_core::{Netlist, Node, Roll};
use std::alloc::{AllocError, Global};
use vlsi_base::{Name, Text};

/// The mark of the class of the terminal with this number.
fn mark_at(marks: &[bool], classes: &[u32], place: usize) -> bool
    ensures { result ≡ mark_at marks.now classes.now place }
{
    match classes.get(place) {
        Some(class) => match marks.get(*class as usize) {
            Some(mark) => *mark,
            None => false,
        },
        None => false,
    }
}

/// The least port whose class isn't marked.
pub(crate) fn odd_port(
    alloc: Global,
    netlist: &Netlist,
    marks: &[bool],
) -> Result<Option<Name>, AllocError>
    ensures { IfOk result (λ found. (other : Meaning) → AreMarks netlist.now other marks.now → IsFirstPort netlist.now other found) }
{
    let classes = netlist.classes();
    let ports = netlist.ports();
    for k in 0..ports.len() {
        if !mark_at(marks, classes, k) {
            let name = ports[k].name.copy(alloc)?;
            return Ok(Some(name));
        }
    }
    Ok(None)
}

/// Whether the classes of all pins of an instance are marked.
fn are_marked(marks: &[bool], classes: &[u32], node: &Node) -> bool
    requires { (k : ℕ) → k < length node.now.pins → node.now.first + k < 2 ^ 32 }
    ensures { AllMarked marks.now classes.now node.now result }
{
    let first = node.first as usize;
    for k in 0..node.pins.as_slice().len() {
        if !mark_at(marks, classes, first + k) {
            return false;
        }
    }
    true
}

/// The names of a netlist's instances. Takes memory for them.
pub(crate) fn instance_names(alloc: Global, netlist: &Netlist) -> Result<Roll, AllocError>
    ensures { IfOk result (λ names. names ≡ map (λ i. i.name) netlist.now.instances) }
{
    let _ = netlist.classes();
    let mut names = Roll::new(alloc);
    for node in netlist.nodes() {
        names.learn(alloc, &node.name)?;
    }
    Ok(names)
}

/// Whether the instance with this number has this model.
fn has_model(netlist: &Netlist, number: usize, model: &Text) -> bool
    requires { number < length netlist.now.instances }
    ensures { (i : Instance) → Stands netlist.now.instances number i → IsTrue result ↔ (i.model ≡ model.now) }
{
    let node = &netlist.nodes()[number];
    netlist.models()[node.model].is_same(model)
}

/// Whether a netlist, the names of whose instances these are, has an instance of this name and model.
fn has_instance(netlist: &Netlist, names: &Roll, name: &Text, model: &Text) -> bool
    requires { names.now ≡ map (λ i. i.name) netlist.now.instances }
    ensures { IsTrue result ↔ HasInstance netlist.now name.now model.now }
{
    let _ = netlist.classes();
    let Some(place) = names.place(name) else {
        return false;
    };
    has_model(netlist, place, model)
}

/// Whether the instance with this number differs: it isn't in the other netlist with this model, or the class of a pin isn't marked.
fn is_odd(netlist: &Netlist, marks: &[bool], number: usize, other: &Netlist, names: &Roll) -> bool
    requires there { number < length netlist.now.instances }
    requires names { names.now ≡ map (λ i. i.name) other.now.instances }
    requires marks { AreMarks netlist.now other.now marks.now }
    ensures { (i : Instance) → Stands netlist.now.instances number i → IsOdd netlist.now other.now i result }
{
    let classes = netlist.classes();
    let node = &netlist.nodes()[number];
    let model = &netlist.models()[node.model];
    if !has_instance(other, names, &node.name, model) {
        return true;
    }
    !are_marked(marks, classes, node)
}

/// The place of the lesser name of two instances; without the second that of the first.
fn lesser_place(nodes: &[Node], place: usize, other: Option<usize>) -> Option<usize>
    requires here { place < length nodes.now }
    requires there { IfSome other (λ k. k < length nodes.now) }
    ensures { result ≡ (if is_before nodes.now place other then Some place else other) }
{
    let Some(known) = other else {
        return Some(place);
    };
    if nodes[place].name.compare(&nodes[known].name).is_lt() {
        Some(place)
    } else {
        Some(known)
    }
}

/// The least instance that differs.
pub(crate) fn odd_instance(
    alloc: Global,
    netlist: &Netlist,
    marks: &[bool],
    other: &Netlist,
) -> Result<Option<Name>, AllocError>
    requires { AreMarks netlist.now other.now marks.now }
    ensures { IfOk result (λ found. IsFirstInstance netlist.now other.now found) }
{
    let names = instance_names(alloc, other)?;
    let nodes = netlist.nodes();
    let mut least = None;
    for k in 0..nodes.len() {
        if is_odd(netlist, marks, k, other, &names) {
            least = lesser_place(nodes, k, least);
        }
    }
    match least {
        Some(place) => Ok(Some(Name::scalar(nodes[place].name.copy(alloc)?))),
        None => Ok(None),
    }
}
