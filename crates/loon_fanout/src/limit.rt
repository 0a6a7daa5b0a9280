// Nets with many sinks put behind buffers.
ghost use Rattle.std.specs.Prelude.{◌≡◌, ◌≤◌, ◌<◌, ◌↔◌, ◌+◌, ◌^◌, ◌++◌, map, length, IsTrue, IfOk, OnOk, IfErr};
ghost use Rattle.std.specs.Option.{option_copied};
ghost use Rattle.vlsi_base.specs.Names.{scalar};
ghost use Rattle.net_core.specs.Netlist.{IsNetlist, port, terminals, HasClass};
ghost use Rattle.net_core.specs.Places.{IsThere};
ghost use Rattle.loon_wiring.specs.Repeaters.{NoneRepeats};
ghost use Rattle.loon_fanout.specs.Limited.{IsCrowded, IsBuffered, HasFanout, HasFewGates, IsOfCells, HasRoomForGates, StaysRight, IsBufferRefusal};
ghost use Rattle.loon_fanout.specs.Starts.{HasLongLoad, IsStart};
ghost use Rattle.loon_fanout.specs.Building.{instance_by};
ghost use Rattle.loon_fanout.specs.Gated.{gate_names, gates_by, IsGatable, IsGated};

use crate::BufferError;
use crate::build::{Entry, Sketch, build, push_gates, push_nodes};
use crate::laws::stays_right_law;
use cell_checks::Library;
use loon_loads::net_loads;
use loon_wiring::{Repeater, Wiring, make_repeater};
use net_core::{Netlist, Node};
use std::alloc::{AllocError, Global};
use text_names::{free_texts, texts_are_free};
use vlsi_base::{Name, Terminal, Text};

/// The class of a scalar port.
fn class_of_port(alloc: Global, netlist: &Netlist, text: &[u8]) -> Result<usize, AllocError>
    requires { IsThere (terminals netlist.now) (port (scalar text.now)) }
    ensures { IfOk result (λ k. HasClass netlist.now (port (scalar text.now)) k) }
{
    let port = Terminal {
        instance: None,
        pin: Name::scalar(Text::from_bytes(alloc, text)?),
    };
    match netlist.class(&port) {
        Some(class) => Ok(class as usize),
        None => unreachable!(),
    }
}

fn wide_class(class: u32) -> usize
    ensures { result ≡ class }
{
    class as usize
}

fn widened(alloc: Global, classes: &[u32]) -> Result<Vec<usize>, AllocError>
    ensures { IfOk result (λ wide. wide.items ≡ classes.now) }
{
    let mut wide = Vec::new(alloc);
    for class in classes {
        wide.push(wide_class(*class))?;
    }
    Ok(wide)
}

/// A netlist's classes, with no gates put in.
fn wiring_of(alloc: Global, netlist: &Netlist, library: &Library) -> Result<Wiring, AllocError>
    requires { IsOfCells netlist.now library.now }
    ensures start { IfOk result (λ v. IsStart netlist.now v) }
    ensures sound { OnOk result (IsNetlist netlist.now) }
{
    Ok(Wiring {
        classes: widened(alloc, netlist.classes())?,
        first: netlist.count(),
        high: class_of_port(alloc, netlist, b"vdd")?,
        low: class_of_port(alloc, netlist, b"vss")?,
        reads: Vec::new(alloc),
    })
}

fn names_of(alloc: Global, nodes: &[Node]) -> Result<Vec<Text>, AllocError>
    ensures { IfOk result (λ names. names.items ≡ map (λ i. i.name) nodes.now) }
{
    let mut names = Vec::new(alloc);
    for node in nodes {
        names.push(node.name.copy(alloc)?)?;
    }
    Ok(names)
}

/// Whether a net has more sinks than that.
fn is_crowded(loads: &[Vec<usize>], limit: usize) -> bool
    ensures { IsTrue result ↔ HasLongLoad limit loads.now }
{
    for sinks in loads {
        if sinks.len() > limit {
            return true;
        }
    }
    false
}

/// The names that so many gates are given: b0, b1 and so on, without those that instances have.
#[tactic(auto, using(crate::proofs::Gating::nodes_named))]
fn gate_names(alloc: Global, netlist: &Netlist, many: usize) -> Result<Vec<Text>, AllocError>
    requires { many + length netlist.now.instances < 2 ^ 63 }
    ensures { IfOk result (λ names. names.items ≡ gate_names netlist.now many) }
{
    let taken = names_of(alloc, netlist.nodes())?;
    free_texts(alloc, b"b", &taken, many)
}

/// Puts gates of these names behind the others, where there is a repeater.
fn push_repeaters(
    alloc: Global,
    entries: &mut Vec<Entry>,
    repeater: Option<&Repeater>,
    names: &[Text],
) -> Result<(), AllocError>
    ensures { OnOk result (map instance_by entries.new.items ≡ map instance_by entries.old.items ++ gates_by (option_copied repeater.entry) names.now) }
{
    match repeater {
        Some(repeater) => push_gates(alloc, entries, repeater, names),
        None => Ok(()),
    }
}

/// The netlist of these classes, with gates behind its instances for those that were put in.
fn with_gates(
    alloc: Global,
    netlist: &Netlist,
    repeater: Option<&Repeater>,
    wiring: Wiring,
) -> Result<Netlist, AllocError>
    requires { IsGatable netlist.now (option_copied repeater) wiring }
    ensures gated { IfOk result (λ r. IsGated netlist.now (option_copied repeater.entry) wiring r) }
    ensures sound { IfOk result (λ r. IsNetlist r) }
{
    let names = gate_names(alloc, netlist, wiring.reads.len())?;
    let mut entries = Vec::new(alloc);
    push_nodes(alloc, &mut entries, netlist.models(), netlist.nodes())?;
    push_repeaters(alloc, &mut entries, repeater, &names)?;
    let count = wiring.count();
    let Wiring { classes, .. } = wiring;
    let sketch = Sketch {
        entries,
        classes,
        count,
    };
    build(alloc, netlist, &sketch)
}

/// Puts buffers into a netlist until no net has more than `fanout` sinks; a netlist in which none has stays as it is.
///
/// The sinks of a net are the input pins of instances in its class, other than clock pins, vdd and vss; the classes of the ports vdd
/// and vss are no nets, so inputs that are tied to a supply get no buffer. While a net has too many, its sinks in their order
/// (instances in order, pins by name) are cut into groups of `fanout`, the last perhaps smaller, and each group is put behind a
/// buffer of its own: the first usable cell of the library whose function is its input, or where there is none two of the first
/// inverter in a row. Buffers stand behind the other instances and are called b0, b1 and so on, without the names that instances
/// have. Nets are taken in the order of their classes.
///
/// It is refused by `NoBuffer` exactly where a net has too many sinks and the library has neither a buffer nor an inverter. The
/// netlist must be of usable cells, with ports vdd and vss, and 32 times its ports and pins must be fewer than 2^32, so that it has
/// fewer pins than that with all gates. Takes memory for the netlist and for each terminal; time for each terminal with the logarithm
/// of their number, and for each instance once for each cell of the library.
pub fn limit_fanout(
    alloc: Global,
    netlist: &Netlist,
    library: &Library,
    fanout: u32,
) -> Result<Netlist, BufferError>
    requires size { 2 ≤ fanout }
    requires cells { IsOfCells netlist.now library.now }
    requires room { HasRoomForGates netlist.now }
    ensures buffered { IfOk result (λ r. IsBuffered netlist.now library.now fanout r) }
    ensures fanout { IfOk result (λ r. HasFanout library.now fanout r) }
    ensures right { IfOk result (λ r. StaysRight netlist.now library.now r) }
    ensures cells { IfOk result (λ r. IsOfCells r library.now) }
    ensures sound { IfOk result (λ r. IsNetlist r) }
    ensures few { IfOk result (λ r. 4 ≤ fanout → HasFewGates netlist.now library.now r) }
    ensures covered { OnOk result (IsCrowded library.now fanout netlist.now → NoneRepeats library.now.cells → ⊥) }
    ensures refused { IfErr result (λ e. IsBufferRefusal netlist.now library.now fanout e) }
{
    texts_are_free();
    stays_right_law();
    let cells = library.cells();
    let mut wiring = wiring_of(alloc, netlist, library)?;
    let loads = net_loads(alloc, netlist, library, wiring.high, wiring.low)?;
    let limit = fanout as usize;
    if !is_crowded(&loads, limit) {
        return Ok(with_gates(alloc, netlist, None, wiring)?);
    }
    match make_repeater(alloc, cells)? {
        Some(found) => {
            wiring.limit_all(alloc, &found, &loads, limit)?;
            Ok(with_gates(alloc, netlist, Some(&found), wiring)?)
        }
        None => Err(BufferError::NoBuffer),
    }
}
