// When paths arrive in the classes of a netlist.
ghost use Rattle.std.specs.Prelude.{◌≡◌, ◌↔◌, ◌⊎◌, ◌<◌, ◌≤◌, ℕ, None, false, length, slice_index, slice_index_or, IsTrue, IfOk, OnOk};
ghost use Rattle.std.specs.Option.{option_copied};
ghost use Rattle.cell_checks.specs.Checked.{IsChecked};
ghost use Rattle.net_core.specs.Netlist.{IsNetlist};
ghost use Rattle.net_core.specs.Places.{IsThere};
ghost use Rattle.delay_sta.specs.Loads.{load};
ghost use Rattle.delay_sta.specs.Paths.{IsEnd, Arrives, IsGreatest};
ghost use Rattle.delay_sta.specs.Graph.{AreFound, IsGraph, AreReached, AreStarts, AreSettled, AreStartsOf, IsStartPort, data_pin, IsDataClass, IsOutputBefore};
ghost use Rattle.delay_sta.specs.Timed.{CanBeTimed, IsPathOrder, AreDelaysOf};

use crate::arrivals::Delays;
use crate::graph::{TimedArc, class_of, grouped, reached, timed_arcs};
use crate::loads::{cell_places, loads};
use crate::settle::settle;
use cell_checks::Library;
use cell_model::{Cell, Function};
use cell_pins::pin_table;
use net_core::{Netlist, class_order};
use std::alloc::{AllocError, Global};
use vlsi_base::{Dir, Name, Port, Text, is_supply};

fn is_start(port: &Port) -> bool
    ensures { IsTrue result ↔ IsStartPort port.now }
{
    port.dir == Dir::In && !is_supply(port.name.text.as_bytes())
}

/// The arrivals of classes by paths without a step.
fn starts(alloc: Global, netlist: &Netlist) -> Result<Vec<Option<u128>>, AllocError>
    ensures { IfOk result (λ arrivals. AreStartsOf netlist.now arrivals.items) }
{
    let mut arrivals = vec![in alloc; None; netlist.count() as usize]?;
    let ports = netlist.ports();
    let classes = netlist.classes();
    for k in 0..ports.len() {
        if is_start(&ports[k]) {
            arrivals[classes[k] as usize] = Some(0);
        }
    }
    Ok(arrivals)
}

fn data_pin(cell: &Cell) -> Option<&Name>
    ensures { option_copied result ≡ data_pin cell.now.function }
{
    match cell.function.as_enum() {
        Function::FlipFlop { data, .. } => Some(data),
        Function::Gate(_) => None,
        Function::Other(_) => None,
        Function::Opaque => None,
    }
}

/// The classes of output ports.
fn output_classes(alloc: Global, ports: &[Port], classes: &[u32]) -> Result<Vec<u32>, AllocError>
    requires { length ports.now ≤ length classes.now }
    ensures { IfOk result (λ ends. (class : ℕ) → IsThere ends.items class ↔ IsOutputBefore ports.now classes.now (length ports.now) class) }
{
    let mut ends = Vec::new(alloc);
    for k in 0..ports.len() {
        let port = &ports[k];
        match port.dir {
            Dir::In => {}
            Dir::Out => ends.push(classes[k])?,
        }
    }
    Ok(ends)
}

/// Puts the class of a flip-flop's data pin behind the others.
fn push_data_class(
    alloc: Global,
    ends: &mut Vec<u32>,
    netlist: &Netlist,
    owner: &Text,
    cell: &Cell,
) -> Result<(), AllocError>
    requires { IsNetlist netlist.now }
    ensures { OnOk result ((class : ℕ) → IsThere ends.new.items class ↔ (IsThere ends.old.items class ⊎ IsDataClass netlist.now owner.now cell.now class)) }
{
    if let Some(data) = data_pin(cell) {
        if let Some(class) = class_of(alloc, netlist, owner, data)? {
            ends.push(class)?;
        }
    }
    Ok(())
}

/// The classes at which paths end.
fn ends(
    alloc: Global,
    netlist: &Netlist,
    library: &Library,
    places: &[usize],
) -> Result<Vec<u32>, AllocError>
    requires sound { IsNetlist netlist.now }
    requires cells { AreFound library.now.cells netlist.now.models places.now }
    ensures { IfOk result (λ ends. (class : ℕ) → IsThere ends.items class ↔ IsEnd netlist.now library.now class) }
{
    let mut ends = output_classes(alloc, netlist.ports(), netlist.classes())?;
    for node in netlist.nodes() {
        if let Some(cell) = library.cells().get(places[node.model]) {
            push_data_class(alloc, &mut ends, netlist, &node.name, cell)?;
        }
    }
    Ok(ends)
}

/// The classes of a netlist, each behind those from which paths go on to it.
fn path_order(alloc: Global, netlist: &Netlist, library: &Library) -> Result<Vec<u32>, AllocError>
    requires checked { IsChecked false library.now }
    requires netlist { CanBeTimed library.now netlist.now }
    ensures { IfOk result (λ order. IsPathOrder netlist.now library.now order.items) }
{
    let table = pin_table(alloc, library, false)?;
    class_order(alloc, netlist, &table)
}

/// The greatest arrivals of classes, none of which is stale.
fn settled(
    alloc: Global,
    starts: &[Option<u128>],
    order: &[u32],
    graph: (&[Vec<TimedArc>], &[Vec<u32>]),
) -> Result<(Vec<Option<u128>>, Vec<bool>), AllocError>
    requires graph { IsGraph graph.0.now order.now (length starts.now) }
    requires reached { AreReached graph.0.now graph.1.now }
    requires starts { AreStarts starts.now }
    ensures many { IfOk result (λ made. (length made.0.items ≡ length starts.now) × (length made.1.items ≡ length starts.now)) }
    ensures settled { IfOk result (λ made. AreSettled graph.entry.0.now starts.now made.0.items) }
    ensures fresh { IfOk result (λ made. (class : ℕ) → slice_index_or made.1.items class false ≡ false) }
{
    let mut arrivals = starts.to_vec(alloc)?;
    let mut stale = vec![in alloc; true; starts.len()]?;
    settle(&mut arrivals, &mut stale, starts, order, graph);
    Ok((arrivals, stale))
}

/// When paths arrive in the classes of a netlist of usable cells that has passed its checks. A path starts at an input port that is
/// no supply, or at a flip-flop with the arc from its clock, and goes on through gates; an arc takes what its cell says with the load
/// of its output's class. So a path that would start at a constant isn't one. Takes memory and time for each terminal, class and
/// arc; time has the logarithm of the number of instances beside, and for each model it looks through the library's cells.
pub fn delays(alloc: Global, netlist: &Netlist, library: &Library) -> Result<Delays, AllocError>
    requires { CanBeTimed library.now netlist.now }
    ensures { IfOk result (λ d. AreDelaysOf netlist.now library.now d) }
{
    // Its classes aren't read here: the call says that the netlist is sound.
    let _ = netlist.classes();
    let places = cell_places(alloc, netlist.models(), library.cells())?;
    let order = path_order(alloc, netlist, library)?;
    let loads = loads(alloc, netlist, library, &places)?;
    let all = timed_arcs(alloc, netlist, library, &places, &loads)?;
    let arcs = grouped(alloc, netlist.count(), &all)?;
    let reached = reached(alloc, netlist.count(), &all)?;
    let starts = starts(alloc, netlist)?;
    let (arrivals, stale) = settled(alloc, &starts, &order, (&arcs, &reached))?;
    Ok(Delays {
        arrivals,
        loads,
        ends: ends(alloc, netlist, library, &places)?,
        order,
        starts,
        arcs,
        reached,
        places,
        stale,
        marks: vec![in alloc; false; netlist.count() as usize]?,
    })
}
