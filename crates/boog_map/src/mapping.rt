// Technology mapping.
ghost use Rattle.std.specs.Prelude.{◌≡◌, ◌++◌, ◌+◌, ◌<◌, ◌^◌, map, length, IfOk, OnOk, IfErr};
ghost use Rattle.net_right.specs.Right.{IsRightNetlist, HasPinsOfCells};
ghost use Rattle.net_core.specs.Netlist.{IsNetlist};
ghost use Rattle.graph_theory.specs.Graph.{held_count};
ghost use Rattle.subject_graph.specs.Subject.{IsSubjectGraph};
ghost use Rattle.boog_cover.specs.Covered.{IsCovered};
ghost use Rattle.boog_map.specs.Tied.{gate_words};
ghost use Rattle.boog_map.specs.Netlist.{HasRoomForCells, Covers, IsMapRefusal, StandsInOrder, HasOneCellAtMost, HasFewInputs, IsLeanFor, IsTightFor};
ghost use Rattle.boog_map.specs.Mapped.{root_numbers, IsPlan, IsSketch, IsMapped};

use crate::MapError;
use crate::build::{Sketch, build};
use crate::choice::{Parts, chosen_parts};
use crate::count::{has_registers, held_count};
use crate::covering::covering;
use crate::drivers::{input_ports, make_drivers};
use crate::place::Plan;
use crate::ports::tied_ports;
use cell_checks::Library;
use cell_match::Gate;
use cell_model::first_missing;
use cell_pins::with_supplies;
use gate_cells::gate_cells;
use machine_core::Machine;
use net_core::Netlist;
use std::alloc::{AllocError, Global};
use subject_graph::Graph;
use vlsi_base::Listed;

/// The instances of a machine's registers and of the gates of its nodes.
fn planned(
    alloc: Global,
    machine: &Machine,
    graph: &Graph,
    parts: &Parts,
    gates: &[Option<Gate>],
) -> Result<Plan, AllocError>
    requires graph { IsSubjectGraph machine.now graph.now }
    requires few { HasRoomForCells machine.now }
    requires long { length gates.now ≡ held_count machine.now + length graph.now.nodes }
    ensures { IfOk result (λ plan. IsPlan machine.now graph.now parts.now gates.now plan) }
{
    let held = held_count(machine) as usize;
    let loads = graph.loads();
    let names = &machine.vars().as_slice()[..held - loads.len()];
    let mut plan = Plan {
        spots: Vec::new(alloc),
        drivers: input_ports(alloc, names)?,
    };
    plan.put_registers(alloc, parts, loads)?;
    plan.put_gates(alloc, parts, &gates[held..])?;
    Ok(plan)
}

fn sketched(
    alloc: Global,
    machine: &Machine,
    graph: &Graph,
    parts: Parts,
    gates: &[Option<Gate>],
) -> Result<Sketch, AllocError>
    requires graph { IsSubjectGraph machine.now graph.now }
    requires few { HasRoomForCells machine.now }
    requires long { length gates.now ≡ held_count machine.now + length graph.now.nodes }
    ensures { IfOk result (λ k. IsSketch machine.now graph.now parts gates.now k) }
{
    let Plan { spots, drivers } = planned(alloc, machine, graph, &parts, gates)?;
    let drivers = make_drivers(alloc, machine.clock(), drivers)?;
    let all = with_supplies(alloc, machine.ports().as_slice())?;
    let ports = tied_ports(alloc, machine.clock(), graph.outputs(), &all)?;
    Ok(Sketch {
        ports,
        parts,
        spots,
        drivers,
    })
}

/// Maps a machine as `map` does, to cells of a library that has a usable one of each kind. Takes memory and time as `map` does.
pub fn map_covered(
    alloc: Global,
    machine: &Machine,
    graph: &Graph,
    library: &Library,
) -> Result<Netlist, AllocError>
    requires graph { IsSubjectGraph machine.now graph.now }
    requires few { HasRoomForCells machine.now }
    requires covered { Covers library.now machine.now }
    ensures { IfOk result (λ n. IsMapped n library.now machine.now graph.now) }
{
    let cells = gate_cells(alloc, library)?;
    let parts = chosen_parts(alloc, library.cells(), cells, has_registers(machine))?;
    let gates = covering(alloc, machine, graph, &parts)?;
    let sketch = sketched(alloc, machine, graph, parts, &gates)?;
    let name = machine.name().copy(alloc)?;
    let ports = with_supplies(alloc, machine.ports().as_slice())?;
    build(alloc, name, Listed::new(ports), &sketch)
}

/// Maps a machine to cells of a library, from its subject graph. Its gates are covered by any usable gates of the library, of least
/// width as far as a heuristic finds it, and no usable cell could stand for two of them. For registers the first usable flip-flop in
/// the library's order is taken. The registers in the order of names are q0, q1 and so on; behind them the gates are g0, g1 and so on,
/// in the order of the nodes that they show: at most one for each node that an output or a register needs. It is refused by `NoCover`
/// exactly where the library has no usable cell of a kind, whether the machine has such a node or not; a flip-flop is needed for
/// registers alone. The machine must be small enough that its netlist has fewer than 2^32 pins. Takes memory for the netlist, and
/// meanwhile for the cuts of each node, for each pair of joined terminals, and for the orders of each cell's inputs; time for each
/// node and terminal, times the logarithm of their number, and for the cells' orders.
pub fn map(
    alloc: Global,
    machine: &Machine,
    graph: &Graph,
    library: &Library,
) -> Result<Netlist, MapError>
    requires graph { IsSubjectGraph machine.now graph.now }
    requires few { HasRoomForCells machine.now }
    ensures right { IfOk result (λ n. IsRightNetlist n library.now machine.now) }
    ensures pins { IfOk result (λ n. HasPinsOfCells n library.now) }
    ensures order { IfOk result (λ n. StandsInOrder n library.now machine.now) }
    ensures most { IfOk result (λ n. HasOneCellAtMost n machine.now graph.now) }
    ensures few { IfOk result (λ n. HasFewInputs n machine.now graph.now) }
    ensures lean { IfOk result (λ n. IsLeanFor n machine.now) }
    ensures tight { IfOk result (λ n. IsTightFor n library.now) }
    ensures sound { IfOk result (λ n. IsNetlist n) }
    ensures covered { OnOk result (Covers library.now machine.now) }
    ensures refused { IfErr result (λ e. IsMapRefusal library.now machine.now e) }
{
    if let Some(kind) = first_missing(library.cells(), has_registers(machine)) {
        return Err(MapError::NoCover(kind));
    }
    let netlist = map_covered(alloc, machine, graph, library)?;
    Ok(netlist)
}
