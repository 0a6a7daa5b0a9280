// Patterns on a netlist of cells.
ghost use Rattle.std.specs.Prelude.{◌<◌, ◌^◌, IfOk, IfErr, OnOk};
ghost use Rattle.pat_meaning.specs.Answers.{AreFor};
ghost use Rattle.net_machine.specs.Signals.{signal_ports, MeetsConditionWith, HasBehaviour};
ghost use Rattle.net_machine.specs.Bits.{bits_of};
ghost use Rattle.net_sim.specs.Circuit.{IsFilledWith};
ghost use Rattle.net_sim.specs.Answers.{IsSimRefusal};

use crate::error::NetSimError;
use crate::law::simulates_alike;
use asimut_sim::{SimError, simulate};
use cell_checks::Library;
use net_core::Netlist;
use net_machine::{NetMachineError, machine_of};
use pat_meaning::Patterns;
use std::alloc::Global;

/// What patterns come to on a netlist of a library's cells, which start with 0 in all registers: the patterns with every output
/// filled in.
///
/// - `NoBehaviour`: the cell of an instance is opaque; it names the cell of the first such instance, before any pattern.
/// - `TooManyBits`: no cell of an instance is opaque, and the netlist's machine would have 2^32 bits or more; it gives
///   their number, or the greatest one of 64 bits where they are more.
/// - `Differs`: the first bit that isn't what is expected, by pattern, then by column, then from the left.
///
/// Takes the memory and the time of the netlist's machine, and of its simulation.
pub fn simulate_net(
    alloc: Global,
    netlist: &Netlist,
    library: &Library,
    patterns: &Patterns,
) -> Result<Patterns, NetSimError>
    requires condition { MeetsConditionWith library.now netlist.now }
    requires patterns { AreFor (signal_ports netlist.now.ports) patterns.now }
    ensures filled { IfOk result (λ out. IsFilledWith netlist.now library.now patterns.now out) }
    ensures known { OnOk result (HasBehaviour netlist.now library.now) }
    ensures few { OnOk result (bits_of netlist.now library.now < 2 ^ 32) }
    ensures refused { IfErr result (λ e. IsSimRefusal netlist.now library.now patterns.now e) }
{
    simulates_alike();
    let machine = match machine_of(alloc, netlist, library) {
        Ok(machine) => machine,
        Err(NetMachineError::Memory) => return Err(NetSimError::Memory),
        Err(NetMachineError::NoBehaviour(model)) => return Err(NetSimError::NoBehaviour(model)),
        Err(NetMachineError::TooManyBits(bits)) => return Err(NetSimError::TooManyBits(bits)),
    };
    match simulate(alloc, &machine, patterns) {
        Ok(filled) => Ok(filled),
        Err(SimError::Memory) => Err(NetSimError::Memory),
        Err(SimError::Differs { pattern, name }) => Err(NetSimError::Differs { pattern, name }),
    }
}
