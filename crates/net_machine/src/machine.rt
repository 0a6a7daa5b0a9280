// A netlist of cells as a machine.
ghost use Rattle.std.specs.Prelude.{◌≡◌, ◌<◌, ◌≤◌, ◌^◌, length, IfOk, IfErr, OnOk};
ghost use Rattle.net_machine.specs.Signals.{signal_ports, MeetsConditionWith, HasBehaviour};
ghost use Rattle.net_machine.specs.Bits.{bits_of};
ghost use Rattle.net_machine.specs.Step.{IsMachineWith, IsInOrderWith};
ghost use Rattle.net_machine.specs.Answers.{IsMachineRefusal};

use crate::bits::gather;
use crate::clock::clock_port;
use crate::count::count_bits;
use crate::error::NetMachineError;
use crate::known::{first_unknown, known_models};
use bit_machine::machine_of_bits;
use cell_checks::Library;
use machine_core::Machine;
use net_core::Netlist;
use std::alloc::{AllocError, Global};
use vlsi_base::{Port, Ports, is_supply};

/// The ports but vdd and vss, in their order. Takes memory for their names.
pub fn signal_ports(alloc: Global, ports: &[Port]) -> Result<Ports, AllocError>
    ensures { IfOk result (λ made. made ≡ signal_ports ports.now) }
{
    let mut made = Vec::new(alloc);
    for port in ports {
        if !is_supply(port.name.text.as_bytes()) {
            let name = port.name.copy(alloc)?;
            made.push(Port {
                name,
                dir: port.dir,
            })?;
        }
    }
    Ok(Ports::new(made))
}

/// The machine of a netlist of a library's cells: its name, its ports but vdd and vss in the order of names, and the port that its
/// clock pins hang on as clock, where it has clock pins. From contents that fit the instances, and for every vector, it settles as
/// the netlist does, with the same outputs and the same next contents.
///
/// - `NoBehaviour`: the cell of an instance is opaque; it names the cell of the first such instance, in the order of instances.
/// - `TooManyBits`: no cell of an instance is opaque, and the machine would have 2^32 bits or more: one for each class,
///   one for each port, and those inside its instances. It gives their number, or the greatest one of 64 bits where they are more.
///
/// Takes memory and time for each class and port, and for each bit and each operator of each instance's cell; for each model it
/// looks through the library's cells, and for each output of another machine's cell through the cell's names; time has the
/// logarithm of the number of instances beside.
pub fn machine_of(
    alloc: Global,
    netlist: &Netlist,
    library: &Library,
) -> Result<Machine, NetMachineError>
    requires { MeetsConditionWith library.now netlist.now }
    ensures machine { IfOk result (λ m. IsMachineWith netlist.now library.now m) }
    ensures order { IfOk result (λ m. IsInOrderWith netlist.now library.now m) }
    ensures known { OnOk result (HasBehaviour netlist.now library.now) }
    ensures few { OnOk result (bits_of netlist.now library.now < 2 ^ 32) }
    ensures numbered { IfOk result (λ m. length m.vars ≤ bits_of netlist.now library.now) }
    ensures refused { IfErr result (λ e. IsMachineRefusal netlist.now library.now e) }
{
    // Its classes aren't read here: the call says that the netlist is sound.
    let _ = netlist.classes();
    let models = netlist.models();
    let nodes = netlist.nodes();
    let known = known_models(alloc, models, library.cells())?;
    if let Some(place) = first_unknown(nodes, &known) {
        let model = models[nodes[place].model].copy(alloc)?;
        return Err(NetMachineError::NoBehaviour(model));
    }
    let bits = count_bits(netlist, &known);
    if bits > u64::from(u32::MAX) {
        return Err(NetMachineError::TooManyBits(bits));
    }
    let clock = clock_port(alloc, netlist, &known)?;
    let system = gather(alloc, netlist, &known, clock.as_ref())?;
    let name = netlist.name().copy(alloc)?;
    let ports = signal_ports(alloc, netlist.ports())?;
    let machine = machine_of_bits(alloc, name, ports, clock, &system)?;
    Ok(machine)
}
