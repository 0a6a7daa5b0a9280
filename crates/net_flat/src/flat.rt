// A netlist as a machine whose registers have its instances' names.
ghost use Rattle.std.specs.Prelude.{◌≡◌, ◌<◌, ◌≤◌, ◌^◌, length, IfOk, IfErr, OnOk};
ghost use Rattle.net_machine.specs.Signals.{MeetsConditionWith};
ghost use Rattle.net_machine.specs.Bits.{bits_of};
ghost use Rattle.net_flat.specs.Parts.{registers_of};
ghost use Rattle.net_flat.specs.Flat.{IsPlain, AreApart, IsFlatWith, CanBeText};
ghost use Rattle.net_flat.specs.Answers.{IsFlatRefusal};

use crate::error::FlatError;
use crate::parts::{first_other, parts, register_names};
use crate::renaming::named;
use crate::taken::first_taken;
use cell_checks::Library;
use machine_core::{Machine, settles_once};
use net_core::Netlist;
use net_machine::{NetMachineError, machine_of};
use std::alloc::Global;
use vlsi_base::Name;

/// The names of the flip-flops, in the order of instances.
fn registers(alloc: Global, netlist: &Netlist, library: &Library) -> Result<Vec<Name>, FlatError>
    ensures names { IfOk result (λ names. names.items ≡ registers_of library.now netlist.now.instances) }
    ensures plain { OnOk result (IsPlain netlist.now library.now) }
    ensures apart { OnOk result (AreApart netlist.now library.now) }
    ensures refused { IfErr result (IsFlatRefusal netlist.now library.now) }
{
    let models = netlist.models();
    let nodes = netlist.nodes();
    let parts = parts(alloc, models, library.cells())?;
    if let Some(place) = first_other(nodes, &parts) {
        let model = models[nodes[place].model].copy(alloc)?;
        return Err(FlatError::NoBehaviour(model));
    }
    let names = register_names(alloc, nodes, &parts)?;
    if let Some(place) = first_taken(alloc, &names, netlist.ports())? {
        let text = names[place].text.copy(alloc)?;
        return Err(FlatError::Twice(text));
    }
    Ok(names)
}

/// The machine of a netlist of gates and plain flip-flops, whose registers are the flip-flops by their names, in the order of names.
/// From whatever contents, each register's bit being what the instance of its name holds, and for every vector, it settles as the
/// netlist does, with the same bits at the ports and the same next contents. Its name, its ports and its clock are those of
/// `net_machine::machine_of`. Where the netlist's names can be written, so can the machine's, unless its clock is a bit of a vector.
///
/// - `NoBehaviour`: the cell of an instance is neither a gate nor a plain flip-flop; it names the cell of the first such instance, in
///   the order of instances.
/// - `Twice`: each cell is one of these, and a flip-flop's name is the text of a port; it gives the first such name, in the order of
///   instances.
///
/// Takes the memory and the time of that machine three times over; for each model it looks through the library's cells.
pub fn flatbeh(alloc: Global, netlist: &Netlist, library: &Library) -> Result<Machine, FlatError>
    requires condition { MeetsConditionWith library.now netlist.now }
    requires few { IsPlain netlist.now library.now → bits_of netlist.now library.now < 2 ^ 32 }
    ensures machine { IfOk result (λ m. IsFlatWith netlist.now library.now m) }
    ensures text { IfOk result (λ m. CanBeText netlist.now m) }
    ensures plain { OnOk result (IsPlain netlist.now library.now) }
    ensures apart { OnOk result (AreApart netlist.now library.now) }
    ensures numbered { IfOk result (λ m. length m.vars ≤ bits_of netlist.now library.now) }
    ensures refused { IfErr result (IsFlatRefusal netlist.now library.now) }
{
    // What is known of each netlist, and of each machine in order.
    let _ = netlist.classes();
    settles_once();
    let names = registers(alloc, netlist, library)?;
    let machine = match machine_of(alloc, netlist, library) {
        Ok(machine) => machine,
        Err(NetMachineError::Memory) => return Err(FlatError::Memory),
        Err(NetMachineError::NoBehaviour(model)) => return Err(FlatError::NoBehaviour(model)),
        Err(NetMachineError::TooManyBits(_)) => unreachable!(),
    };
    // Its names aren't read here: the call says that the machine is checked.
    let _ = machine.vars();
    let made = named(alloc, &machine, &names)?;
    Ok(made)
}
