// How many inputs and registers a machine has.
ghost use Rattle.std.specs.Prelude.{◌≡◌};
ghost use Rattle.graph_theory.specs.Graph.{held_count};
ghost use Rattle.boog_map.specs.Netlist.{HasRoomForCells, has_registers};

use machine_core::Machine;

pub(crate) fn has_registers(machine: &Machine) -> bool
    ensures { result ≡ has_registers machine.now }
{
    !machine.registers().as_slice().is_empty()
}

/// How many inputs and registers there are.
#[tactic(auto, using(crate::proofs::Rooms::few_inputs))]
pub(crate) fn held_count(machine: &Machine) -> u32
    requires { HasRoomForCells machine.now }
    ensures { result ≡ held_count machine.now }
{
    (machine.vars().as_slice().len() - machine.equations().as_slice().len()) as u32
}
