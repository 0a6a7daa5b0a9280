// The machine of numbered bits.
ghost use Rattle.std.specs.Prelude.{◌≡◌, ◌<◌, ◌≤◌, ◌^◌, ◌++◌, map, length, IfOk};
ghost use Rattle.machine_core.specs.Checked.{IsChecked};
ghost use Rattle.machine_core.specs.View.{machine_of};
ghost use Rattle.source_bits.specs.Driven.{driven_view, stored_view};
ghost use Rattle.vlsi_model.specs.Numbered.{name_at, driven_at};
ghost use Rattle.bit_machine.specs.System.{system_of, stored_bits, IsSystem, Falls, FitsPorts, IsMachineOfBits};
ghost use Rattle.bit_machine.specs.Laid.{IsLaid, var_bits as bits_of_names, ArePartsOf};

use crate::parts::{equations, names_of, push_driven, push_stored, registers};
use crate::places::places;
use crate::system::BitSystem;
use bit_order::Order;
use machine_core::{Equations, Machine, Registers};
use std::alloc::{AllocError, Global};
use vlsi_base::{Name, Names, Ports, Text};
use vlsi_model::node_order;

/// The places of the driven bits in an order in which each reads only what is held or stands before it.
fn driven_order(alloc: Global, system: &BitSystem) -> Result<Vec<u32>, AllocError>
    requires system { IsSystem (system_of system.now) }
    requires falls { Falls (system_of system.now).driven }
    requires few { length system.now.names < 2 ^ 32 }
    ensures { IfOk result (λ order. IsLaid (system_of system.now) order.items) }
{
    let total = system.names.as_slice().len();
    match node_order(alloc, total as u32, &system.driven)? {
        Order::Sorted(order) => Ok(order),
        Order::Ring(_) => unreachable!(),
    }
}

/// The bits of a machine's names, in their order.
fn var_bits(alloc: Global, system: &BitSystem, order: &[u32]) -> Result<Vec<u32>, AllocError>
    requires { IsLaid (system_of system.now) order.now }
    ensures { IfOk result (λ bits. bits.items ≡ bits_of_names (system_of system.now) order.now) }
{
    let mut bits = Vec::from_slice(alloc, &system.inputs)?;
    push_stored(&mut bits, &system.stored)?;
    push_driven(&mut bits, &system.driven, order)?;
    Ok(bits)
}

/// The equations and registers of a machine whose names are those of these bits.
fn parts(
    alloc: Global,
    system: &BitSystem,
    order: &[u32],
    bits: &[u32],
) -> Result<(Equations, Registers), AllocError>
    requires system { IsSystem (system_of system.now) }
    requires laid { IsLaid (system_of system.now) order.now }
    requires bits { bits.now ≡ bits_of_names (system_of system.now) order.now }
    requires few { length system.now.names < 2 ^ 32 }
    ensures { IfOk result (λ made. ArePartsOf (system_of system.now) order.now made.0 made.1) }
{
    let names = system.names.as_slice();
    let table = places(alloc, names.len(), bits)?;
    let equations = equations(alloc, names, &system.driven, order, &table)?;
    let registers = registers(alloc, names, &system.stored, &table)?;
    Ok((Equations::new(equations), Registers::new(registers)))
}

/// The machine of numbered bits, with these ports and this clock. None of the driven bits may
/// depend on itself. Takes time for each bit and each operator of the expressions, and memory for them.
pub fn machine_of_bits(
    alloc: Global,
    name: Text,
    ports: Ports,
    clock: Option<Name>,
    system: &BitSystem,
) -> Result<Machine, AllocError>
    requires system { IsSystem (system_of system.now) }
    requires falls { Falls (system_of system.now).driven }
    requires ports { FitsPorts ports clock (system_of system.now) }
    requires few { length system.now.names < 2 ^ 32 }
    ensures machine { IfOk result (λ m. IsMachineOfBits name ports clock (system_of system.now) m) }
    ensures few { IfOk result (λ m. length m.vars ≤ length system.now.names) }
{
    let order = driven_order(alloc, system)?;
    let bits = var_bits(alloc, system, &order)?;
    let vars = names_of(alloc, system.names.as_slice(), &bits)?;
    let (equations, registers) = parts(alloc, system, &order, &bits)?;
    Ok(Machine::new(name, ports, clock, Names::new(vars), equations, registers))
}
