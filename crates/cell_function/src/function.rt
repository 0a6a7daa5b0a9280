// What a cell computes.
ghost use Rattle.std.specs.Prelude.{◌≡◌, IfOk};
ghost use Rattle.cell_function.specs.Function.{IsFunction, IsFunctionOf};

use crate::gate::gate_of;
use crate::storage::flip_flop_of;
use cell_model::Function;
use machine_core::Machine;
use std::alloc::{AllocError, Global};

/// What a machine is as a cell.
fn computed(alloc: Global, machine: Machine) -> Result<Function, AllocError>
    ensures { IfOk result (λ f. IsFunction machine f) }
{
    let gate = gate_of(alloc, &machine)?;
    if let Some(e) = gate {
        return Ok(Function::Gate(e));
    }
    let pins = flip_flop_of(alloc, &machine)?;
    match pins {
        Some((data, clock)) => Ok(Function::FlipFlop { data, clock }),
        None => Ok(Function::Other(machine)),
    }
}

/// What a cell computes: nothing is known of one without a machine. A machine with scalar pins is a gate exactly where it has
/// one output, at most 6 inputs, and neither a clock nor a register; and a plain flip-flop exactly where it has one output, one
/// input beside its clock, and one register that always loads this input and that the output shows, whatever the equations'
/// form. Every other machine is kept as it is. It takes memory for the expression, and for one bit of each name.
pub fn function_of(alloc: Global, machine: Option<Machine>) -> Result<Function, AllocError>
    ensures { IfOk result (λ f. IsFunctionOf machine f) }
{
    match machine {
        Some(machine) => computed(alloc, machine),
        None => Ok(Function::Opaque),
    }
}
