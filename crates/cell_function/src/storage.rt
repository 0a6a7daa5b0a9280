// The plain flip-flop that a machine is.
ghost use Rattle.std.specs.Prelude.{◌≡◌, length, IfOk};
ghost use Rattle.std.specs.Option.{option_copied};
ghost use Rattle.machine_core.specs.Machine.{inputs};
ghost use Rattle.cell_function.specs.Row.{HasStorageShape, IsStorageOutput, IsFlipFlopOr, keeps, keeps_always};

use crate::rows::settle;
use crate::shape::{are_scalar, input_count, only_output, value_at};
use bool_expr::value;
use machine_core::Machine;
use std::alloc::{AllocError, Global};
use vlsi_base::Name;

/// The output of a machine with one register, one input beside the clock, and scalar pins.
fn storage_output(machine: &Machine) -> Option<&Name>
    ensures { IsStorageOutput machine.now (option_copied result) }
{
    if machine.registers().as_slice().len() != 1 {
        return None;
    }
    if input_count(machine) != 1 {
        return None;
    }
    if !are_scalar(machine.ports().as_slice()) {
        return None;
    }
    only_output(machine.ports().as_slice())
}

/// Whether the register, which holds a bit, loads the bit that is given, while the output shows the one that is held.
fn keeps(
    alloc: Global,
    machine: &Machine,
    output: &Name,
    held: bool,
    given: bool,
) -> Result<bool, AllocError>
    requires { HasStorageShape machine.now output.now }
    ensures { IfOk result (λ b. b ≡ keeps machine.now output.now held given) }
{
    let w = settle(alloc, machine, &[given], &[held])?;
    let register = &machine.registers().as_slice()[0];
    if value(&register.next, &w) != given {
        return Ok(false);
    }
    if !value(&register.enable, &w) {
        return Ok(false);
    }
    Ok(value_at(machine.vars().as_slice(), w.as_slice(), output) == held)
}

/// The same for each bit that is held, and each that is given.
fn keeps_always(alloc: Global, machine: &Machine, output: &Name) -> Result<bool, AllocError>
    requires { HasStorageShape machine.now output.now }
    ensures { IfOk result (λ b. b ≡ keeps_always machine.now output.now) }
{
    if !keeps(alloc, machine, output, false, false)? {
        return Ok(false);
    }
    if !keeps(alloc, machine, output, false, true)? {
        return Ok(false);
    }
    if !keeps(alloc, machine, output, true, false)? {
        return Ok(false);
    }
    keeps(alloc, machine, output, true, true)
}

/// The data pin and the clock of a machine that is a plain flip-flop; none where it isn't one.
pub(crate) fn flip_flop_of(
    alloc: Global,
    machine: &Machine,
) -> Result<Option<(Name, Name)>, AllocError>
    ensures { IfOk result (λ found. IsFlipFlopOr machine.now found) }
{
    let Some(output) = storage_output(machine) else {
        return Ok(None);
    };
    let Some(clock) = machine.clock() else {
        return Ok(None);
    };
    if !keeps_always(alloc, machine, output)? {
        return Ok(None);
    }
    let data = machine.vars().as_slice()[0].copy(alloc)?;
    let clock = clock.copy(alloc)?;
    Ok(Some((data, clock)))
}
