// The gate that a machine is.
ghost use Rattle.std.specs.Prelude.{◌≡◌, [], length, IfOk};
ghost use Rattle.std.specs.Option.{option_copied};
ghost use Rattle.bool_expr.specs.Expression.{IsOver};
ghost use Rattle.bool_expr.specs.View.{view};
ghost use Rattle.machine_core.specs.Checked.{IsChecked};
ghost use Rattle.machine_core.specs.Machine.{inputs};
ghost use Rattle.cell_function.specs.Row.{row, HasRows, HasGateShape, IsGateOutput, IsGateOr};

use crate::rows::split;
use crate::shape::{are_scalar, input_count, only_output};
use bool_expr::{Expr, copy};
use machine_core::Machine;
use std::alloc::{AllocError, Global};
use vlsi_base::Name;

/// The most inputs of a gate.
const MOST_INPUTS: usize = 6;

/// The output of a machine that is a gate.
fn gate_output(machine: &Machine) -> Option<&Name>
    ensures output { IsGateOutput machine.now (option_copied result) }
    ensures checked { IsChecked machine.now }
{
    if machine.clock().is_some() {
        return None;
    }
    if !machine.registers().as_slice().is_empty() {
        return None;
    }
    if input_count(machine) > MOST_INPUTS {
        return None;
    }
    if !are_scalar(machine.ports().as_slice()) {
        return None;
    }
    only_output(machine.ports().as_slice())
}

/// An expression of the output's value: that of its equation where there is no other, which reads inputs alone; and elsewhere one
/// that is made of the values under all vectors.
fn expression(alloc: Global, machine: &Machine, output: &Name) -> Result<Expr, AllocError>
    requires { HasGateShape machine.now output.now }
    ensures rows { IfOk result (λ e. HasRows (row machine.now output.now) [] (length (inputs machine.now)) (view e)) }
    ensures over { IfOk result (λ e. IsOver (view e) (length (inputs machine.now))) }
{
    let equations = machine.equations().as_slice();
    if equations.len() == 1 {
        return copy(alloc, &equations[0].expr);
    }
    split(alloc, machine, output, &[], input_count(machine))
}

/// The expression of a machine that is a gate; none where it isn't one.
pub(crate) fn gate_of(alloc: Global, machine: &Machine) -> Result<Option<Expr>, AllocError>
    ensures { IfOk result (λ found. IsGateOr machine.now found) }
{
    let Some(output) = gate_output(machine) else {
        return Ok(None);
    };
    let e = expression(alloc, machine, output)?;
    Ok(Some(e))
}
