// A machine laid out over one array of bits.
ghost use Rattle.std.specs.Prelude.{◌≡◌, ◌≤◌, IfOk};
ghost use Rattle.vlsi_base.specs.Range.{rising};
ghost use Rattle.asimut_sim.specs.Flat.{IsFlat, IsArray};

use crate::layout::{Load, lay_equations, lay_registers};
use crate::program::{Program, place_behind};
use crate::values::zeros;
use machine_core::Machine;
use std::alloc::{AllocError, Global};

/// A machine over one array of bits: a 0 and a 1, the inputs, the contents of the registers, and the operators' results.
/// `settling` has the operators that the names read, and `loading` behind it those that only registers read.
#[derive(Drop)]
pub(crate) struct FlatMachine<'a> {
    pub(crate) machine: &'a Machine,
    pub(crate) vars: Vec<usize>,
    pub(crate) settling: Program,
    pub(crate) loading: Program,
    pub(crate) loads: Vec<Load>,
}

// So many places behind the constants.
fn first_places(alloc: Global, count: usize) -> Result<Vec<usize>, AllocError>
    ensures { IfOk result (λ v. v.items ≡ rising 2 count) }
{
    let mut places = Vec::new(alloc);
    for k in 0..count {
        places.push(place_behind(2, k)?)?;
    }
    Ok(places)
}

/// The flat machine of a machine. It takes memory for each name and each operator.
pub(crate) fn flatten<'a>(
    alloc: Global,
    machine: &'a Machine,
) -> Result<FlatMachine<'a>, AllocError>
    ensures machine { IfOk result (λ flat. flat.machine.now ≡ machine.now) }
    ensures flat { IfOk result (λ flat. IsFlat flat) }
{
    let equations = machine.equations().as_slice();
    let held = machine.vars().as_slice().len() - equations.len();
    let mut vars = first_places(alloc, held)?;
    let mut settling = Program::new(alloc, place_behind(2, held)?);
    lay_equations(alloc, &mut settling, equations, &mut vars)?;
    let mut loading = Program::new(alloc, settling.end()?);
    let registers = machine.registers().as_slice();
    let loads = lay_registers(alloc, &mut loading, registers, &vars)?;
    Ok(FlatMachine {
        machine,
        vars,
        settling,
        loading,
        loads,
    })
}

/// An array for the flat machine.
pub(crate) fn new_array(alloc: Global, flat: &FlatMachine) -> Result<Vec<bool>, AllocError>
    requires { IsFlat flat.now }
    ensures { IfOk result (λ bits. IsArray flat.now bits.items) }
{
    let mut bits = zeros(alloc, flat.loading.end()?)?;
    bits[1] = true;
    Ok(bits)
}
