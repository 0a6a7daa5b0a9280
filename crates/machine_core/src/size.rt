// How large a machine is.
ghost use Rattle.std.specs.Prelude.{◌≡◌, ◌+◌, ◌*◌, ◌-◌, ◌^◌, length, min, filter, not};
ghost use Rattle.std.specs.List.{sum_by};
ghost use Rattle.bool_expr.specs.Expression.{size_of};
ghost use Rattle.bool_expr.specs.View.{view};
ghost use Rattle.machine_core.specs.Machine.{is_input};
ghost use Rattle.machine_core.specs.Size.{machine_size};

use crate::{Equation, Machine, Register};
use bool_expr::size;
use vlsi_base::{Dir, Port};

/// All expressions of the equations together.
fn equations_size(equations: &[Equation]) -> u64
    ensures { result ≡ min (sum_by (λ e. size_of (view e.expr)) equations.now) (2 ^ 64 - 1) }
{
    let mut sum = 0u64;
    for equation in equations {
        sum = sum.saturating_add(size(&equation.expr));
    }
    sum
}

/// All expressions of the registers together.
fn registers_size(registers: &[Register]) -> u64
    ensures { result ≡ min (sum_by (λ r. size_of (view r.next) + size_of (view r.enable)) registers.now) (2 ^ 64 - 1) }
{
    let mut sum = 0u64;
    for register in registers {
        sum = sum
            .saturating_add(size(&register.next))
            .saturating_add(size(&register.enable));
    }
    sum
}

fn count_outputs(ports: &[Port]) -> usize
    ensures { result ≡ length (filter (λ p. not (is_input p.dir)) ports.now) }
{
    ports.iter().filter(|port| port.dir != Dir::In).count()
}

/// The size of a machine: all its expressions together, 2 for each output bit and 5 for each register bit; or the greatest
/// number of the type where that is less. Takes no memory.
pub fn machine_size(m: &Machine) -> u64
    ensures { result ≡ min (machine_size m.now) (2 ^ 64 - 1) }
{
    let outputs = count_outputs(m.ports().as_slice()) as u64;
    let registers = m.registers().as_slice();
    let bits = registers.len() as u64;
    equations_size(m.equations().as_slice())
        .saturating_add(registers_size(registers))
        .saturating_add(outputs.saturating_mul(2))
        .saturating_add(bits.saturating_mul(5))
}
