// Machines as they are compared: a clock that loads nothing is an input like the others.
ghost use Rattle.std.specs.Prelude.{◌≡◌, ◌++◌, ◌+◌, ◌<◌, ◌^◌, [], map, length, nat_lt, Some, IfOk, OnOk, IfSome, IfNone};
ghost use Rattle.std.specs.Prelude.{if◌then◌else◌};
ghost use Rattle.std.specs.List.{All};
ghost use Rattle.bool_expr.specs.Expression.{IsOver};
ghost use Rattle.bool_expr.specs.View.{view};
ghost use Rattle.machine_core.specs.View.{equation_view};
ghost use Rattle.proof_joint.specs.Clock.{name_place, numbers_without, equation_over, with_read_clock, as_compared};

use crate::naming::{Role, names_with};
use bool_expr::renumbered;
use machine_core::{Equation, Equations, Machine, Registers};
use std::alloc::{AllocError, Global};
use vlsi_base::{Name, Names, Port, Ports};

// Puts copies of names behind those that are there.
fn push_copies(alloc: Global, out: &mut Vec<Name>, names: &[&Name]) -> Result<(), AllocError>
    ensures { OnOk result (out.new.items ≡ out.old.items ++ map (λ n. n.now) names.now) }
{
    for name in names {
        out.push(name.copy(alloc)?)?;
    }
    Ok(())
}

// Puts copies of the names of equations behind those that are there.
fn push_equated(
    alloc: Global,
    out: &mut Vec<Name>,
    equations: &[Equation],
) -> Result<(), AllocError>
    ensures { OnOk result (out.new.items ≡ out.old.items ++ map (λ e. e.name) (map equation_view equations.now)) }
{
    for equation in equations {
        out.push(equation.name.copy(alloc)?)?;
    }
    Ok(())
}

// The place of the first name that is this one, and how many names there are where none is.
fn name_place(names: &[&Name], wanted: &Name) -> usize
    ensures { result ≡ name_place wanted.now (map (λ n. n.now) names.now) }
{
    for (k, name) in names.iter().enumerate() {
        if name.is_same(wanted) {
            return k;
        }
    }
    names.len()
}

// A number, where one is left out at a place.
fn number_without(place: usize, k: u32) -> u32
    requires { k + 1 < 2 ^ 32 }
    ensures { result ≡ (if nat_lt k place then k else k + 1) }
{
    if (k as usize) < place { k } else { k + 1 }
}

// So many numbers from 0 on, without the one at a place.
fn numbers_without(alloc: Global, place: usize, count: u32) -> Result<Vec<u32>, AllocError>
    ensures { IfOk result (λ v. v.items ≡ numbers_without place count) }
{
    let mut numbers = Vec::new(alloc);
    for k in 0..count {
        numbers.push(number_without(place, k))?;
    }
    Ok(numbers)
}

// The same equation, where its names have these numbers.
fn equation_over(
    alloc: Global,
    equation: &Equation,
    numbers: &[u32],
) -> Result<Equation, AllocError>
    requires { IsOver (view equation.now.expr) (length numbers.now) }
    ensures { IfOk result (λ e. equation_view e ≡ equation_over numbers.now (equation_view equation.now)) }
{
    let name = equation.name.copy(alloc)?;
    let expr = renumbered(alloc, &equation.expr, numbers)?;
    Ok(Equation { name, expr })
}

// The same equations, where their names have these numbers.
fn equations_over(
    alloc: Global,
    equations: &[Equation],
    numbers: &[u32],
) -> Result<Vec<Equation>, AllocError>
    requires { All (λ e. IsOver (view e.expr) (length numbers.now)) equations.now }
    ensures { IfOk result (λ v. map equation_view v.items ≡ map (λ e. equation_over numbers.now (equation_view e)) equations.now) }
{
    let mut made = Vec::new(alloc);
    for equation in equations {
        made.push(equation_over(alloc, equation, numbers)?)?;
    }
    Ok(made)
}

fn copied_ports(alloc: Global, ports: &[Port]) -> Result<Vec<Port>, AllocError>
    ensures { IfOk result (λ made. made.items ≡ ports.now) }
{
    let mut made = Vec::new(alloc);
    for port in ports {
        let name = port.name.copy(alloc)?;
        made.push(Port {
            name,
            dir: port.dir,
        })?;
    }
    Ok(made)
}

// A machine without registers, with its clock among the inputs.
fn with_read_clock(alloc: Global, m: &Machine, clock: &Name) -> Result<Machine, AllocError>
    requires bare { m.now.registers ≡ [] }
    requires clock { m.now.clock ≡ Some clock.now }
    requires few { length m.now.vars < 2 ^ 32 }
    ensures { IfOk result (λ made. made ≡ with_read_clock m.now clock.now) }
{
    let inputs = names_with(alloc, m, Role::Input)?;
    let equations = m.equations().as_slice();
    let mut vars = Vec::new(alloc);
    push_copies(alloc, &mut vars, &inputs)?;
    push_equated(alloc, &mut vars, equations)?;
    let count = m.vars().as_slice().len() as u32;
    let numbers = numbers_without(alloc, name_place(&inputs, clock), count)?;
    let made = equations_over(alloc, equations, &numbers)?;
    Ok(Machine::new(
        m.name().copy(alloc)?,
        Ports::new(copied_ports(alloc, m.ports().as_slice())?),
        None,
        Names::new(vars),
        Equations::new(made),
        Registers::new(Vec::new(alloc)),
    ))
}

/// The machine with its clock among the inputs, where it has one and no register, so that it loads nothing; `None` where it is compared
/// as it is. Takes memory for the machine that is made.
pub fn as_compared(alloc: Global, m: &Machine) -> Result<Option<Machine>, AllocError>
    requires { length m.now.vars < 2 ^ 32 }
    ensures none { IfOk result (λ o. IfNone o (as_compared m.now ≡ m.now)) }
    ensures some { IfOk result (λ o. IfSome o (λ made. made ≡ as_compared m.now)) }
{
    if !m.registers().as_slice().is_empty() {
        return Ok(None);
    }
    match m.clock() {
        Some(clock) => Ok(Some(with_read_clock(alloc, m, clock)?)),
        None => Ok(None),
    }
}
