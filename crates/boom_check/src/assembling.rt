// The machine that a proposal makes of a given one.
ghost use Rattle.std.specs.Prelude.{◌≡◌, ◌++◌, ◌+◌, ◌-◌, ◌≤◌, ◌<◌, ◌^◌, map, length, IfOk, IfSome, OnOk};
ghost use Rattle.std.specs.List.{All, AllZip};
ghost use Rattle.bool_expr.specs.Expression.{IsOver};
ghost use Rattle.bool_expr.specs.View.{view};
ghost use Rattle.machine_core.specs.Checked.{IsChecked};
ghost use Rattle.machine_core.specs.Size.{machine_size as size_of_machine};
ghost use Rattle.machine_core.specs.View.{equation_view, register_view};
ghost use Rattle.boom_muxes.specs.Names.{new_names};
ghost use Rattle.boom_check.specs.Assembling.{IsSaid, IsSaidEquation, IsSaidRegister, ArePartsOf, IsAssembled};

use crate::proposal::Proposal;
use crate::reading::{loads_below, reads_below};
use bool_expr::{Expr, copy, renumbered, size};
use boom_muxes::{all_names, bit_name, copied, copied_ports, new_text, numbers};
use machine_core::{Equation, Equations, Machine, Register, Registers, machine_size};
use std::alloc::{AllocError, Global};
use vlsi_base::{Name, Names, Ports, Text};

/// What is put together: names, equations and registers. The new names have this text.
#[derive(Drop)]
struct Parts {
    text: Text,
    vars: Vec<Name>,
    equations: Vec<Equation>,
    registers: Vec<Register>,
}

fn proposed_at(proposed: &[Option<Expr>], k: usize) -> Option<&Expr> {
    proposed.get(k)?.as_ref()
}

// What is proposed, where that is smaller than what was given; and else what was given, over the numbers that the names have now.
fn said(
    alloc: Global,
    given: &Expr,
    proposed: Option<&Expr>,
    numbers: &[u32],
) -> Result<Expr, AllocError>
    requires { IsOver (view given.now) (length numbers.now) }
    ensures { IfOk result (λ made. IsSaid numbers.now (view given.now) (view made)) }
{
    if let Some(proposed) = proposed {
        if size(proposed) < size(given) {
            return copy(alloc, proposed);
        }
    }
    renumbered(alloc, given, numbers)
}

// The equations of new inner signals.
fn inner_equations(alloc: Global, text: &Text, inner: &[Expr]) -> Result<Vec<Equation>, AllocError>
    requires { length inner.now < 2 ^ 32 }
    ensures { IfOk result (λ v. map (λ e. e.name) v.items ≡ new_names text.now (length inner.now)) }
{
    let mut made = Vec::new(alloc);
    for (k, expr) in inner.iter().enumerate() {
        let name = bit_name(alloc, text, k as u32)?;
        let expr = copy(alloc, expr)?;
        made.push(Equation { name, expr })?;
    }
    Ok(made)
}

// What the given equations say now.
fn said_equations(
    alloc: Global,
    given: &[Equation],
    proposed: &[Option<Expr>],
    numbers: &[u32],
) -> Result<Vec<Equation>, AllocError>
    requires { All (λ e. IsOver (view e.expr) (length numbers.now)) given.now }
    ensures { IfOk result (λ v. AllZip (IsSaidEquation numbers.now) (map equation_view given.now) (map equation_view v.items)) }
{
    let mut made = Vec::new(alloc);
    for (k, equation) in given.iter().enumerate() {
        let name = equation.name.copy(alloc)?;
        let expr = said(alloc, &equation.expr, proposed_at(proposed, k), numbers)?;
        made.push(Equation { name, expr })?;
    }
    Ok(made)
}

// What the registers load now.
fn said_registers(
    alloc: Global,
    given: &[Register],
    proposed: &[Option<Expr>],
    numbers: &[u32],
) -> Result<Vec<Register>, AllocError>
    requires next { All (λ r. IsOver (view r.next) (length numbers.now)) given.now }
    requires enable { All (λ r. IsOver (view r.enable) (length numbers.now)) given.now }
    ensures { IfOk result (λ v. AllZip (IsSaidRegister numbers.now) (map register_view given.now) (map register_view v.items)) }
{
    let mut made = Vec::new(alloc);
    for (k, register) in given.iter().enumerate() {
        let at = k.saturating_mul(2);
        let name = register.name.copy(alloc)?;
        let next = said(alloc, &register.next, proposed_at(proposed, at), numbers)?;
        let enable_at = at.saturating_add(1);
        let enable = said(
            alloc,
            &register.enable,
            proposed_at(proposed, enable_at),
            numbers,
        )?;
        made.push(Register { name, next, enable })?;
    }
    Ok(made)
}

// Puts equations behind those that are there.
fn put_behind(out: &mut Vec<Equation>, more: Vec<Equation>) -> Result<(), AllocError>
    ensures { OnOk result (out.new.items ≡ out.old.items ++ more.items) }
{
    for equation in more {
        out.push(equation)?;
    }
    Ok(())
}

// The parts of the machine, with no more new names than the given machine weighs.
fn put_together(alloc: Global, m: &Machine, proposal: &Proposal) -> Result<Parts, AllocError>
    requires checked { IsChecked m.now }
    requires few { length m.now.vars + length m.now.ports + size_of_machine m.now < 2 ^ 32 - 1 }
    requires inner { length proposal.now.inner.items ≤ size_of_machine m.now }
    ensures { IfOk result (λ p. ArePartsOf m.now p) }
{
    let given = m.vars().as_slice();
    let equations = m.equations().as_slice();
    let held = given.len() - equations.len();
    let count = proposal.inner.len() as u32;
    let text = new_text(alloc, m.ports().as_slice(), given)?;
    let numbers = numbers(alloc, held as u32, count, given.len() as u32)?;
    let vars = all_names(alloc, given, held, &text, count)?;
    let mut made = inner_equations(alloc, &text, &proposal.inner)?;
    let kept = said_equations(alloc, equations, &proposal.equations, &numbers)?;
    put_behind(&mut made, kept)?;
    let registers = said_registers(alloc, m.registers().as_slice(), &proposal.loads, &numbers)?;
    Ok(Parts {
        text,
        vars,
        equations: made,
        registers,
    })
}

// The machine of these parts, where each equation reads only what stands before it.
fn checked_machine(alloc: Global, m: &Machine, parts: Parts) -> Result<Option<Machine>, AllocError>
    requires checked { IsChecked m.now }
    requires few { length m.now.vars + length m.now.ports + size_of_machine m.now < 2 ^ 32 - 1 }
    requires parts { ArePartsOf m.now parts }
    ensures { IfOk result (λ o. IfSome o (λ made. IsAssembled m.now made)) }
{
    let held = m.vars().as_slice().len() - m.equations().as_slice().len();
    let total = parts.vars.len() as u32;
    if !reads_below(&parts.equations, held as u32) || !loads_below(&parts.registers, total) {
        return Ok(None);
    }
    Ok(Some(Machine::new(
        m.name().copy(alloc)?,
        Ports::new(copied_ports(alloc, m.ports().as_slice())?),
        copied(alloc, m.clock())?,
        Names::new(parts.vars),
        Equations::new(parts.equations),
        Registers::new(parts.registers),
    )))
}

/// The machine that a proposal makes of a given one: new inner signals, and behind them the given equations and registers, each of which
/// says what is proposed where that is smaller, and else what it said. `None` where more inner signals are proposed than the machine
/// weighs, or one reads what doesn't stand before it. Takes memory for it. Whether it does the same isn't known.
pub fn assembled(
    alloc: Global,
    m: &Machine,
    proposal: &Proposal,
) -> Result<Option<Machine>, AllocError>
    requires { length m.now.vars + length m.now.ports + size_of_machine m.now < 2 ^ 32 - 1 }
    ensures { IfOk result (λ o. IfSome o (λ made. IsAssembled m.now made)) }
{
    // A machine is checked.
    let _ = m.name();
    if proposal.inner.len() as u64 > machine_size(m) {
        return Ok(None);
    }
    let parts = put_together(alloc, m, proposal)?;
    checked_machine(alloc, m, parts)
}
