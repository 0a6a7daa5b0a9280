// The optimised machine as a value.
ghost use Rattle.std.specs.Prelude.{◌≡◌, if◌then◌else◌, nat_lt, ◌++◌, ◌+◌, ◌-◌, ◌*◌, ◌≤◌, ◌<◌, ◌^◌, map, length, take, drop, Some, IfSome, IfOk, OnOk};
ghost use Rattle.std.specs.List.{All};
ghost use Rattle.std.specs.Option.{option_copied};
ghost use Rattle.bool_expr.specs.Expression.{IsOver};
ghost use Rattle.bool_expr.specs.View.{view};
ghost use Rattle.machine_core.specs.View.{equation_view, register_view};
ghost use Rattle.boom_muxes.specs.Names.{new_names};
ghost use Rattle.boom_literal.specs.Literals.{said};
ghost use Rattle.boom_muxes.specs.Building.{literal_for, load_for, equations_said, registers_said, numbers_behind, mux_equations, IsBuilt, MayBeBuilt};

use crate::mux::Mux;
use crate::names::new_text;
use crate::plan::Plan;
use boom_literal::{Literal, said};
use machine_core::{Equation, Equations, Machine, Register, Registers};
use std::alloc::{AllocError, Global};
use vlsi_base::{Name, Names, Port, Ports, Text};

// The number of a name, where so many new ones stand behind the first ones, which are held.
fn number_behind(held: u32, count: u32, k: u32) -> u32
    requires { k + count < 2 ^ 32 }
    ensures { result ≡ (if nat_lt k held then k else k + count) }
{
    if k < held { k } else { k + count }
}

/// The numbers that names have, where so many new ones stand behind the first ones, which are held. Takes memory for them.
pub fn numbers(alloc: Global, held: u32, count: u32, total: u32) -> Result<Vec<u32>, AllocError>
    requires held { held ≤ total }
    requires few { total + count < 2 ^ 32 }
    ensures { IfOk result (λ v. v.items ≡ numbers_behind held count total) }
{
    let mut numbers = Vec::new(alloc);
    for k in 0..total {
        numbers.push(number_behind(held, count, k))?;
    }
    Ok(numbers)
}

/// Bit k of a name. Takes memory for its text.
pub fn bit_name(alloc: Global, text: &Text, k: u32) -> Result<Name, AllocError>
    ensures { IfOk result (λ name. name ≡ record { text = text.now; bit = Some k }) }
{
    Ok(Name {
        text: text.copy(alloc)?,
        bit: Some(k),
    })
}

/// Puts copies of names behind those that are there.
fn push_names(alloc: Global, out: &mut Vec<Name>, names: &[Name]) -> Result<(), AllocError>
    ensures { OnOk result (out.new.items ≡ out.old.items ++ names.now) }
{
    for name in names {
        out.push(name.copy(alloc)?)?;
    }
    Ok(())
}

/// All names: of inputs and registers, so many bits of a new name, and of the equations. Takes memory for them.
pub fn all_names(
    alloc: Global,
    given: &[Name],
    held: usize,
    text: &Text,
    count: u32,
) -> Result<Vec<Name>, AllocError>
    requires { held ≤ length given.now }
    ensures { IfOk result (λ v. v.items ≡ take held given.now ++ (new_names text.now count ++ drop held given.now)) }
{
    let mut names = Vec::new(alloc);
    push_names(alloc, &mut names, &given[..held])?;
    for k in 0..count {
        names.push(bit_name(alloc, text, k)?)?;
    }
    push_names(alloc, &mut names, &given[held..])?;
    Ok(names)
}

/// Puts the equations of choices behind those that are there.
fn push_muxes(
    alloc: Global,
    out: &mut Vec<Equation>,
    text: &Text,
    muxes: &[Mux],
) -> Result<(), AllocError>
    requires { length muxes.now < 2 ^ 32 }
    ensures { OnOk result (map equation_view out.new.items ≡ map equation_view out.old.items ++ mux_equations text.now 0 muxes.now) }
{
    for (k, mux) in muxes.iter().enumerate() {
        let name = bit_name(alloc, text, k as u32)?;
        let expr = mux.expr(alloc)?;
        out.push(Equation { name, expr })?;
    }
    Ok(())
}

/// The literal of an equation, where the machine is made anew: 0 for one that nothing reads any more.
fn literal_at(plan: Option<&Plan>, k: usize) -> Option<Literal>
    requires { IfSome (option_copied plan) (λ p. k < length p.equations.items) }
    ensures { result ≡ literal_for (option_copied plan.entry) k }
{
    match plan {
        None => None,
        Some(plan) => match plan.equations[k] {
            None => Some(Literal::Constant(false)),
            found => found,
        },
    }
}

/// The literal of what a register loads, where the machine is made anew.
fn load_at(plan: Option<&Plan>, k: usize) -> Option<Literal>
    requires { IfSome (option_copied plan) (λ p. k < length p.loads.items) }
    ensures { result ≡ load_for (option_copied plan.entry) k }
{
    match plan {
        None => None,
        Some(plan) => Some(plan.loads[k]),
    }
}

/// Puts what the equations say now behind those that are there.
fn push_equations(
    alloc: Global,
    out: &mut Vec<Equation>,
    equations: &[Equation],
    plan: Option<&Plan>,
    numbers: &[u32],
) -> Result<(), AllocError>
    requires over { All (λ e. IsOver (view e.expr) (length numbers.now)) equations.now }
    requires plan { IfSome (option_copied plan) (λ p. length p.equations.items ≡ length equations.now) }
    ensures { OnOk result (map equation_view out.new.items
        ≡ map equation_view out.old.items ++ equations_said numbers.now (option_copied plan.entry) 0 (map equation_view equations.now)) }
{
    for (k, equation) in equations.iter().enumerate() {
        let name = equation.name.copy(alloc)?;
        let expr = said(alloc, &equation.expr, literal_at(plan, k), numbers)?;
        out.push(Equation { name, expr })?;
    }
    Ok(())
}

/// What the registers load now.
fn registers(
    alloc: Global,
    given: &[Register],
    plan: Option<&Plan>,
    numbers: &[u32],
) -> Result<Vec<Register>, AllocError>
    requires next { All (λ r. IsOver (view r.next) (length numbers.now)) given.now }
    requires enable { All (λ r. IsOver (view r.enable) (length numbers.now)) given.now }
    requires plan { IfSome (option_copied plan) (λ p. length p.loads.items ≡ 2 * length given.now) }
    ensures { IfOk result (λ v. map register_view v.items ≡ registers_said numbers.now (option_copied plan.entry) 0 (map register_view given.now)) }
{
    let mut registers = Vec::new(alloc);
    for (k, register) in given.iter().enumerate() {
        let name = register.name.copy(alloc)?;
        let next = said(alloc, &register.next, load_at(plan, 2 * k), numbers)?;
        let enable = said(alloc, &register.enable, load_at(plan, 2 * k + 1), numbers)?;
        registers.push(Register { name, next, enable })?;
    }
    Ok(registers)
}

/// A copy of a clock's name, where there is one. Takes memory for it.
pub fn copied(alloc: Global, name: Option<&Name>) -> Result<Option<Name>, AllocError>
    ensures { IfOk result (λ made. made ≡ option_copied name.entry) }
{
    match name {
        Some(name) => {
            let name = name.copy(alloc)?;
            Ok(Some(name))
        }
        None => Ok(None),
    }
}

/// Copies of ports. Takes memory for them.
pub fn copied_ports(alloc: Global, ports: &[Port]) -> Result<Vec<Port>, AllocError>
    ensures { IfOk result (λ made. made.items ≡ ports.now) }
{
    let mut made = Vec::new(alloc);
    for port in ports {
        let name = port.name.copy(alloc)?;
        made.push(Port {
            name,
            dir: port.dir,
        })?;
    }
    Ok(made)
}

/// The machine with these choices in front of its equations, and with what the plan says of each; without a plan all is kept.
pub fn build(
    alloc: Global,
    m: &Machine,
    muxes: &[Mux],
    plan: Option<&Plan>,
) -> Result<Machine, AllocError>
    requires parts { MayBeBuilt m.now muxes.now (option_copied plan) }
    requires few { length m.now.vars + length m.now.ports + length muxes.now < 2 ^ 32 - 1 }
    ensures { IfOk result (λ o. IsBuilt m.now muxes.now (option_copied plan.entry) o) }
{
    let given = m.vars().as_slice();
    let equations = m.equations().as_slice();
    let held = given.len() - equations.len();
    let count = muxes.len() as u32;
    let text = new_text(alloc, m.ports().as_slice(), given)?;
    let numbers = numbers(alloc, held as u32, count, given.len() as u32)?;
    let vars = all_names(alloc, given, held, &text, count)?;
    let mut made = Vec::new(alloc);
    push_muxes(alloc, &mut made, &text, muxes)?;
    push_equations(alloc, &mut made, equations, plan, &numbers)?;
    let registers = registers(alloc, m.registers().as_slice(), plan, &numbers)?;
    Ok(Machine::new(
        m.name().copy(alloc)?,
        Ports::new(copied_ports(alloc, m.ports().as_slice())?),
        copied(alloc, m.clock())?,
        Names::new(vars),
        Equations::new(made),
        Registers::new(registers),
    ))
}
