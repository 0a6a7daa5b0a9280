// The machine that is chosen, put together.
ghost use Rattle.std.specs.Prelude.{◌≡◌, ◌<◌, ◌^◌, map, length, IfOk};
ghost use Rattle.std.specs.List.{All};
ghost use Rattle.std.specs.Option.{option_copied};
ghost use Rattle.machine_core.specs.Machine.{outputs};
ghost use Rattle.machine_core.specs.View.{equation_view, register_view};
ghost use Rattle.machine_free.specs.Free.{AreFree};
ghost use Rattle.boom_choose.specs.Choice.{AreChosen, IsChosen, IsOverBoth};

use crate::choosing::chosen;
use bool_expr::copy;
use machine_core::{Equation, Equations, Machine, Register, Registers};
use machine_free::FreeMachine;
use std::alloc::{AllocError, Global};
use vlsi_base::{Name, Names, Port, Ports};

/// What is said of all names, in the order of the equations.
pub fn chosen_equations(
    alloc: Global,
    m: &FreeMachine,
    budget: u32,
) -> Result<Vec<Equation>, AllocError>
    requires few { length m.now.low.vars < 2 ^ 32 }
    requires free { AreFree m.now.low m.now.high }
    requires within { All (λ n. IsOverBoth m.now.low m.now.high budget n → ⊥) (outputs m.now.low) }
    ensures { IfOk result (λ v. AreChosen m.now.low m.now.low.equations m.now.high.equations (map equation_view v.items)) }
{
    let low = &m.low;
    let equations = low.equations().as_slice();
    let others = m.high.equations().as_slice();
    let mut made = Vec::new(alloc);
    for k in 0..equations.len() {
        let equation = &equations[k];
        let name = equation.name.copy(alloc)?;
        let expr = chosen(alloc, low, equation, &others[k], budget)?;
        made.push(Equation { name, expr })?;
    }
    Ok(made)
}

fn copied_ports(alloc: Global, ports: &[Port]) -> Result<Vec<Port>, AllocError>
    ensures { IfOk result (λ made. made.items ≡ ports.now) }
{
    let mut made = Vec::new(alloc);
    for port in ports {
        let name = port.name.copy(alloc)?;
        made.push(Port {
            name,
            dir: port.dir,
        })?;
    }
    Ok(made)
}

fn copied_names(alloc: Global, names: &[Name]) -> Result<Vec<Name>, AllocError>
    ensures { IfOk result (λ made. made.items ≡ names.now) }
{
    let mut made = Vec::new(alloc);
    for name in names {
        made.push(name.copy(alloc)?)?;
    }
    Ok(made)
}

fn copied_register(alloc: Global, register: &Register) -> Result<Register, AllocError>
    ensures { IfOk result (λ made. register_view made ≡ register_view register.now) }
{
    let name = register.name.copy(alloc)?;
    let next = copy(alloc, &register.next)?;
    let enable = copy(alloc, &register.enable)?;
    Ok(Register { name, next, enable })
}

fn copied_registers(alloc: Global, registers: &[Register]) -> Result<Vec<Register>, AllocError>
    ensures { IfOk result (λ made. map register_view made.items ≡ map register_view registers.now) }
{
    let mut made = Vec::new(alloc);
    for register in registers {
        made.push(copied_register(alloc, register)?)?;
    }
    Ok(made)
}

fn copied(alloc: Global, name: Option<&Name>) -> Result<Option<Name>, AllocError>
    ensures { IfOk result (λ made. made ≡ option_copied name.entry) }
{
    match name {
        Some(name) => {
            let name = name.copy(alloc)?;
            Ok(Some(name))
        }
        None => Ok(None),
    }
}

/// The machine with each free bit 0, with these equations in place of its own.
pub fn with_equations(
    alloc: Global,
    m: &FreeMachine,
    equations: Vec<Equation>,
) -> Result<Machine, AllocError>
    requires free { AreFree m.now.low m.now.high }
    requires chosen { AreChosen m.now.low m.now.low.equations m.now.high.equations (map equation_view equations.items) }
    ensures { IfOk result (λ made. IsChosen m.now.low m.now.high made) }
{
    // Machines are checked.
    let _ = m.high.equations();
    let low = &m.low;
    let name = low.name().copy(alloc)?;
    let ports = copied_ports(alloc, low.ports().as_slice())?;
    let clock = copied(alloc, low.clock())?;
    let vars = copied_names(alloc, low.vars().as_slice())?;
    let registers = copied_registers(alloc, low.registers().as_slice())?;
    Ok(Machine::new(
        name,
        Ports::new(ports),
        clock,
        Names::new(vars),
        Equations::new(equations),
        Registers::new(registers),
    ))
}
