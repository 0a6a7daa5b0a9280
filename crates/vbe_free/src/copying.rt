// A machine with other equations.
ghost use Rattle.std.specs.Prelude.{◌≡◌, map, IfOk};
ghost use Rattle.std.specs.Option.{option_copied};
ghost use Rattle.machine_core.specs.View.{equation_view, register_view};
ghost use Rattle.source_checks.specs.Elaboration.{IsMachineOf};
ghost use Rattle.machine_free.specs.Free.{AreFree};
ghost use Rattle.vbe_free.specs.Second.{IsFirstOf, AreOnes};

use bool_expr::copy;
use machine_core::{Equation, Equations, Machine, Register, Registers};
use source_checks::DesignFile;
use std::alloc::{AllocError, Global};
use vlsi_base::{Name, Names, Port, Ports};

fn copied_ports(alloc: Global, ports: &[Port]) -> Result<Vec<Port>, AllocError>
    ensures { IfOk result (λ made. made.items ≡ ports.now) }
{
    let mut made = Vec::new(alloc);
    for port in ports {
        let name = port.name.copy(alloc)?;
        made.push(Port {
            name,
            dir: port.dir,
        })?;
    }
    Ok(made)
}

fn copied_names(alloc: Global, names: &[Name]) -> Result<Vec<Name>, AllocError>
    ensures { IfOk result (λ made. made.items ≡ names.now) }
{
    let mut made = Vec::new(alloc);
    for name in names {
        made.push(name.copy(alloc)?)?;
    }
    Ok(made)
}

fn copied_register(alloc: Global, register: &Register) -> Result<Register, AllocError>
    ensures { IfOk result (λ made. register_view made ≡ register_view register.now) }
{
    let name = register.name.copy(alloc)?;
    let next = copy(alloc, &register.next)?;
    let enable = copy(alloc, &register.enable)?;
    Ok(Register { name, next, enable })
}

fn copied_registers(alloc: Global, registers: &[Register]) -> Result<Vec<Register>, AllocError>
    ensures { IfOk result (λ made. map register_view made.items ≡ map register_view registers.now) }
{
    let mut made = Vec::new(alloc);
    for register in registers {
        made.push(copied_register(alloc, register)?)?;
    }
    Ok(made)
}

fn copied(alloc: Global, name: Option<&Name>) -> Result<Option<Name>, AllocError>
    ensures { IfOk result (λ made. made ≡ option_copied name.entry) }
{
    match name {
        Some(name) => {
            let name = name.copy(alloc)?;
            Ok(Some(name))
        }
        None => Ok(None),
    }
}

/// The machine of a text with each free bit 0, with the equations of that with each 1 in place of its own.
pub fn with_equations(
    alloc: Global,
    low: &Machine,
    design: &DesignFile,
    equations: Vec<Equation>,
) -> Result<Machine, AllocError>
    requires first { IsFirstOf low.now design.now }
    requires ones { AreOnes low.now design.now (map equation_view equations.items) }
    ensures machine { IfOk result (λ high. IsMachineOf design.now high) }
    ensures free { IfOk result (λ high. AreFree low.now high) }
{
    let _ = design;
    let name = low.name().copy(alloc)?;
    let ports = copied_ports(alloc, low.ports().as_slice())?;
    let clock = copied(alloc, low.clock())?;
    let vars = copied_names(alloc, low.vars().as_slice())?;
    let registers = copied_registers(alloc, low.registers().as_slice())?;
    Ok(Machine::new(
        name,
        Ports::new(ports),
        clock,
        Names::new(vars),
        Equations::new(equations),
        Registers::new(registers),
    ))
}
