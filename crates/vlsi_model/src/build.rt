// The machine of a source, put together from its parts.
ghost use Rattle.std.specs.Prelude.{◌≡◌, ◌<◌, ◌^◌, ◌++◌, map, length, None, IfOk};
ghost use Rattle.std.specs.Option.{option_copied};
ghost use Rattle.std.specs.List.Sorted.{IsPermutation};
ghost use Rattle.machine_core.specs.Checked.{AreInOrder};
ghost use Rattle.machine_core.specs.View.{machine_of};
ghost use Rattle.machine_core.specs.Machine.{names_of};
ghost use Rattle.source_checks.specs.Checks.{first_fault};
ghost use Rattle.source_checks.specs.Elaboration.{port_bits, IsMachineOf};
ghost use Rattle.source_checks.specs.Symbols.{symbols};
ghost use Rattle.vlsi_model.specs.Laid.{IsNodeOrder, Laid, laid_vars};
ghost use Rattle.vlsi_model.specs.Sources.{IsSourceOf};

use crate::equations::{equations, push_names, var_numbers};
use crate::ports::{push_inputs, sorted_ports};
use crate::registers::{name_order, registers};
use crate::source::Source;
use machine_core::{Equation, Equations, Machine, Register, Registers};
use source_bits::{DrivenBit, StoredBit};
use source_checks::DesignFile;
use std::alloc::{AllocError, Global};
use vlsi_base::{Name, Names, Port, Ports};

/// The numbers of driven bits, in their order.
pub fn driven_numbers(alloc: Global, driven: &[DrivenBit]) -> Result<Vec<u32>, AllocError>
    ensures { IfOk result (λ numbers. numbers.items ≡ map (λ d. d.bit) driven.now) }
{
    let mut numbers = Vec::new(alloc);
    for d in driven {
        numbers.push(d.bit)?;
    }
    Ok(numbers)
}

fn stored_numbers(alloc: Global, stored: &[StoredBit]) -> Result<Vec<u32>, AllocError>
    ensures { IfOk result (λ numbers. numbers.items ≡ map (λ s. s.bit) stored.now) }
{
    let mut numbers = Vec::new(alloc);
    for s in stored {
        numbers.push(s.bit)?;
    }
    Ok(numbers)
}

fn copied(alloc: Global, name: Option<&Name>) -> Result<Option<Name>, AllocError>
    ensures { IfOk result (λ made. made ≡ option_copied name.entry) }
{
    match name {
        Some(name) => {
            let name = name.copy(alloc)?;
            Ok(Some(name))
        }
        None => Ok(None),
    }
}

/// The machine of parts that are those of the source.
fn finished(
    alloc: Global,
    design: &DesignFile,
    clock: Option<&Name>,
    ports: Vec<Port>,
    vars: Vec<Name>,
    parts: (Vec<Equation>, Vec<Register>),
) -> Result<Machine, AllocError>
    requires { IsMachineOf design.now (machine_of design.now.entity.name ports.items (option_copied clock) vars.items parts.0.items parts.1.items) }
    ensures { IfOk result (λ m. IsMachineOf design.now m) }
{
    let name = design.entity.name.copy(alloc)?;
    let clock = copied(alloc, clock)?;
    let (equations, registers) = parts;
    Ok(Machine::new(
        name,
        Ports::new(ports),
        clock,
        Names::new(vars),
        Equations::new(equations),
        Registers::new(registers),
    ))
}

/// The machine of a source over these names.
fn over_vars(
    alloc: Global,
    source: &Source,
    design: &DesignFile,
    ports: Vec<Port>,
    order: &[u32],
    nodes: &[u32],
    vars: Vec<Name>,
) -> Result<Machine, AllocError>
    requires source { IsSourceOf design.now source.now }
    requires sound { first_fault design.now ≡ None }
    requires laid { Laid design.now ports.items order.now nodes.now }
    requires vars { vars.items ≡ laid_vars design.now ports.items order.now nodes.now }
    ensures { IfOk result (λ m. IsMachineOf design.now m) }
{
    let table = var_numbers(alloc, &source.numbers, &vars)?;
    let equations = equations(alloc, &source.numbers, &source.driven, nodes, &table)?;
    let registers = registers(alloc, &source.numbers, &source.stored, order, &table)?;
    let clock = source.clock.as_ref();
    finished(alloc, design, clock, ports, vars, (equations, registers))
}

/// The names of the machine: of its inputs but the clock, its registers and its equations.
fn var_names(
    alloc: Global,
    source: &Source,
    design: &DesignFile,
    ports: &[Port],
    order: &[u32],
    nodes: &[u32],
) -> Result<Vec<Name>, AllocError>
    requires source { IsSourceOf design.now source.now }
    requires sound { first_fault design.now ≡ None }
    requires laid { Laid design.now ports.now order.now nodes.now }
    ensures { IfOk result (λ names. names.items ≡ laid_vars design.now ports.now order.now nodes.now) }
{
    let mut names = Vec::new(alloc);
    push_inputs(alloc, source.clock.as_ref(), ports, &mut names)?;
    let bits = stored_numbers(alloc, &source.stored)?;
    push_names(alloc, &source.numbers, &bits, order, &mut names)?;
    let bits = driven_numbers(alloc, &source.driven)?;
    push_names(alloc, &source.numbers, &bits, nodes, &mut names)?;
    Ok(names)
}

/// The places of the registers in the order of names.
fn register_order(
    alloc: Global,
    source: &Source,
    design: &DesignFile,
    ports: &[Port],
    nodes: &[u32],
) -> Result<Vec<u32>, AllocError>
    requires source { IsSourceOf design.now source.now }
    requires sound { first_fault design.now ≡ None }
    requires moved { IsPermutation (port_bits (symbols design.now)) ports.now }
    requires ordered { AreInOrder (names_of ports.now) }
    requires nodes { IsNodeOrder design.now nodes.now }
    ensures { IfOk result (λ order. Laid design.now ports.now order.items nodes.now) }
{
    let bits = stored_numbers(alloc, &source.stored)?;
    let order = name_order(alloc, &source.numbers, &bits)?;
    Ok(order)
}

/// The machine of a source in which no check fails, of its port bits and an order of its definitions.
pub fn build(
    alloc: Global,
    source: &Source,
    design: &DesignFile,
    ports: Vec<Port>,
    nodes: &[u32],
) -> Result<Machine, AllocError>
    requires source { IsSourceOf design.now source.now }
    requires sound { first_fault design.now ≡ None }
    requires ports { ports.items ≡ port_bits (symbols design.now) }
    requires nodes { IsNodeOrder design.now nodes.now }
    ensures { IfOk result (λ m. IsMachineOf design.now m) }
{
    let ports = sorted_ports(ports)?;
    let order = register_order(alloc, source, design, &ports, nodes)?;
    let vars = var_names(alloc, source, design, &ports, &order, nodes)?;
    over_vars(alloc, source, design, ports, &order, nodes, vars)
}
