// The machine that a source is, or why it is none.
ghost use Rattle.std.specs.Prelude.{◌≡◌, ◌<◌, ◌^◌, length, None, Some, IfOk, IfErr};
ghost use Rattle.source_checks.specs.Checks.{first_fault, HasNoRing, Passes, IsRefused, ports_error};
ghost use Rattle.source_checks.specs.Elaboration.{port_bits, IsMachineOf};
ghost use Rattle.source_checks.specs.Operators.{HasShortExpressions};
ghost use Rattle.source_checks.specs.Symbols.{symbols, all_names};
ghost use Rattle.vlsi_model.specs.Laid.{IsNodeOrder};
ghost use Rattle.vlsi_model.specs.Ordered.{IsOrderOfSource};
ghost use Rattle.vlsi_model.specs.Sources.{IsSourceOf};

use crate::build::build;
use crate::cycle::cycle;
use crate::nodes::node_order;
use crate::ports::ports_in_file_order;
use crate::refusals::refusal;
use crate::source::{Source, elaborated};
use bit_order::Order;
use machine_core::Machine;
use source_checks::{DesignFile, SymbolTable};
use std::alloc::{AllocError, Global};
use vlsi_base::{Limit, LimitKind, Port, ReadError};

/// The most port bits that a source may have.
const MOST_PORTS: usize = 4096;

/// An order of the definitions in which each reads only what is known before it, or a ring of them.
fn definition_order(
    alloc: Global,
    source: &Source,
    design: &DesignFile,
) -> Result<Order, AllocError>
    requires source { IsSourceOf design.now source.now }
    requires sound { first_fault design.now ≡ None }
    ensures { IfOk result (λ o. IsOrderOfSource design.now o) }
{
    let order = node_order(alloc, source.numbers.total(), &source.driven)?;
    Ok(order)
}

fn too_many_ports(ports: &[Port], design: &DesignFile) -> ReadError
    requires { ports.now ≡ port_bits (symbols design.now) }
    ensures { result ≡ ports_error design.now }
{
    ReadError::Limit(Limit {
        which: LimitKind::Ports,
        reached: ports.len() as u64,
    })
}

/// The machine of a source in which nothing is at fault and nothing reads itself in a ring, unless it has too many port bits.
fn few_ports(
    alloc: Global,
    source: &Source,
    design: &DesignFile,
    nodes: &[u32],
) -> Result<Machine, ReadError>
    requires source { IsSourceOf design.now source.now }
    requires sound { first_fault design.now ≡ None }
    requires nodes { IsNodeOrder design.now nodes.now }
    requires no_ring { HasNoRing design.now }
    ensures machine { IfOk result (λ m. Passes design.now × IsMachineOf design.now m) }
    ensures refused { IfErr result (λ e. IsRefused design.now e) }
{
    let ports = ports_in_file_order(alloc, &source.numbers)?;
    if ports.len() > MOST_PORTS {
        return Err(too_many_ports(&ports, design));
    }
    let machine = build(alloc, source, design, ports, nodes)?;
    Ok(machine)
}

fn without_ring(
    alloc: Global,
    source: &Source,
    design: &DesignFile,
    order: Order,
) -> Result<Machine, ReadError>
    requires source { IsSourceOf design.now source.now }
    requires sound { first_fault design.now ≡ None }
    requires order { IsOrderOfSource design.now order }
    ensures machine { IfOk result (λ m. Passes design.now × IsMachineOf design.now m) }
    ensures refused { IfErr result (λ e. IsRefused design.now e) }
{
    match order {
        Order::Sorted(nodes) => few_ports(alloc, source, design, &nodes),
        Order::Ring(nodes) => {
            let e = cycle(alloc, source, design, &nodes)?;
            Err(e)
        }
    }
}

/// The machine of a source in which no check before that for rings fails.
fn sound_machine(
    alloc: Global,
    table: SymbolTable,
    design: &DesignFile,
) -> Result<Machine, ReadError>
    requires known { table ≡ symbols design.now }
    requires few { length (all_names (symbols design.now)) < 2 ^ 32 }
    requires sound { first_fault design.now ≡ None }
    ensures machine { IfOk result (λ m. Passes design.now × IsMachineOf design.now m) }
    ensures refused { IfErr result (λ e. IsRefused design.now e) }
{
    let source = elaborated(alloc, table, design)?;
    let order = definition_order(alloc, &source, design)?;
    without_ring(alloc, &source, design, order)
}

/// The machine that a source is, or why it is none: the first check that fails, in this order: a name that is declared
/// twice, an unknown name, a width, two drivers of a bit, none, a form that is left out, a guard or the clock, signals that
/// read each other in a ring, more than 4096 port bits. Takes memory for each declared bit and for each formula.
pub fn check_machine(alloc: Global, design: DesignFile) -> Result<Machine, ReadError>
    requires few { length (all_names (symbols design)) < 2 ^ 32 }
    requires short { HasShortExpressions design }
    ensures machine { IfOk result (λ m. Passes design × IsMachineOf design m) }
    ensures refused { IfErr result (λ e. IsRefused design e) }
{
    let table = SymbolTable::new(alloc, &design)?;
    let refused = refusal(alloc, &table, &design)?;
    match refused {
        Some(e) => Err(e),
        None => sound_machine(alloc, table, &design),
    }
}
