// The terminals that give each class its bit.
ghost use Rattle.std.specs.Prelude.{◌≡◌, ◌∷◌, ◌++◌, map, IfOk, OnOk, unwrap_or};
ghost use Rattle.std.specs.Option.{option_copied};
ghost use Rattle.net_core.specs.Netlist.{port};
ghost use Rattle.vlsi_base.specs.Names.{vss};
ghost use Rattle.boog_map.specs.Draft.{driver, IsNumbered, AreDrivers};

use crate::place::{Signal, scalar_port};
use std::alloc::{AllocError, Global};
use vlsi_base::{Name, Terminal};

/// The terminals that give each class its bit: the ports vdd and vss, that of the clock, and for each node its port or pin.
#[derive(Drop)]
pub(crate) struct Drivers {
    pub(crate) high: Terminal,
    pub(crate) low: Terminal,
    pub(crate) clock: Terminal,
    pub(crate) nodes: Vec<Terminal>,
}

impl Drivers {
    /// The terminal that drives a signal. Takes no memory.
    pub(crate) fn of(&self, signal: Signal) -> &Terminal
        requires { IsNumbered self.now signal }
        ensures { result.now ≡ driver self.now signal }
    {
        match signal {
            Signal::High => &self.high,
            Signal::Low => &self.low,
            Signal::Clock => &self.clock,
            Signal::Node(number) => &self.nodes[number as usize],
        }
    }
}

/// The port of the clock; of a machine without one, which has no class for it, that of vss.
fn clock_port(alloc: Global, clock: Option<&Name>) -> Result<Terminal, AllocError>
    ensures { IfOk result (λ t. t ≡ port (unwrap_or (option_copied clock.entry) vss)) }
{
    match clock {
        Some(name) => Ok(Terminal {
            instance: None,
            pin: name.copy(alloc)?,
        }),
        None => scalar_port(alloc, b"vss"),
    }
}

/// Takes the drivers of nodes.
pub(crate) fn make_drivers(
    alloc: Global,
    clock: Option<&Name>,
    nodes: Vec<Terminal>,
) -> Result<Drivers, AllocError>
    ensures { IfOk result (λ d. AreDrivers (option_copied clock.entry) nodes.items d) }
{
    Ok(Drivers {
        high: scalar_port(alloc, b"vdd")?,
        low: scalar_port(alloc, b"vss")?,
        clock: clock_port(alloc, clock)?,
        nodes,
    })
}

/// The ports of inputs.
pub(crate) fn input_ports(alloc: Global, names: &[Name]) -> Result<Vec<Terminal>, AllocError>
    ensures { IfOk result (λ v. v.items ≡ map port names.now) }
{
    let mut ports = Vec::new(alloc);
    for name in names {
        ports.push(Terminal {
            instance: None,
            pin: name.copy(alloc)?,
        })?;
    }
    Ok(ports)
}
