// What the ports of a netlist show.
ghost use Rattle.std.specs.Prelude.{◌≡◌, ◌≤◌, ◌+◌, ◌<◌, ◌^◌, length, filter, not, IfOk};
ghost use Rattle.std.specs.Option.{option_copied};
ghost use Rattle.machine_core.specs.Machine.{is_input, is_clock};
ghost use Rattle.boog_map.specs.Draft.{port_use, use_signal, inputs_after, outputs_after, HasOutput, tied_ports};

use crate::part::{is_named, is_same};
use crate::place::Signal;
use std::alloc::{AllocError, Global};
use vlsi_base::{Dir, Name, Port};

/// A port, and the signal that it shows.
#[derive(Drop)]
pub(crate) struct TiedPort {
    pub(crate) name: Name,
    pub(crate) signal: Signal,
}

/// What a port is for.
#[derive(Clone, Copy)]
pub(crate) enum PortUse {
    High,
    Low,
    Output,
    Clock,
    Input,
}

fn is_clock(clock: Option<&Name>, name: &Name) -> bool
    ensures { result ≡ is_clock (option_copied clock.entry) name.now }
{
    match clock {
        Some(clock) => is_same(clock, name),
        None => false,
    }
}

fn port_use(clock: Option<&Name>, port: &Port) -> PortUse
    ensures { result ≡ port_use (option_copied clock.entry) port.now }
{
    if is_named(&port.name, b"vdd") {
        return PortUse::High;
    }
    if is_named(&port.name, b"vss") {
        return PortUse::Low;
    }
    if port.dir == Dir::Out {
        return PortUse::Output;
    }
    if is_clock(clock, &port.name) {
        return PortUse::Clock;
    }
    PortUse::Input
}

/// How many inputs and outputs came so far.
#[derive(Drop)]
pub(crate) struct Counts {
    inputs: u32,
    outputs: usize,
}

impl Counts {
    /// The signal of the next port, which is counted.
    fn signal(&mut self, outputs: &[u32], port: PortUse) -> Signal
        requires few { self.old.inputs + 1 < 2 ^ 32 }
        requires output { HasOutput outputs.now self.old.outputs port }
        ensures signal { result ≡ use_signal outputs.now self.old.inputs self.old.outputs port }
        ensures inputs { self.new.inputs ≡ inputs_after self.old.inputs port }
        ensures outputs { self.new.outputs ≡ outputs_after self.old.outputs port }
    {
        match port {
            PortUse::High => Signal::High,
            PortUse::Low => Signal::Low,
            PortUse::Clock => Signal::Clock,
            PortUse::Output => {
                let number = outputs[self.outputs];
                self.outputs += 1;
                Signal::Node(number)
            }
            PortUse::Input => {
                let number = self.inputs;
                self.inputs += 1;
                Signal::Node(number)
            }
        }
    }
}

/// The ports with their signals, in their order: the supplies, the clock, input k node k, and output k node `outputs[k]`. Takes
/// memory for their names.
pub(crate) fn tied_ports(
    alloc: Global,
    clock: Option<&Name>,
    outputs: &[u32],
    ports: &[Port],
) -> Result<Vec<TiedPort>, AllocError>
    requires few { length ports.now < 2 ^ 32 }
    requires outputs { length (filter (λ p. not (is_input p.dir)) ports.now) ≤ length outputs.now }
    ensures { IfOk result (λ v. v.items ≡ tied_ports (option_copied clock.entry) outputs.now 0 0 ports.now) }
{
    let mut tied = Vec::new(alloc);
    let mut counts = Counts {
        inputs: 0,
        outputs: 0,
    };
    for port in ports {
        let name = port.name.copy(alloc)?;
        let signal = counts.signal(outputs, port_use(clock, port));
        tied.push(TiedPort { name, signal })?;
    }
    Ok(tied)
}
