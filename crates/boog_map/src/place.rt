// The instances of a netlist, before it is built.
ghost use Rattle.std.specs.Prelude.{◌≡◌, ◌++◌, ◌∷◌, [], ◌+◌, ◌<◌, ◌^◌, map, length, IfOk, OnOk};
ghost use Rattle.std.specs.Fmt.{decimal};
ghost use Rattle.vlsi_base.specs.Names.{scalar};
ghost use Rattle.net_core.specs.Netlist.{port};
ghost use Rattle.boog_map.specs.Draft.{output_terminal, node_signals, register_reads, register_spot, register_spots, gate_spot, gate_spots, gate_drivers};

use crate::choice::{Parts, Role};
use cell_match::Gate;
use std::alloc::{AllocError, Global};
use vlsi_base::{Listed, Name, Terminal, Text, push_u64};

/// What gives a class its bit: a supply, the clock, or a node.
#[derive(Clone, Copy)]
pub(crate) enum Signal {
    High,
    Low,
    Clock,
    Node(u32),
}

/// An instance: its name, which cell it has, the node that it shows, and what it reads.
#[derive(Drop)]
pub(crate) struct Spot {
    pub(crate) name: Text,
    pub(crate) role: Role,
    pub(crate) shown: u32,
    pub(crate) reads: Listed<Signal>,
}

/// The instances so far, and for each number so far the terminal that shows it: a node without a gate has none, and the port vss
/// stands for it.
#[derive(Drop)]
pub(crate) struct Plan {
    pub(crate) spots: Vec<Spot>,
    pub(crate) drivers: Vec<Terminal>,
}

/// A letter with a number behind it.
fn numbered(alloc: Global, letter: &[u8], number: u64) -> Result<Text, AllocError>
    ensures { IfOk result (λ text. text ≡ letter.now ++ decimal number) }
{
    let mut text = Text::from_bytes(alloc, letter)?;
    push_u64(alloc, &mut text, number)?;
    Ok(text)
}

/// The port of this scalar name.
pub(crate) fn scalar_port(alloc: Global, text: &[u8]) -> Result<Terminal, AllocError>
    ensures { IfOk result (λ t. t ≡ port (scalar text.now)) }
{
    Ok(Terminal {
        instance: None,
        pin: Name::scalar(Text::from_bytes(alloc, text)?),
    })
}

impl Plan {
    /// Puts an instance behind the others, whose node has the next number.
    fn put(&mut self, alloc: Global, parts: &Parts, spot: Spot) -> Result<(), AllocError>
        ensures spots { OnOk result (self.new.spots.items ≡ self.old.spots.items ++ spot ∷ []) }
        ensures drivers { OnOk result (self.new.drivers.items ≡ self.old.drivers.items ++ output_terminal parts.now spot ∷ []) }
    {
        self.drivers.push(Terminal {
            instance: Some(spot.name.copy(alloc)?),
            pin: parts.of(spot.role).output.copy(alloc)?,
        })?;
        self.spots.push(spot)?;
        Ok(())
    }

    /// Puts the registers behind the inputs, in the order of what they load.
    pub(crate) fn put_registers(
        &mut self,
        alloc: Global,
        parts: &Parts,
        loads: &[u32],
    ) -> Result<(), AllocError>
        requires { length self.old.drivers.items + length loads.now < 2 ^ 32 }
        ensures spots { OnOk result (self.new.spots.items
            ≡ self.old.spots.items ++ register_spots (length self.old.drivers.items) 0 loads.now) }
        ensures drivers { OnOk result (self.new.drivers.items ≡ self.old.drivers.items
            ++ map (output_terminal parts.now) (register_spots (length self.old.drivers.items) 0 loads.now)) }
    {
        let first = self.drivers.len() as u32;
        for (k, load) in loads.iter().enumerate() {
            let spot = register_spot(alloc, first, k, *load)?;
            self.put(alloc, parts, spot)?;
        }
        Ok(())
    }

    /// Puts the gates of the nodes behind inputs and registers, in the order of the nodes.
    pub(crate) fn put_gates(
        &mut self,
        alloc: Global,
        parts: &Parts,
        gates: &[Option<Gate>],
    ) -> Result<(), AllocError>
        requires { length self.old.drivers.items + length gates.now < 2 ^ 32 }
        ensures spots { OnOk result (self.new.spots.items
            ≡ self.old.spots.items ++ gate_spots (length self.old.drivers.items) 0 gates.now) }
        ensures drivers { OnOk result (self.new.drivers.items ≡ self.old.drivers.items
            ++ gate_drivers parts.now (length self.old.drivers.items) 0 gates.now) }
    {
        let mut count = 0;
        for gate in gates {
            match gate {
                Some(gate) => {
                    let spot = gate_spot(alloc, count, self.drivers.len() as u32, gate)?;
                    self.put(alloc, parts, spot)?;
                    count += 1;
                }
                None => self.drivers.push(scalar_port(alloc, b"vss")?)?,
            }
        }
        Ok(())
    }
}

fn node_signals(alloc: Global, numbers: &[u32]) -> Result<Listed<Signal>, AllocError>
    ensures { IfOk result (λ signals. signals ≡ node_signals numbers.now) }
{
    let mut signals = Vec::new(alloc);
    for number in numbers {
        signals.push(Signal::Node(*number))?;
    }
    Ok(Listed::new(signals))
}

/// What a register reads.
fn register_reads(alloc: Global, load: u32) -> Result<Listed<Signal>, AllocError>
    ensures { IfOk result (λ signals. signals ≡ register_reads load) }
{
    let mut signals = Vec::new(alloc);
    signals.push(Signal::Node(load))?;
    signals.push(Signal::Clock)?;
    Ok(Listed::new(signals))
}

/// The instance of register `k`, where the first register has number `first`.
fn register_spot(alloc: Global, first: u32, k: usize, load: u32) -> Result<Spot, AllocError>
    requires { first + k < 2 ^ 32 }
    ensures { IfOk result (λ spot. spot ≡ register_spot first k load) }
{
    Ok(Spot {
        name: numbered(alloc, b"q", k as u64)?,
        role: Role::Register,
        shown: first + k as u32,
        reads: register_reads(alloc, load)?,
    })
}

/// The instance of a gate, which is number `k` of all and stands for this node.
fn gate_spot(alloc: Global, k: u64, number: u32, gate: &Gate) -> Result<Spot, AllocError>
    ensures { IfOk result (λ spot. spot ≡ gate_spot k number gate.now) }
{
    Ok(Spot {
        name: numbered(alloc, b"g", k)?,
        role: Role::Gate(gate.cell),
        shown: number,
        reads: node_signals(alloc, gate.leaves.as_slice())?,
    })
}
