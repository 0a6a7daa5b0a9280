// The netlist of its parts.
ghost use Rattle.std.specs.Prelude.{◌≡◌, ◌++◌, ◌+◌, ◌<◌, ◌^◌, map, length, IfOk, OnOk, IfErr};
ghost use Rattle.std.specs.List.{flat_map};
ghost use Rattle.vlsi_base.specs.Member.{In};
ghost use Rattle.net_core.specs.declared.error.BuildError.TheVariants.{Memory};
ghost use Rattle.net_core.specs.Places.{IsThere};
ghost use Rattle.net_core.specs.Netlist.{AreInOrder, IsNetlist, pins_of};
ghost use Rattle.net_core.specs.Joins.{draft_terminals, with_join, IsFinished};
ghost use Rattle.boog_map.specs.Tied.{part_of};
ghost use Rattle.boog_map.specs.Draft.{instance_of, port_signals, spot_signals, tied_signal, driver, IsNumbered, join_of, with_instances, with_joins, CanJoin, draft_by, IsDrawable, IsPlaceable};

use crate::choice::Parts;
use crate::drivers::Drivers;
use crate::part::Tie;
use crate::place::{Signal, Spot};
use crate::ports::TiedPort;
use net_core::{BuildError, Builder, Netlist};
use std::alloc::{AllocError, Global};
use vlsi_base::{Ports, Terminal, Text};

/// The parts of a netlist: its ports and instances, their cells, and the terminal that gives each signal its bit.
#[derive(Drop)]
pub(crate) struct Sketch {
    pub(crate) ports: Vec<TiedPort>,
    pub(crate) parts: Parts,
    pub(crate) spots: Vec<Spot>,
    pub(crate) drivers: Drivers,
}

/// What is refused for memory alone.
fn only_memory(error: BuildError) -> AllocError
    requires { error ≡ Memory }
{
    match error {
        BuildError::Memory => AllocError,
        BuildError::Twice => unreachable!(),
        BuildError::Unknown => unreachable!(),
    }
}

fn add_spots(
    alloc: Global,
    builder: &mut Builder,
    parts: &Parts,
    spots: &[Spot],
) -> Result<(), AllocError>
    requires { IsPlaceable builder.now parts.now spots.now }
    ensures { OnOk result (builder.new ≡ with_instances builder.old (map (instance_of parts.now) spots.now)) }
{
    for spot in spots {
        let part = parts.of(spot.role);
        match builder.add(alloc, &spot.name, &part.model, &part.pins) {
            Ok(_) => {}
            Err(error) => return Err(only_memory(error)),
        }
    }
    Ok(())
}

/// Joins a terminal to the driver of its signal.
fn join(
    builder: &mut Builder,
    drivers: &Drivers,
    terminal: &Terminal,
    signal: Signal,
) -> Result<(), AllocError>
    requires numbered { IsNumbered drivers.now signal }
    requires there { IsThere (draft_terminals builder.now) terminal.now }
    requires driven { IsThere (draft_terminals builder.now) (driver drivers.now signal) }
    ensures { OnOk result (builder.new ≡ with_join builder.old terminal.now (driver drivers.now signal)) }
{
    match builder.join(terminal, drivers.of(signal)) {
        Ok(()) => Ok(()),
        Err(error) => Err(only_memory(error)),
    }
}

fn join_ports(
    alloc: Global,
    builder: &mut Builder,
    drivers: &Drivers,
    ports: &[TiedPort],
) -> Result<(), AllocError>
    requires { CanJoin (draft_terminals builder.now) drivers.now (port_signals ports.now) }
    ensures { OnOk result (builder.new ≡ with_joins builder.old (map (join_of drivers.now) (port_signals ports.now))) }
{
    for port in ports {
        let terminal = Terminal {
            instance: None,
            pin: port.name.copy(alloc)?,
        };
        join(builder, drivers, &terminal, port.signal)?;
    }
    Ok(())
}

fn tied_signal(spot: &Spot, tie: Tie) -> Signal
    ensures { result ≡ tied_signal spot.now tie }
{
    match tie {
        Tie::High => Signal::High,
        Tie::Low => Signal::Low,
        Tie::Shown => Signal::Node(spot.shown),
        Tie::Read(place) => match spot.reads.as_slice().get(place) {
            Some(signal) => *signal,
            None => Signal::Low,
        },
    }
}

fn join_pins(
    alloc: Global,
    builder: &mut Builder,
    drivers: &Drivers,
    parts: &Parts,
    spot: &Spot,
) -> Result<(), AllocError>
    requires { CanJoin (draft_terminals builder.now) drivers.now (spot_signals parts.now spot.now) }
    ensures { OnOk result (builder.new ≡ with_joins builder.old (map (join_of drivers.now) (spot_signals parts.now spot.now))) }
{
    let part = parts.of(spot.role);
    for pin in &part.ties {
        let terminal = Terminal {
            instance: Some(spot.name.copy(alloc)?),
            pin: pin.name.copy(alloc)?,
        };
        join(builder, drivers, &terminal, tied_signal(spot, pin.tie))?;
    }
    Ok(())
}

fn join_spots(alloc: Global, builder: &mut Builder, sketch: &Sketch) -> Result<(), AllocError>
    requires { CanJoin (draft_terminals builder.now) sketch.now.drivers
        (flat_map (spot_signals sketch.now.parts) sketch.now.spots.items) }
    ensures { OnOk result (builder.new ≡ with_joins builder.old (map (join_of sketch.now.drivers)
        (flat_map (spot_signals sketch.now.parts) sketch.now.spots.items))) }
{
    for spot in &sketch.spots {
        join_pins(alloc, builder, &sketch.drivers, &sketch.parts, spot)?;
    }
    Ok(())
}

/// The netlist of these ports and of a sketch. Takes memory for it and for the pairs that are joined.
pub(crate) fn build(
    alloc: Global,
    name: Text,
    ports: Ports,
    sketch: &Sketch,
) -> Result<Netlist, AllocError>
    requires { IsDrawable ports sketch.now }
    ensures finished { IfOk result (λ n. IsFinished (draft_by name ports sketch.now) n) }
    ensures sound { IfOk result (λ n. IsNetlist n) }
{
    let mut builder = Builder::begin(alloc, name, ports)?;
    add_spots(alloc, &mut builder, &sketch.parts, &sketch.spots)?;
    join_ports(alloc, &mut builder, &sketch.drivers, &sketch.ports)?;
    join_spots(alloc, &mut builder, sketch)?;
    builder.finish(alloc)
}
