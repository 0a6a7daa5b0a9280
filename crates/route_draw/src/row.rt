// Ports and instances of one row.
ghost use Rattle.std.specs.Prelude.{◌≡◌, ◌++◌, ◌≤◌, ◌<◌, ◌^◌, pos, map, length, IfOk, OnOk};
ghost use Rattle.std.specs.List.{All};
ghost use Rattle.vlsi_base.specs.Names.{scalar};
ghost use Rattle.machine_core.specs.Named.{is_same_name};
ghost use Rattle.net_core.specs.Frame.{instance_of};
ghost use Rattle.ocp_place.specs.Nets.{is_signal};
ghost use Rattle.ocp_rows.specs.Placement.{supply_ports, track_ports, track_y};
ghost use Rattle.route_draw.specs.Pieces.{signal_names, instance_lines};

use crate::lines::{Spot, WestPort, scalar, west_port};
use cell_pins::is_scalar;
use net_core::Node;
use std::alloc::{AllocError, Global};
use sym_geom::{
    FIRST_CELL_X, FIRST_TRACK_Y, Instance, Item, Items, Layer, Level, PITCH, RAIL_WIDTH, Transform,
    VDD_RAIL_Y, VSS_RAIL_Y, VSS_STRAP_X, WIRE_WIDTH,
};
use vlsi_base::{Name, Port, Text};

/// The y of the track of net `k`.
pub(crate) fn track_y(k: usize) -> u64
    requires { k < 2 ^ 32 }
    ensures value { pos result ≡ track_y k }
    ensures near { result ≤ 3000000000000 }
{
    u64::from(FIRST_TRACK_Y) + u64::from(PITCH) * k as u64
}

/// Whether a name is this text without a bit.
fn is_named(name: &Name, text: &[u8]) -> bool
    ensures { result ≡ is_same_name name.now (scalar text.now) }
{
    is_scalar(name, text)
}

/// Whether a name is that of no supply.
fn is_signal(name: &Name) -> bool
    ensures { result ≡ is_signal name.now }
{
    !(is_named(name, b"vdd") || is_named(name, b"vss"))
}

/// The names of the ports that are no supplies. Takes memory for them.
pub(crate) fn signal_names(alloc: Global, ports: &[Port]) -> Result<Vec<Name>, AllocError>
    ensures { IfOk result (λ names. names.items ≡ signal_names ports.now) }
{
    let mut names = Vec::new(alloc);
    for port in ports {
        if is_signal(&port.name) {
            names.push(port.name.copy(alloc)?)?;
        }
    }
    Ok(names)
}

/// Adds the ports of the supplies.
pub(crate) fn push_supply_ports(alloc: Global, items: &mut Items) -> Result<(), AllocError>
    ensures { OnOk result (items.new ≡ items.old ++ supply_ports) }
{
    let vss = scalar(alloc, b"vss")?;
    let vdd = scalar(alloc, b"vdd")?;
    let low = WestPort {
        layer: Layer::Alu(Level::One),
        width: RAIL_WIDTH,
        at: Spot {
            x: u64::from(VSS_STRAP_X),
            y: u64::from(VSS_RAIL_Y),
        },
    };
    let high = WestPort {
        layer: Layer::Alu(Level::One),
        width: RAIL_WIDTH,
        at: Spot {
            x: u64::from(VSS_STRAP_X),
            y: u64::from(VDD_RAIL_Y),
        },
    };
    west_port(alloc, items, low, &vss)?;
    west_port(alloc, items, high, &vdd)
}

/// Adds the other ports, each at the left end of its track.
pub(crate) fn push_track_ports(
    alloc: Global,
    items: &mut Items,
    names: &[Name],
) -> Result<(), AllocError>
    requires { length names.now < 2 ^ 32 }
    ensures { OnOk result (items.new ≡ items.old ++ track_ports 0 names.now) }
{
    for k in 0..names.len() {
        let port = WestPort {
            layer: Layer::Alu(Level::Two),
            width: WIRE_WIDTH,
            at: Spot {
                x: u64::from(FIRST_CELL_X),
                y: track_y(k),
            },
        };
        west_port(alloc, items, port, &names[k])?;
    }
    Ok(())
}

/// Adds the instances, which begin at these places.
pub(crate) fn push_instances(
    alloc: Global,
    items: &mut Items,
    models: &[Text],
    nodes: &[Node],
    starts: &[u64],
) -> Result<(), AllocError>
    requires known { All (λ i. i.model < length models.now) nodes.now }
    requires each { length starts.now ≡ length nodes.now }
    requires near { All (λ x. x ≤ 100000000000000) starts.now }
    ensures { OnOk result (items.new ≡ items.old ++ instance_lines (map (instance_of models.now) nodes.now) starts.now) }
{
    for k in 0..nodes.len() {
        let node = &nodes[k];
        let model = models[node.model].copy(alloc)?;
        let name = node.name.copy(alloc)?;
        items.push(Item::Instance(Instance {
            x: starts[k] as i64,
            y: 0,
            model,
            name,
            transform: Transform::NoSym,
        }))?;
    }
    Ok(())
}
