// The terminals of nets, in the order of their points.
ghost use Rattle.std.specs.Prelude.{◌≡◌, ◌++◌, ◌+◌, ◌<◌, ◌≤◌, length, take, drop, slice_get, IfOk, OnOk};
ghost use Rattle.std.specs.List.{flat_map};
ghost use Rattle.net_meaning.specs.Netlist.{AbstractNetlist as Seen};
ghost use Rattle.net_right.specs.View.{IsSeenAs};
ghost use Rattle.ocp_rows.specs.Placement.{net_count};
ghost use Rattle.ocp_place.specs.Nets.{is_signal, net_number};
ghost use Rattle.ocp_place.specs.Placed.{IsRowPlacementOf, rows_of, stood_in};
ghost use Rattle.nero_nets.specs.Routed.{port_terminals, net_terminals};
ghost use Rattle.nero_nets.specs.Terminals.{signals_among, pin_if, class_pins, pins_in};

use cell_checks::Library;
use cell_pins::is_scalar;
use nero_tracks::placed_nets;
use net_core::{Netlist, Node};
use ocp_place::Placement;
use std::alloc::{AllocError, Global};
use vlsi_base::{Name, Port, Terminal, Text};

/// Whether a name is that of no supply.
fn is_signal(name: &Name) -> bool
    ensures { result ≡ is_signal name.now }
{
    !is_scalar(name, b"vdd") && !is_scalar(name, b"vss")
}

/// Puts the port with this rank behind the others, if there is one: ranks leave out the supplies.
fn push_port(
    alloc: Global,
    made: &mut Vec<Terminal>,
    ports: &[Port],
    rank: usize,
) -> Result<(), AllocError>
    ensures { OnOk result (made.new.items ≡ made.old.items ++ port_terminals (slice_get (signals_among ports.now) rank)) }
{
    let mut left = rank;
    for port in ports {
        if is_signal(&port.name) {
            if left == 0 {
                made.push(Terminal {
                    instance: None,
                    pin: port.name.copy(alloc)?,
                })?;
                return Ok(());
            }
            left -= 1;
        }
    }
    Ok(())
}

/// Puts a pin of an instance behind the others, if it is wanted.
fn push_pin(
    alloc: Global,
    made: &mut Vec<Terminal>,
    owner: &Text,
    pin: &Name,
    wanted: bool,
) -> Result<(), AllocError>
    ensures { OnOk result (made.new.items ≡ made.old.items ++ pin_if wanted owner.now pin.now) }
{
    if wanted {
        made.push(Terminal {
            instance: Some(owner.copy(alloc)?),
            pin: pin.copy(alloc)?,
        })?;
    }
    Ok(())
}

/// Puts the pins of an instance that are in a class behind the others, but for vdd and vss, where all its pins have these classes.
fn push_own(
    alloc: Global,
    made: &mut Vec<Terminal>,
    node: &Node,
    classes: &[u32],
    class: u32,
) -> Result<(), AllocError>
    requires { length node.now.pins ≤ length classes.now }
    ensures { OnOk result (made.new.items ≡ made.old.items ++ class_pins class node.now.name node.now.pins classes.now) }
{
    let pins = node.pins.as_slice();
    for k in 0..pins.len() {
        let wanted = classes[k] == class && is_signal(&pins[k]);
        push_pin(alloc, made, &node.name, &pins[k], wanted)?;
    }
    Ok(())
}

/// So many of the classes, from the first on.
fn classes_from<'c>(classes: &'c [u32], first: u32, many: usize) -> &'c [u32]
    requires { first + many ≤ length classes.now }
    ensures { result.now ≡ take many (drop first classes.now) }
{
    let start = first as usize;
    &classes[start..start + many]
}

/// Puts the pins that are in a class behind the others, in the order of instances and of names, but for vdd and vss.
fn push_pins(
    alloc: Global,
    made: &mut Vec<Terminal>,
    netlist: &Netlist,
    class: u32,
) -> Result<(), AllocError>
    ensures { OnOk result ((k : Seen) → IsSeenAs netlist.now k
        → made.new.items ≡ made.old.items ++ flat_map (pins_in k class) netlist.now.instances) }
{
    let classes = netlist.classes();
    for node in netlist.nodes() {
        let own = classes_from(classes, node.first, node.pins.as_slice().len());
        push_own(alloc, made, node, own, class)?;
    }
    Ok(())
}

/// The terminals of a net in the order of its points: its port, if it has one, then its pins in the order of instances and of names.
/// Takes memory for them, and for the class of each net.
pub fn net_terminals(
    alloc: Global,
    placement: &Placement,
    netlist: &Netlist,
    library: &Library,
    net: u32,
) -> Result<Vec<Terminal>, AllocError>
    requires placed { IsRowPlacementOf library.now netlist.now placement.now }
    requires there { (k : Seen) → IsSeenAs netlist.now k → net < net_count k }
    ensures { IfOk result (λ made. (k : Seen) → IsSeenAs netlist.now k → made.items
        ≡ net_terminals k library.now (net_number k library.now) (rows_of k placement.now) (stood_in k placement.now) net) }
{
    let _ = library;
    let nets = placed_nets(alloc, placement)?;
    let class = nets[net as usize];
    let mut made = Vec::new(alloc);
    push_port(alloc, &mut made, netlist.ports(), net as usize)?;
    push_pins(alloc, &mut made, netlist, class)?;
    Ok(made)
}
