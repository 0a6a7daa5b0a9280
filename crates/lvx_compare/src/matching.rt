// The classes of one netlist's terminals in another.
ghost use Rattle.std.specs.Prelude.{map, OnOk, IfOk};
ghost use Rattle.net_core.specs.Netlist.{port, terminals};
ghost use Rattle.net_core.specs.Frame.{node_pins};
ghost use Rattle.lvx_compare.specs.Stages.{AreClasses, AddsClasses};

use net_core::{Netlist, Node};
use std::alloc::{AllocError, Global};
use vlsi_base::{Port, Terminal};

/// Puts the class that each of some ports has in a netlist behind others; none where it isn't there.
fn push_port_classes(
    alloc: Global,
    netlist: &Netlist,
    ports: &[Port],
    found: &mut Vec<Option<u32>>,
) -> Result<(), AllocError>
    ensures { OnOk result (AddsClasses netlist.now (map (λ p. port p.name) ports.now) found.old.items found.new.items) }
{
    for item in ports {
        let terminal = Terminal {
            instance: None,
            pin: item.name.copy(alloc)?,
        };
        found.push(netlist.class(&terminal))?;
    }
    Ok(())
}

/// Puts the class that each pin of an instance has in a netlist behind others; none where it isn't there.
fn push_pin_classes(
    alloc: Global,
    netlist: &Netlist,
    node: &Node,
    found: &mut Vec<Option<u32>>,
) -> Result<(), AllocError>
    ensures { OnOk result (AddsClasses netlist.now (node_pins node.now) found.old.items found.new.items) }
{
    let pins = node.pins.as_slice();
    for pin in pins {
        let terminal = Terminal {
            instance: Some(node.name.copy(alloc)?),
            pin: pin.copy(alloc)?,
        };
        found.push(netlist.class(&terminal))?;
    }
    Ok(())
}

/// The class in `other` of each terminal of a netlist, in the order of terminals; none where it isn't there. Takes memory for each,
/// and time with the logarithm of the number of instances.
pub(crate) fn classes_in(
    alloc: Global,
    other: &Netlist,
    netlist: &Netlist,
) -> Result<Vec<Option<u32>>, AllocError>
    ensures { IfOk result (λ found. AreClasses other.now (terminals netlist.now) found.items) }
{
    let mut found = Vec::with_capacity(alloc, netlist.classes().len())?;
    push_port_classes(alloc, other, netlist.ports(), &mut found)?;
    for node in netlist.nodes() {
        push_pin_classes(alloc, other, node, &mut found)?;
    }
    Ok(found)
}
