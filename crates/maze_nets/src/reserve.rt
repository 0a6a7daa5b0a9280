// The nodes that are reserved for nets.
ghost use Rattle.std.specs.Prelude.{◌<◌, ◌∷◌, [], length};
ghost use Rattle.vlsi_base.specs.Member.{In};
ghost use Rattle.grid_core.specs.declared.grid.Node.{Node as AnyNode};
ghost use Rattle.grid_core.specs.Grid.{IsInGrid, above};
ghost use Rattle.grid_core.specs.Owners.{IsBegun, IsTaken};
ghost use Rattle.maze_nets.specs.Nets.{port_node, reserved_of, net_reserved, AreRoutable};
ghost use Rattle.maze_nets.specs.Progress.{AreReserved};

use crate::points::NetPoints;
use grid_core::{Node, Occupied};

/// The node of a net's port, if it has one, becomes its own.
fn reserve_port(occupied: &mut Occupied, net: u32, port: Option<Node>)
    requires net { net < 4294967295 }
    requires within { (p : AnyNode) → In p (port_node port) → IsInGrid occupied.old.grid p }
    ensures { IsTaken occupied.old net (port_node port) occupied.new }
{
    if let Some(node) = port {
        occupied.block(node, net);
    }
}

/// The node of a terminal and the one above it become the net's own.
fn reserve_terminal(occupied: &mut Occupied, net: u32, node: Node)
    requires net { net < 4294967295 }
    requires metals { occupied.old.grid.metals < 256 }
    requires node { IsInGrid occupied.old.grid node }
    requires above { IsInGrid occupied.old.grid (above node) }
    ensures { IsTaken occupied.old net (node ∷ above node ∷ []) occupied.new }
{
    let above = Node {
        metal: node.metal + 1,
        column: node.column,
        row: node.row,
    };
    occupied.block(node, net);
    occupied.block(above, net);
}

/// What is reserved for a net becomes its own.
fn reserve_net(occupied: &mut Occupied, net: u32, points: &NetPoints)
    requires net { net < 4294967295 }
    requires metals { occupied.old.grid.metals < 256 }
    requires within { (p : AnyNode) → In p (reserved_of points.now) → IsInGrid occupied.old.grid p }
    ensures { IsTaken occupied.old net (reserved_of points.now) occupied.new }
{
    reserve_port(occupied, net, points.port);
    for node in &points.terminals {
        reserve_terminal(occupied, net, *node);
    }
}

/// What is reserved for nets becomes theirs.
pub(crate) fn reserve(occupied: &mut Occupied, nets: &[NetPoints])
    requires few { length nets.now < 4294967295 }
    requires metals { occupied.old.grid.metals < 256 }
    requires begun { IsBegun occupied.old.grid occupied.old }
    requires routable { AreRoutable occupied.old.grid nets.now }
    ensures { AreReserved occupied.old.grid (net_reserved nets.now) occupied.new }
{
    for (net, points) in nets.iter().enumerate() {
        reserve_net(occupied, net as u32, points);
    }
}
