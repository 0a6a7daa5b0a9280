// The points of nets on the grid.
ghost use Rattle.std.specs.Prelude.{◌≡◌, ◌≤◌, ◌<◌, ◌/◌, map, IfOk};
ghost use Rattle.std.specs.List.{All};
ghost use Rattle.sym_geom.specs.declared.grid.TheConstants.{PITCH as pitch};
ghost use Rattle.ocp_place.specs.Placed.{IsRowPlacementOf};
ghost use Rattle.ocp_place.specs.Reaches.{site_of};
ghost use Rattle.nero_tracks.specs.Tracks.{net_pins};
ghost use Rattle.maze_nets.specs.Nets.{port_node};
ghost use Rattle.ocp_grid.specs.Points.{ArePointsIn};
ghost use Rattle.ocp_grid.specs.Sites.{point_node, IsOnGrid, net_port};

use cell_checks::Library;
use grid_core::Node;
use maze_nets::NetPoints;
use nero_tracks::{net_pins, placed_nets};
use net_core::Netlist;
use ocp_place::{Placement, Site};
use std::alloc::{AllocError, Global};
use sym_geom::{FIRST_CELL_X, PITCH};

/// The node of a point on this metal.
fn point_node(site: &Site, metal: u8) -> Node
    requires { IsOnGrid (site_of site.now).1 }
    ensures { result ≡ point_node metal (site_of site.now).1 }
{
    let column = site.x.saturating_sub(u64::from(FIRST_CELL_X)) / u64::from(PITCH);
    let row = site.y / u64::from(PITCH);
    Node {
        metal,
        column: column as u32,
        row: row as u32,
    }
}

/// The nodes of pins at these points.
fn pin_nodes(alloc: Global, pins: &[Site]) -> Result<Vec<Node>, AllocError>
    requires { All (λ s. IsOnGrid (site_of s).1) pins.now }
    ensures { IfOk result (λ nodes. nodes.items ≡ map (λ s. point_node 2 (site_of s).1) pins.now) }
{
    let mut nodes = Vec::new(alloc);
    for pin in pins {
        nodes.push(point_node(pin, 2))?;
    }
    Ok(nodes)
}

/// The node of the port of net `k`, with terminals at these points, where so many nets have a port.
fn net_port(ends: &[Site], ports: usize, k: usize) -> Option<Node>
    requires { All (λ s. IsOnGrid (site_of s).1) ends.now }
    ensures { port_node result ≡ map (point_node 3) (net_port ports k (map (λ s. (site_of s).1) ends.now)) }
{
    if k < ports && !ends.is_empty() {
        return Some(point_node(&ends[0], 3));
    }
    None
}

/// The points of net `k`, with terminals at these points, where so many nets have a port.
fn points_of(alloc: Global, ends: &[Site], ports: usize, k: usize) -> Result<NetPoints, AllocError>
    requires near { All (λ s. (s.x ≤ 100000000000000) × (s.y ≤ 100000000000000)) ends.now }
    requires grid { All (λ s. IsOnGrid (site_of s).1) ends.now }
    ensures port { IfOk result (λ p. port_node p.port ≡ map (point_node 3) (net_port ports k (map (λ s. (site_of s).1) ends.now))) }
    ensures terminals { IfOk result (λ p. p.terminals.items ≡ map (point_node 2) (net_pins ports k (map (λ s. (site_of s).1) ends.now))) }
{
    let port = net_port(ends, ports, k);
    let terminals = pin_nodes(alloc, net_pins(ends, ports, k))?;
    Ok(NetPoints { port, terminals })
}

/// The points of all nets of a placed netlist, by their numbers: first the nets of the ports without the supplies, in the order of
/// names, then one for each other output pin, in the order of instances. A port's node is on metal 3, and those of pins are on metal 2,
/// in the order of instances and of names. Takes memory for each terminal.
pub fn net_points(
    alloc: Global,
    placement: &Placement,
    netlist: &Netlist,
    library: &Library,
) -> Result<Vec<NetPoints>, AllocError>
    requires placed { IsRowPlacementOf library.now netlist.now placement.now }
    requires columns { placement.now.width / pitch < 4294967295 }
    ensures { IfOk result (λ nets. ArePointsIn library.now netlist.now placement.now nets.items) }
{
    let _ = netlist;
    let _ = library;
    let ports = placement.ports().len();
    let classes = placed_nets(alloc, placement)?;
    let mut nets = Vec::new(alloc);
    for k in 0..classes.len() {
        let points = points_of(alloc, placement.ends(classes[k]), ports, k)?;
        nets.push(points)?;
    }
    Ok(nets)
}
