// The wires and vias of nets with routes, and the marks of their points.
ghost use Rattle.std.specs.Prelude.{◌≡◌, ◌++◌, ◌<◌, ◌^◌, map, length, IfOk, OnOk};
ghost use Rattle.grid_core.specs.Shown.{tree_in};
ghost use Rattle.maze_drawing.specs.Law.{mark};
ghost use Rattle.maze_nets.specs.Nets.{points_of};
ghost use Rattle.route_draw.specs.GridPieces.{via_points, wired_lines, mark_lines, AreWired};

use grid_core::{Node, Routes};
use maze_nets::NetPoints;
use maze_wires::{NetWires, net_wires, push_marks, push_net};
use std::alloc::{AllocError, Global};
use sym_geom::Items;
use vlsi_base::Name;

/// The terminals of a net at which vias lead up from pins: those of a net with two or more points.
fn via_points(net: &NetPoints) -> &[Node]
    ensures { result.now ≡ via_points net.now }
{
    if net.len() < 2 {
        return &[];
    }
    &net.terminals
}

/// The wires and vias of all nets with these points, by their numbers.
pub(crate) fn all_wires(
    alloc: Global,
    nets: &[NetPoints],
    routes: &Routes,
) -> Result<Vec<NetWires>, AllocError>
    ensures { IfOk result (λ made. AreWired (tree_in routes.now) nets.now made.items) }
{
    let mut made = Vec::new(alloc);
    for k in 0..nets.len() {
        let net = net_wires(alloc, routes.tree(k), via_points(&nets[k]))?;
        made.push(net)?;
    }
    Ok(made)
}

/// Adds the wires and vias of all nets, by their numbers, each net by the name of its port.
pub(crate) fn push_wired(
    alloc: Global,
    items: &mut Items,
    names: &[Name],
    nets: &[NetWires],
) -> Result<(), AllocError>
    ensures { OnOk result (items.new ≡ items.old ++ wired_lines 0 names.now nets.now) }
{
    for k in 0..nets.len() {
        push_net(alloc, items, names.get(k), &nets[k])?;
    }
    Ok(())
}

/// Adds the marks of a net's points: that of its port first.
fn push_net_marks(
    alloc: Global,
    items: &mut Items,
    number: u32,
    net: &NetPoints,
) -> Result<(), AllocError>
    ensures { OnOk result (items.new ≡ items.old ++ map (mark number) (points_of net.now)) }
{
    if let Some(node) = net.port {
        push_marks(alloc, items, number, &[node])?;
    }
    push_marks(alloc, items, number, &net.terminals)
}

/// Adds the marks of all nets' points, by the numbers of the nets.
pub(crate) fn push_all_marks(
    alloc: Global,
    items: &mut Items,
    nets: &[NetPoints],
) -> Result<(), AllocError>
    requires { length nets.now < 2 ^ 32 }
    ensures { OnOk result (items.new ≡ items.old ++ mark_lines 0 nets.now) }
{
    for k in 0..nets.len() {
        push_net_marks(alloc, items, k as u32, &nets[k])?;
    }
    Ok(())
}
