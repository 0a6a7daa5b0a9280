// The figure of a netlist in rows, with routes over a grid.
ghost use Rattle.std.specs.Prelude.{◌≡◌, ◌≤◌, ◌<◌, ◌+◌, ◌*◌, ◌/◌, pos, length, IfOk};
ghost use Rattle.sym_geom.specs.declared.grid.TheConstants.{PITCH as pitch, ROW_HEIGHT as row_height, FIRST_CELL_X as first_x};
ghost use Rattle.grid_core.specs.Shown.{tree_in};
ghost use Rattle.ocp_place.specs.Placed.{IsRowPlacementOf};
ghost use Rattle.route_draw.specs.Pieces.{signal_names};
ghost use Rattle.route_draw.specs.GridPieces.{block_lines, bare_lines};
ghost use Rattle.route_draw.specs.Grid.{AreDrawable, IsDrawnInGrid, IsDrawnPlaced, IsMarked};

use crate::grid_nets::{all_wires, push_all_marks, push_wired};
use crate::grid_rows::{push_grid_ports, push_stood, push_supplies};
use crate::row::{push_supply_ports, signal_names};
use ap_io::Figure;
use cell_checks::Library;
use grid_core::Routes;
use maze_drawing::{routes_keep_nets, routes_show_netlist};
use maze_wires::NetWires;
use net_core::Netlist;
use ocp_grid::{net_points, placements_are_in_rows};
use ocp_place::Placement;
use std::alloc::{AllocError, Global};
use sym_geom::{FIRST_CELL_X, Items, PITCH, ROW_HEIGHT, Rect};
use vlsi_base::Name;

/// The box of a figure with so many rows, whose block is so wide.
fn grid_box(width: u64, rows: usize) -> Rect
    requires width { width ≤ 70000000000000 }
    requires rows { rows ≤ 256 }
    ensures left { result.x1 ≡ pos 0 }
    ensures low { result.y1 ≡ pos 0 }
    ensures right { result.x2 ≡ pos (first_x + pitch + width) }
    ensures high { result.y2 ≡ pos (row_height * rows + 2 * pitch) }
{
    let right = u64::from(FIRST_CELL_X) + u64::from(PITCH) + width;
    let top = u64::from(ROW_HEIGHT) * rows as u64 + 2 * u64::from(PITCH);
    Rect {
        x1: 0,
        y1: 0,
        x2: right as i64,
        y2: top as i64,
    }
}

/// The lines of the placement without those of nets, where the ports that are no supplies have these names.
fn bare_lines(
    alloc: Global,
    names: &[Name],
    netlist: &Netlist,
    placement: &Placement,
) -> Result<Items, AllocError>
    requires starts { length placement.now.starts ≡ length netlist.now.instances }
    requires row_numbers { length placement.now.row_numbers ≡ length netlist.now.instances }
    requires wide { length names.now < placement.now.width / pitch }
    requires rows { length placement.now.rows ≤ 256 }
    ensures { IfOk result (λ items. items ≡ bare_lines names.now netlist.now placement.now) }
{
    let columns = placement.width() / u64::from(PITCH);
    let rows = placement.rows().len();
    let mut items = Items::new(Vec::new(alloc));
    push_supply_ports(alloc, &mut items)?;
    push_grid_ports(alloc, &mut items, names, columns, rows)?;
    push_stood(alloc, &mut items, netlist, placement)?;
    push_supplies(alloc, &mut items, placement.width(), rows)?;
    Ok(items)
}

/// All lines of the figure.
fn grid_lines(
    alloc: Global,
    netlist: &Netlist,
    placement: &Placement,
    nets: &[NetWires],
) -> Result<Items, AllocError>
    requires starts { length placement.now.starts ≡ length netlist.now.instances }
    requires row_numbers { length placement.now.row_numbers ≡ length netlist.now.instances }
    requires wide { length (signal_names netlist.now.ports) < placement.now.width / pitch }
    requires rows { length placement.now.rows ≤ 256 }
    ensures { IfOk result (λ items. items ≡ block_lines netlist.now placement.now nets.now) }
{
    let names = signal_names(alloc, netlist.ports())?;
    let mut items = bare_lines(alloc, &names, netlist, placement)?;
    push_wired(alloc, &mut items, &names, nets)?;
    Ok(items)
}

/// The lines of a figure without routes.
fn placed_lines(
    alloc: Global,
    netlist: &Netlist,
    placement: &Placement,
) -> Result<Items, AllocError>
    requires starts { length placement.now.starts ≡ length netlist.now.instances }
    requires row_numbers { length placement.now.row_numbers ≡ length netlist.now.instances }
    requires wide { length (signal_names netlist.now.ports) < placement.now.width / pitch }
    requires rows { length placement.now.rows ≤ 256 }
    ensures { IfOk result (λ items. items ≡ bare_lines (signal_names netlist.now.ports) netlist.now placement.now) }
{
    let names = signal_names(alloc, netlist.ports())?;
    let items = bare_lines(alloc, &names, netlist, placement)?;
    Ok(items)
}

/// Draws a netlist that is placed in rows, without a wire or a via of its nets: the ports of vss and vdd, the other ports in the order
/// of names, the instances in the netlist's order, and rails and straps of the supplies. Takes memory and time for these lines.
pub fn draw_placed(
    alloc: Global,
    placement: &Placement,
    netlist: &Netlist,
    library: &Library,
) -> Result<Figure, AllocError>
    requires placed { IsRowPlacementOf library.now netlist.now placement.now }
    ensures { IfOk result (λ f. IsDrawnPlaced library.now netlist.now placement.now f) }
{
    let _ = library;
    placements_are_in_rows();
    routes_keep_nets();
    let items = placed_lines(alloc, netlist, placement)?;
    let name = netlist.name().copy(alloc)?;
    Ok(Figure {
        name: Some(Name::scalar(name)),
        bounds: grid_box(placement.width(), placement.rows().len()),
        items,
    })
}

/// Draws a netlist that is placed in rows, with routes of its nets: the ports of vss and vdd, the other ports in the order of names,
/// the instances, rails and straps of the supplies, and the nets by their numbers, each with its wires and then its vias. Nothing is
/// drawn at a signal pin that is tied to vdd or vss. Takes memory for the lines, for the points of nets, and for wires and vias; and time
/// for each, times a logarithm.
pub fn draw(
    alloc: Global,
    placement: &Placement,
    netlist: &Netlist,
    library: &Library,
    routes: &Routes,
) -> Result<Figure, AllocError>
    requires placed { IsRowPlacementOf library.now netlist.now placement.now }
    requires columns { placement.now.width / pitch < 4294967295 }
    requires routes { AreDrawable library.now netlist.now placement.now (tree_in routes.now) }
    ensures { IfOk result (λ f. IsDrawnInGrid library.now netlist.now placement.now (tree_in routes.now) f) }
{
    placements_are_in_rows();
    routes_keep_nets();
    routes_show_netlist();
    let points = net_points(alloc, placement, netlist, library)?;
    let nets = all_wires(alloc, &points, routes)?;
    let items = grid_lines(alloc, netlist, placement, &nets)?;
    let name = netlist.name().copy(alloc)?;
    Ok(Figure {
        name: Some(Name::scalar(name)),
        bounds: grid_box(placement.width(), placement.rows().len()),
        items,
    })
}

/// Adds a mark at each point of each net, behind all lines of a figure: an R line with `ref_con` and the net's number behind an `n`.
/// So a partial layout shows which terminals its routes yet have to join. Takes memory for the points and the lines.
pub fn mark(
    alloc: Global,
    figure: Figure,
    placement: &Placement,
    netlist: &Netlist,
    library: &Library,
) -> Result<Figure, AllocError>
    requires placed { IsRowPlacementOf library.now netlist.now placement.now }
    requires columns { placement.now.width / pitch < 4294967295 }
    ensures { IfOk result (λ f. IsMarked library.now netlist.now placement.now figure f) }
{
    let _ = placement.count();
    let points = net_points(alloc, placement, netlist, library)?;
    let Figure {
        name,
        bounds,
        mut items,
    } = figure;
    push_all_marks(alloc, &mut items, &points)?;
    Ok(Figure {
        name,
        bounds,
        items,
    })
}
