// The figure of a netlist with private tracks.
ghost use Rattle.std.specs.Prelude.{◌≡◌, ◌++◌, ◌≤◌, ◌<◌, ◌+◌, ◌^◌, false, pos, length, IfOk};
ghost use Rattle.cell_checks.specs.Checked.{IsChecked as HasPassed};
ghost use Rattle.ocp_rows.specs.Placement.{supply_ports, track_ports, track_y};
ghost use Rattle.ocp_place.specs.Placed.{IsPlacementOf};
ghost use Rattle.ocp_place.specs.Drawable.{IsDrawableIn};
ghost use Rattle.nero_tracks.specs.Columns.{HaveOwnColumns};
ghost use Rattle.nero_tracks.specs.Tracks.{AreTracks};
ghost use Rattle.sym_geom.specs.declared.grid.TheConstants.{PITCH as pitch, FIRST_CELL_X as first_x};
ghost use Rattle.route_draw.specs.Pieces.{signal_names, instance_lines, row_supplies, all_lines};
ghost use Rattle.route_draw.specs.Drawn.{IsDrawnInTracks};

use crate::grid_rows::push_supplies;
use crate::nets::push_nets;
use crate::row::{push_instances, push_supply_ports, push_track_ports, signal_names, track_y};
use ap_io::Figure;
use cell_checks::Library;
use nero_tracks::Track;
use net_core::Netlist;
use ocp_place::Placement;
use std::alloc::{AllocError, Global};
use sym_geom::{FIRST_CELL_X, Items, PITCH, Rect};
use vlsi_base::Name;

/// The box of a figure whose row is so wide, with so many tracks.
fn track_box(width: u64, tracks: usize) -> Rect
    requires width { width ≤ 70000000000000 }
    requires few { tracks < 2 ^ 32 }
    ensures left { result.x1 ≡ pos 0 }
    ensures low { result.y1 ≡ pos 0 }
    ensures right { result.x2 ≡ pos (first_x + pitch + width) }
    ensures high { result.y2 ≡ track_y tracks }
{
    let right = u64::from(FIRST_CELL_X) + u64::from(PITCH) + width;
    Rect {
        x1: 0,
        y1: 0,
        x2: right as i64,
        y2: track_y(tracks) as i64,
    }
}

/// All lines of the figure.
fn lines(
    alloc: Global,
    netlist: &Netlist,
    placement: &Placement,
    tracks: &[Track],
) -> Result<Items, AllocError>
    requires starts { length placement.now.starts ≡ length netlist.now.instances }
    requires names { length (signal_names netlist.now.ports) < 2 ^ 32 }
    requires few { length tracks.now < 2 ^ 32 }
    requires tracks { AreTracks placement.now tracks.now }
    ensures { IfOk result (λ items. items ≡ supply_ports ++ (track_ports 0 (signal_names netlist.now.ports)
        ++ (instance_lines netlist.now.instances placement.now.starts ++ (row_supplies placement.now.width
        ++ all_lines 0 (signal_names netlist.now.ports) placement.now tracks.now)))) }
{
    let names = signal_names(alloc, netlist.ports())?;
    let mut items = Items::new(Vec::new(alloc));
    push_supply_ports(alloc, &mut items)?;
    push_track_ports(alloc, &mut items, &names)?;
    push_instances(
        alloc,
        &mut items,
        netlist.models(),
        netlist.nodes(),
        placement.starts(),
    )?;
    push_supplies(alloc, &mut items, placement.width(), 1)?;
    push_nets(alloc, &mut items, &names, placement, tracks)?;
    Ok(items)
}

/// Draws a placed netlist with private tracks: the ports of vss and vdd, the other ports in the order of names, the instances, the
/// rails and straps of the supplies, and the nets by their numbers, each with its track and its terminals. Nothing is drawn at a signal
/// pin that is tied to vdd or vss. Takes memory for the lines, and time for each.
pub fn draw_tracks(
    alloc: Global,
    placement: &Placement,
    netlist: &Netlist,
    library: &Library,
    tracks: &[Track],
) -> Result<Figure, AllocError>
    requires library { HasPassed false library.now }
    requires netlist { IsDrawableIn library.now netlist.now }
    requires columns { HaveOwnColumns library.now netlist.now }
    requires placement { IsPlacementOf library.now netlist.now placement.now }
    requires tracks { AreTracks placement.now tracks.now }
    ensures { IfOk result (λ f. IsDrawnInTracks library.now netlist.now f) }
{
    let _ = library;
    let _ = placement.count();
    let items = lines(alloc, netlist, placement, tracks)?;
    let name = netlist.name().copy(alloc)?;
    Ok(Figure {
        name: Some(Name::scalar(name)),
        bounds: track_box(placement.width(), tracks.len()),
        items,
    })
}
