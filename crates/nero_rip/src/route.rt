// The routes of all nets of a placed netlist, with rips.
ghost use Rattle.std.specs.Prelude.{◌≡◌, ◌≤◌, ◌<◌, Some, IfOk, IfErr, slice_get, length};
ghost use Rattle.vlsi_base.specs.Member.{In};
ghost use Rattle.maze_rips.specs.declared.rip.PointRip.{PointRip as AnyRip};
ghost use Rattle.net_meaning.specs.Netlist.{AbstractNetlist as Seen};
ghost use Rattle.net_right.specs.View.{IsSeenAs};
ghost use Rattle.grid_core.specs.Shown.{tree_in};
ghost use Rattle.ocp_rows.specs.Placement.{net_count};
ghost use Rattle.ocp_place.specs.Nets.{net_number};
ghost use Rattle.ocp_place.specs.Placed.{IsRowPlacementOf, rows_of, stood_in};
ghost use Rattle.ocp_grid.specs.Points.{HasFewNodes};
ghost use Rattle.nero_nets.specs.Routed.{net_terminals};
ghost use Rattle.nero_rip.specs.Rips.{AreNamed};
ghost use Rattle.nero_rip.specs.Answers.{AreRerouted, IsRefusal};

use crate::error::RipError;
use crate::rip::{Rerouted, Rip, Rips};
use cell_checks::Library;
use maze_rips::{PointRip, RipError as Unrouted, route_nets_with_rips};
use nero_nets::net_terminals;
use net_core::Netlist;
use ocp_grid::{grid_over, net_points, placements_are_in_rows, points_are_apart};
use ocp_place::Placement;
use std::alloc::{AllocError, Global};
use vlsi_base::Terminal;

/// The terminal of a net whose point has this number.
fn terminal_at(
    alloc: Global,
    placement: &Placement,
    netlist: &Netlist,
    library: &Library,
    net: u32,
    point: usize,
) -> Result<Terminal, AllocError>
    requires placed { IsRowPlacementOf library.now netlist.now placement.now }
    requires there { (k : Seen) → IsSeenAs netlist.now k → net < net_count k }
    requires point { (k : Seen) → IsSeenAs netlist.now k
        → point < length (net_terminals k library.now (net_number k library.now) (rows_of k placement.now) (stood_in k placement.now) net) }
    ensures { IfOk result (λ t. (k : Seen) → IsSeenAs netlist.now k
        → slice_get (net_terminals k library.now (net_number k library.now) (rows_of k placement.now) (stood_in k placement.now) net) point ≡ Some t) }
{
    let mut terminals = net_terminals(alloc, placement, netlist, library, net)?;
    Ok(terminals.swap_remove(point))
}

/// The rips, with the terminals of their points.
fn name_rips(
    alloc: Global,
    placement: &Placement,
    netlist: &Netlist,
    library: &Library,
    made: &[PointRip],
) -> Result<Rips, AllocError>
    requires placed { IsRowPlacementOf library.now netlist.now placement.now }
    requires there { (r : AnyRip) → In r made.now → (k : Seen) → IsSeenAs netlist.now k → (r.net < net_count k)
        × (r.point < length (net_terminals k library.now (net_number k library.now) (rows_of k placement.now) (stood_in k placement.now) r.net)) }
    ensures { IfOk result (λ rips. (k : Seen) → IsSeenAs netlist.now k
        → AreNamed (net_terminals k library.now (net_number k library.now) (rows_of k placement.now) (stood_in k placement.now)) made.now rips) }
{
    let mut rips = Vec::new(alloc);
    for rip in made {
        let terminal = terminal_at(alloc, placement, netlist, library, rip.net, rip.point)?;
        rips.push(Rip {
            net: rip.net,
            terminal,
            torn: rip.torn,
        })?;
    }
    Ok(Rips::new(rips))
}

/// The routes of all nets of a netlist that is placed in rows, on the metals from 2 up to this one: by half perimeter, then by number,
/// each by least paths from its first point on, beside all other trees and what is reserved for others. Where a net is stuck, a least path
/// is sought past the trees of other nets, and the paths of the first net on it are torn out; then the stuck net goes on until it is whole,
/// and then the first in the order that isn't. Refused exactly where a net is stuck so and as many rips were made as are allowed, or no
/// path leads there past all other trees either. Takes 19 bytes for each node of the grid, and memory for terminals, routes and rips.
pub fn route_with_rips(
    alloc: Global,
    placement: &Placement,
    netlist: &Netlist,
    library: &Library,
    metals: u8,
    allowed: u32,
) -> Result<Rerouted, RipError>
    requires placed { IsRowPlacementOf library.now netlist.now placement.now }
    requires some { 3 ≤ metals }
    requires few { HasFewNodes library.now netlist.now placement.now metals }
    ensures routed { IfOk result (λ r. AreRerouted library.now netlist.now placement.now metals allowed r.rips (tree_in r.routes)) }
    ensures refused { IfErr result (λ e. IsRefusal library.now netlist.now placement.now metals allowed e) }
{
    placements_are_in_rows();
    points_are_apart();
    let _ = netlist.classes();
    let grid = grid_over(placement, metals);
    let points = net_points(alloc, placement, netlist, library)?;
    match route_nets_with_rips(alloc, grid, &points, allowed) {
        Ok(routed) => Ok(Rerouted {
            routes: routed.routes,
            rips: name_rips(alloc, placement, netlist, library, &routed.rips)?,
        }),
        Err(Unrouted::Memory) => Err(RipError::Memory),
        Err(
            Unrouted::NoPath {
                net,
                point,
                so_far,
                rips,
            },
        ) => {
            let terminal = terminal_at(alloc, placement, netlist, library, net, point)?;
            let named = name_rips(alloc, placement, netlist, library, &rips)?;
            Err(RipError::NoPath {
                net,
                terminal,
                so_far,
                rips: named,
            })
        }
    }
}
