// The routes of all nets of a placed netlist.
ghost use Rattle.std.specs.Prelude.{◌≤◌, IfOk, IfErr};
ghost use Rattle.grid_core.specs.Shown.{tree_in};
ghost use Rattle.ocp_place.specs.Placed.{IsRowPlacementOf};
ghost use Rattle.ocp_grid.specs.Points.{HasFewNodes};
ghost use Rattle.nero_nets.specs.Answers.{AreRouted, IsRefusal};

use crate::error::RouteError;
use crate::terminals::net_terminals;
use cell_checks::Library;
use grid_core::Routes;
use maze_nets::{RouteError as Unrouted, route_nets};
use net_core::Netlist;
use ocp_grid::{grid_over, net_points, placements_are_in_rows, points_are_apart};
use ocp_place::Placement;
use std::alloc::Global;

/// The routes of all nets of a netlist that is placed in rows, on the metals from 2 up to this one: by half perimeter, then by number,
/// each by least paths from its first point on, beside the trees of those before it and what is reserved for others. Refused exactly
/// where a net gets stuck so. Takes 19 bytes for each node of the grid, and memory for terminals and routes.
pub fn route_all(
    alloc: Global,
    placement: &Placement,
    netlist: &Netlist,
    library: &Library,
    metals: u8,
) -> Result<Routes, RouteError>
    requires placed { IsRowPlacementOf library.now netlist.now placement.now }
    requires some { 3 ≤ metals }
    requires few { HasFewNodes library.now netlist.now placement.now metals }
    ensures routed { IfOk result (λ r. AreRouted library.now netlist.now placement.now metals (tree_in r)) }
    ensures refused { IfErr result (λ e. IsRefusal library.now netlist.now placement.now metals e) }
{
    placements_are_in_rows();
    points_are_apart();
    let _ = netlist.classes();
    let grid = grid_over(placement, metals);
    let points = net_points(alloc, placement, netlist, library)?;
    match route_nets(alloc, grid, &points) {
        Ok(routes) => Ok(routes),
        Err(Unrouted::Memory) => Err(RouteError::Memory),
        Err(Unrouted::NoPath { net, point, so_far }) => {
            let mut terminals = net_terminals(alloc, placement, netlist, library, net)?;
            Err(RouteError::NoPath {
                net,
                terminal: terminals.swap_remove(point),
                so_far,
            })
        }
    }
}
