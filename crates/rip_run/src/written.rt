// The text of a layout in rows, routed with rips.
ghost use Rattle.std.specs.Prelude.{◌≤◌, IfOk, IfErr};
ghost use Rattle.ocp_place.specs.Placed.{IsRowPlacementOf};
ghost use Rattle.ocp_grid.specs.Points.{HasFewNodes};
ghost use Rattle.rip_run.specs.RippedText.{IsRippedText, LacksRoutes};

use cell_checks::Library;
use nero_rip::{RipError, route_with_rips};
use nero_run::{NoRoutes, part_text, whole_text};
use net_core::Netlist;
use ocp_place::Placement;
use std::alloc::Global;
use vlsi_base::FileBytes;

/// The bytes of a layout, and how many rips were made for it.
#[derive(Drop)]
pub(crate) struct RippedText {
    pub(crate) bytes: FileBytes,
    pub(crate) rips: usize,
}

/// The bytes of NAME.ap for a placement: its nets are routed on the metals from 2 up to this one, with so many rips at most, drawn with
/// it, and written. Where a net is stuck and no rip helps it any more, the bytes that show it: the routes so far, and a mark at each point
/// of each net. Memory goes by the nodes of the grid over the rows, by the rips and by the lines of the layout.
pub(crate) fn ripped_text(
    alloc: Global,
    netlist: &Netlist,
    library: &Library,
    placement: &Placement,
    metals: u8,
    allowed: u32,
) -> Result<RippedText, NoRoutes>
    requires placed { IsRowPlacementOf library.now netlist.now placement.now }
    requires metals { (4 ≤ metals) × (metals ≤ 6) }
    requires few { HasFewNodes library.now netlist.now placement.now metals }
    ensures text { IfOk result (λ t. IsRippedText library.now netlist.now placement.now metals allowed t.rips t.bytes) }
    ensures none { IfErr result (λ e. LacksRoutes library.now netlist.now placement.now metals allowed e) }
{
    match route_with_rips(alloc, placement, netlist, library, metals, allowed) {
        Ok(rerouted) => Ok(RippedText {
            bytes: whole_text(alloc, netlist, library, placement, &rerouted.routes)?,
            rips: rerouted.rips.as_slice().len(),
        }),
        Err(RipError::Memory) => Err(NoRoutes::Memory),
        Err(
            RipError::NoPath {
                net,
                terminal,
                so_far,
                rips: _,
            },
        ) => {
            let bytes = part_text(alloc, netlist, library, placement, &so_far)?;
            Err(NoRoutes::NoPath {
                net,
                terminal,
                bytes,
            })
        }
    }
}
