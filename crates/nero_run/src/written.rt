// The text of a layout in rows: routed, drawn and written.
ghost use Rattle.std.specs.Prelude.{◌≡◌, ◌≤◌, ◌<◌, ◌/◌, IfOk, IfErr};
ghost use Rattle.sym_geom.specs.declared.grid.TheConstants.{PITCH as pitch};
ghost use Rattle.grid_core.specs.Shown.{tree_in};
ghost use Rattle.ocp_place.specs.Placed.{IsRowPlacementOf};
ghost use Rattle.ocp_grid.specs.Points.{HasFewNodes};
ghost use Rattle.route_draw.specs.Grid.{AreDrawable};
ghost use Rattle.nero_run.specs.RowText.{IsTextOf, IsMarkedText, IsRoutedText, LacksRoutes, IsRefusedSo};

use ap_io::write_ap;
use cell_checks::Library;
use grid_core::Routes;
use nero_nets::{RouteError, route_all};
use net_core::Netlist;
use ocp_place::Placement;
use route_draw::{draw, mark};
use std::alloc::{AllocError, Global};
use tool_drive::{Refusal, Status, Written, file_name};
use vlsi_base::{FileBytes, FileName, Terminal};

/// Why a placement has no layout with whole routes: memory, or a net that has no way to a terminal, and the text that shows it.
#[derive(Drop)]
pub enum NoRoutes {
    Memory,
    NoPath {
        net: u32,
        terminal: Terminal,
        bytes: FileBytes,
    },
}

impl From<AllocError> for NoRoutes {
    ghost use Rattle.std.specs.Prelude.{◌≡◌};
    ghost use Rattle.nero_run.specs.declared.written.NoRoutes.TheVariants.{Memory};

    ghost from_gives = { λ _ e. e ≡ Memory };

    fn from(_: AllocError) -> Self {
        NoRoutes::Memory
    }
}

/// The text of the placement with these routes. Memory goes by its lines.
pub fn whole_text(
    alloc: Global,
    netlist: &Netlist,
    library: &Library,
    placement: &Placement,
    routes: &Routes,
) -> Result<FileBytes, AllocError>
    requires placed { IsRowPlacementOf library.now netlist.now placement.now }
    requires columns { placement.now.width / pitch < 4294967295 }
    requires routes { AreDrawable library.now netlist.now placement.now (tree_in routes.now) }
    ensures { IfOk result (λ bytes. IsTextOf library.now netlist.now placement.now (tree_in routes.now) bytes) }
{
    let figure = draw(alloc, placement, netlist, library, routes)?;
    write_ap(alloc, &figure)
}

/// And with a mark at each point of each net.
pub fn part_text(
    alloc: Global,
    netlist: &Netlist,
    library: &Library,
    placement: &Placement,
    routes: &Routes,
) -> Result<FileBytes, AllocError>
    requires placed { IsRowPlacementOf library.now netlist.now placement.now }
    requires columns { placement.now.width / pitch < 4294967295 }
    requires routes { AreDrawable library.now netlist.now placement.now (tree_in routes.now) }
    ensures { IfOk result (λ bytes. IsMarkedText library.now netlist.now placement.now (tree_in routes.now) bytes) }
{
    let plain = draw(alloc, placement, netlist, library, routes)?;
    let figure = mark(alloc, plain, placement, netlist, library)?;
    write_ap(alloc, &figure)
}

/// The bytes of NAME.ap for a placement: its nets are routed on the metals from 2 up to this one, drawn with it, and written. Where a net
/// gets stuck, the bytes that show it: the routes so far, and a mark at each point of each net. Memory goes by the nodes of the grid over
/// the rows and by the lines of the layout.
pub fn row_text(
    alloc: Global,
    netlist: &Netlist,
    library: &Library,
    placement: &Placement,
    metals: u8,
) -> Result<FileBytes, NoRoutes>
    requires placed { IsRowPlacementOf library.now netlist.now placement.now }
    requires metals { (4 ≤ metals) × (metals ≤ 6) }
    requires few { HasFewNodes library.now netlist.now placement.now metals }
    ensures text { IfOk result (λ bytes. IsRoutedText library.now netlist.now placement.now metals bytes) }
    ensures none { IfErr result (λ e. LacksRoutes library.now netlist.now placement.now metals e) }
{
    match route_all(alloc, placement, netlist, library, metals) {
        Ok(routes) => Ok(whole_text(alloc, netlist, library, placement, &routes)?),
        Err(RouteError::Memory) => Err(NoRoutes::Memory),
        Err(
            RouteError::NoPath {
                net,
                terminal,
                so_far,
            },
        ) => {
            let bytes = part_text(alloc, netlist, library, placement, &so_far)?;
            Err(NoRoutes::NoPath {
                net,
                terminal,
                bytes,
            })
        }
    }
}

/// The refusal of a placement without whole routes: memory, or `NoPath`, which leaves the bytes in NAME_part.ap. Takes memory for this
/// name.
pub fn refusal(alloc: Global, out: &FileName, none: NoRoutes) -> Refusal
    ensures { IsRefusedSo out.now none result }
{
    let NoRoutes::NoPath {
        net,
        terminal,
        bytes,
    } = none
    else {
        return Refusal::plain(Status::Memory);
    };
    let Ok(name) = file_name(alloc, out, b"_part.ap") else {
        return Refusal::plain(Status::Memory);
    };
    Refusal {
        status: Status::NoPath { net, terminal },
        part: Some(Written { name, bytes }),
    }
}
