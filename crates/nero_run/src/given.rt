// What is to be routed, as it is read.
ghost use Rattle.std.specs.Prelude.{[], ℕ, List, None, get_or, false, IfOk, IfErr};
ghost use Rattle.cell_lib.specs.Library.{IsLibraryOf, IsRead};
ghost use Rattle.ocp_place.specs.Placed.{IsRowPlacementOf};
ghost use Rattle.ocp_grid.specs.Points.{HasFewNodes};
ghost use Rattle.tool_drive.specs.Table.{IsFair};
ghost use Rattle.nero_run.specs.Nero.{texts, IsRoutable, IsPlainRefusal};

use crate::placed::{check_nodes, read_placement};
use crate::words::NeroCommand;
use cell_checks::Library;
use cell_pins::pin_table;
use net_core::Netlist;
use ocp_place::Placement;
use ocp_run::{read_source, source_law};
use std::alloc::Global;
use tool_drive::{Status, bytes_at};
use vlsi_base::FileBytes;

/// A netlist, and a placement of it.
#[derive(Drop)]
pub struct Given {
    pub netlist: Netlist,
    pub placement: Placement,
}

/// The netlist in SOURCE and its placement in PLACED, of which the grid over the rows isn't too large; or the status of the first that
/// is refused, in this order. `first` has what stands in these files. Takes memory for the pins of the library, netlist and placement.
pub fn read_given(
    alloc: Global,
    command: &NeroCommand,
    library: &Library,
    first: &[FileBytes],
) -> Result<Given, Status>
    requires { IsRead library.now }
    ensures placed { IfOk result (λ g. IsRowPlacementOf library.now g.netlist g.placement) }
    ensures few { IfOk result (λ g. HasFewNodes library.now g.netlist g.placement command.now.metals) }
    ensures given { IfOk result (λ g. (more : List (List ℕ)) → IsLibraryOf false (get_or first.now 2 []) more library.now
        → IsRoutable command.now (texts first.now more) library.now g.netlist g.placement) }
    ensures refused { IfErr result (λ s. (more : List (List ℕ)) → IsLibraryOf false (get_or first.now 2 []) more library.now
        → IsFair s None (IsPlainRefusal command.now (texts first.now more) s)) }
{
    source_law();
    let Ok(table) = pin_table(alloc, library, false) else {
        return Err(Status::Memory);
    };
    let netlist = match read_source(alloc, &command.source, bytes_at(first, 0), &table) {
        Ok(netlist) => netlist,
        Err(status) => return Err(status),
    };
    let placed = read_placement(
        alloc,
        &command.placed,
        bytes_at(first, 1),
        &netlist,
        library,
    );
    let placement = match placed {
        Ok(placement) => placement,
        Err(status) => return Err(status),
    };
    match check_nodes(&placement, command.metals) {
        Ok(()) => Ok(Given { netlist, placement }),
        Err(status) => Err(status),
    }
}
