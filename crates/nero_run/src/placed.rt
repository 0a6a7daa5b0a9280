// The placement that is to be routed, as it is read.
ghost use Rattle.std.specs.Prelude.{◌≡◌, ◌≤◌, length, false, IfOk, IfErr, OnOk};
ghost use Rattle.cell_model.specs.Library.{Library as Cells};
ghost use Rattle.cell_checks.specs.Checked.{IsChecked as HasPassed};
ghost use Rattle.net_core.specs.Netlist.{Netlist as InMemory};
ghost use Rattle.net_meaning.specs.Netlist.{AbstractNetlist};
ghost use Rattle.ocp_place.specs.Drawable.{IsDrawableIn};
ghost use Rattle.ocp_place.specs.Placed.{AreRowsOf, IsRowPlacementOf};
ghost use Rattle.grid_core.specs.Numbers.{nodes};
ghost use Rattle.ocp_grid.specs.Points.{grid_of, HasFewNodes};
ghost use Rattle.tool_drive.specs.Refusals.{MemoryOr};
ghost use Rattle.nero_run.specs.Nero.{IsPlacementIn, IsUnplaced, IsOverGrid};

use ap_io::read_ap;
use cell_checks::Library;
use net_core::Netlist;
use ocp_figure::{PlaceError, of_figure};
use ocp_place::Placement;
use std::alloc::Global;
use sym_geom::{PITCH, ROW_HEIGHT};
use tool_drive::{Status, refused, whole_fault};
use vlsi_base::{FaultKind, FileName, Limit, LimitKind};

// A number of nodes is one of 32 bits, and one of these stands for none.
const MOST_NODES: u64 = 4_294_967_294;

/// The placement of the netlist in the bytes of a file, which is its drawing without routes.
pub(crate) fn read_placement(
    alloc: Global,
    file: &FileName,
    bytes: &[u8],
    netlist: &Netlist,
    library: &Library,
) -> Result<Placement, Status>
    requires library { HasPassed false library.now }
    requires netlist { IsDrawableIn library.now netlist.now }
    ensures placed { IfOk result (λ p. IsPlacementIn bytes.now library.now netlist.now p) }
    ensures refused { IfErr result (λ s. MemoryOr s (IsUnplaced file.now bytes.now library.now netlist.now s)) }
{
    let figure = match read_ap(alloc, bytes) {
        Ok(figure) => figure,
        Err(error) => return Err(refused(alloc, file, error)),
    };
    match of_figure(alloc, &figure, netlist, library) {
        Ok(placement) => Ok(placement),
        Err(PlaceError::Memory) => Err(Status::Memory),
        Err(PlaceError::NotPlaced) => Err(whole_fault(
            alloc,
            file,
            FaultKind::NotPlaced,
            Vec::new(alloc),
        )),
    }
}

// How many nodes the grid over the rows has, from metal 2 up to this one.
fn grid_nodes(placement: &Placement, metals: u32) -> u64
    requires rows { length placement.now.rows ≤ 256 }
    requires metals { (4 ≤ metals) × (metals ≤ 6) }
    ensures { (l : Cells) (k : AbstractNetlist) → AreRowsOf k l placement.now → result ≡ nodes (grid_of metals k l placement.now) }
{
    let columns = placement.width() / u64::from(PITCH) + 1;
    let rows = u64::from(ROW_HEIGHT / PITCH) * placement.rows().len() as u64 + 2;
    columns * rows * u64::from(metals - 1)
}

/// Whether the grid over the rows of a placement has few enough nodes to be routed on, or the status that tells how many it has. Takes
/// no memory.
pub(crate) fn check_nodes(placement: &Placement, metals: u32) -> Result<(), Status>
    requires rows { length placement.now.rows ≤ 256 }
    requires metals { (4 ≤ metals) × (metals ≤ 6) }
    ensures few { OnOk result ((l : Cells) (n : InMemory) → IsRowPlacementOf l n placement.now → HasFewNodes l n placement.now metals) }
    ensures many { IfErr result (λ s. (l : Cells) (n : InMemory) → IsRowPlacementOf l n placement.now → IsOverGrid l n placement.now metals s) }
{
    let nodes = grid_nodes(placement, metals);
    if nodes <= MOST_NODES {
        return Ok(());
    }
    Err(Status::Limit(Limit {
        which: LimitKind::Size,
        reached: nodes,
    }))
}
