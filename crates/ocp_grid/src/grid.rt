// The grid over the rows of a placement.
ghost use Rattle.std.specs.Prelude.{◌≡◌, ◌<◌, ◌≤◌, ◌/◌, length};
ghost use Rattle.sym_geom.specs.declared.grid.TheConstants.{PITCH as pitch};
ghost use Rattle.cell_model.specs.Library.{Library as Cells};
ghost use Rattle.net_meaning.specs.Netlist.{AbstractNetlist};
ghost use Rattle.ocp_place.specs.Placed.{AreRowsOf};
ghost use Rattle.ocp_grid.specs.Points.{grid_of};

use grid_core::Grid;
use ocp_place::Placement;
use sym_geom::{PITCH, ROW_HEIGHT};

/// The grid over the rows of a placement, from metal 2 up to this one: columns from where cells begin to the end of the block, and rows
/// from the block's foot to that of the ports. Takes no memory.
pub fn grid_over(placement: &Placement, metals: u8) -> Grid
    requires columns { placement.now.width / pitch < 4294967295 }
    requires rows { length placement.now.rows ≤ 256 }
    ensures { (l : Cells) (k : AbstractNetlist) → AreRowsOf k l placement.now → result ≡ grid_of metals k l placement.now }
{
    let columns = placement.width() / u64::from(PITCH) + 1;
    let rows = u64::from(ROW_HEIGHT / PITCH) * placement.rows().len() as u64 + 2;
    Grid {
        metals,
        columns: columns as u32,
        rows: rows as u32,
    }
}
