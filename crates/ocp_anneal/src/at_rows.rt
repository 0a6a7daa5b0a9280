// The placement of a netlist, in rows that are asked for or that make a square block.
ghost use Rattle.std.specs.Prelude.{◌≡◌, ◌≤◌, false, IfOk, IfSome};
ghost use Rattle.cell_checks.specs.Checked.{IsChecked as HasPassed};
ghost use Rattle.net_meaning.specs.Netlist.{AbstractNetlist as Seen};
ghost use Rattle.net_right.specs.View.{IsSeenAs};
ghost use Rattle.ocp_place.specs.Drawable.{IsDrawableIn};
ghost use Rattle.ocp_place.specs.Placed.{IsRowPlacementOf, IsEvenPlacement};
ghost use Rattle.ocp_anneal.specs.Rows.{columns_of, most_rows, IsWellPlaced};

use crate::across::refined;
use crate::count::row_count;
use crate::shorter::{Moves, improve};
use cell_checks::Library;
use net_core::Netlist;
use ocp_place::{Placement, row_place, track_place};
use std::alloc::{AllocError, Global};
use sym_geom::PITCH;

/// How many columns the cells of a netlist have together: those of one row of all of them.
fn all_columns(alloc: Global, netlist: &Netlist, library: &Library) -> Result<u64, AllocError>
    requires library { HasPassed false library.now }
    requires netlist { IsDrawableIn library.now netlist.now }
    ensures { IfOk result (λ columns. (k : Seen) → IsSeenAs netlist.now k → columns ≡ columns_of k library.now) }
{
    let row = track_place(alloc, netlist, library)?;
    Ok(row.width() / u64::from(PITCH))
}

/// Places a netlist in so many rows, or in as many as make a square block: first by filling the rows in the order of instances, and then
/// by random moves and exchanges of neighbours, until none makes the nets shorter. Where there are moves, another placement is made by
/// annealing across rows, and taken where its nets are shorter. Takes memory and time for each terminal, and for the shapes of the cells
/// in use.
pub fn place(
    alloc: Global,
    netlist: &Netlist,
    library: &Library,
    rows: Option<u32>,
    moves: Moves,
) -> Result<Placement, AllocError>
    requires library { HasPassed false library.now }
    requires netlist { IsDrawableIn library.now netlist.now }
    requires rows { IfSome rows (λ r. (1 ≤ r) × (r ≤ most_rows)) }
    ensures placed { IfOk result (λ p. IsRowPlacementOf library.now netlist.now p) }
    ensures even { IfOk result (λ p. IsEvenPlacement library.now netlist.now p) }
    ensures good { IfOk result (λ p. IsWellPlaced library.now netlist.now rows moves.seed moves.many p) }
{
    let columns = all_columns(alloc, netlist, library)?;
    let count = row_count(rows, columns);
    let first = row_place(alloc, netlist, library, count)?;
    let improved = improve(alloc, &first, netlist, library, moves)?;
    let placement = refined(alloc, improved, netlist, library, moves)?;
    Ok(placement)
}
