// A placement in rows is made shorter.
ghost use Rattle.std.specs.Prelude.{◌≡◌, ◌<◌, length, IfOk};
ghost use Rattle.row_meaning.specs.Length.{block_of};
ghost use Rattle.row_descent.specs.Steps.{IsImproved};
ghost use Rattle.row_descent.specs.Tables.{rows_of, IsBlock, AreRowsOf, AreNarrow};
ghost use Rattle.ocp_place.specs.Placed.{IsRowPlacementOf, IsEvenPlacement};
ghost use Rattle.ocp_anneal.specs.Improved.{IsImprovedPlacement};

use crate::cells::numbered;
use cell_checks::Library;
use net_core::Netlist;
use ocp_place::{Placement, place_in_rows};
use row_bridge::{
    alike_can_be_improved, improved_above, improved_hold_each_once, nets_are_alike,
    placed_can_be_improved,
};
use row_descent::{improve as improve_rows, improved_alike};
use row_meaning::Cells;
use std::alloc::{AllocError, Global};

/// Random moves: how many, and the seed of their words.
#[derive(Clone, Copy)]
pub struct Moves {
    pub many: u32,
    pub seed: u32,
}

/// The same rows once more.
fn copied(alloc: Global, rows: &[Vec<u32>]) -> Result<Vec<Vec<u32>>, AllocError>
    ensures { IfOk result (λ copy. rows_of copy.items ≡ rows_of rows.now) }
{
    let mut copy = Vec::new(alloc);
    for row in rows {
        let mut own = Vec::new(alloc);
        own.extend_from_slice(row)?;
        copy.push(own)?;
    }
    Ok(copy)
}

/// Other rows of the same cells, with shorter nets. Takes memory for each cell and each pin.
fn shortened(
    alloc: Global,
    rows: &[Vec<u32>],
    cells: &Cells,
    moves: Moves,
) -> Result<Vec<Vec<u32>>, AllocError>
    requires some { 0 < length rows.now }
    requires block { IsBlock (block_of cells.now) }
    requires rows { AreRowsOf (block_of cells.now) (rows_of rows.now) }
    requires narrow { AreNarrow (block_of cells.now) (rows_of rows.now) }
    ensures { IfOk result (λ new. IsImproved (block_of cells.now) moves.seed moves.many (rows_of rows.now) (rows_of new.items)) }
{
    let mut new = copied(alloc, rows)?;
    improve_rows(alloc, &mut new, cells, u64::from(moves.seed), moves.many)?;
    Ok(new)
}

/// Makes the nets of a placement in rows shorter: after so many random moves, exchanges of neighbours are made as long as one makes them
/// shorter. As many rows stay, and an even placement stays even. Takes memory for each instance and each terminal, and for the shapes
/// of the cells in use.
pub fn improve(
    alloc: Global,
    placement: &Placement,
    netlist: &Netlist,
    library: &Library,
    moves: Moves,
) -> Result<Placement, AllocError>
    requires placed { IsRowPlacementOf library.now netlist.now placement.now }
    ensures placed { IfOk result (λ p. IsRowPlacementOf library.now netlist.now p) }
    ensures improved { IfOk result (λ p. IsImprovedPlacement library.now netlist.now moves.seed moves.many placement.now p) }
    ensures even { IfOk result (λ p. IsEvenPlacement library.now netlist.now placement.now → IsEvenPlacement library.now netlist.now p) }
    ensures many { IfOk result (λ p. length p.rows ≡ length placement.now.rows) }
{
    nets_are_alike();
    improved_alike();
    improved_above();
    placed_can_be_improved();
    alike_can_be_improved();
    improved_hold_each_once();
    let _ = placement.width();
    let _ = netlist.count();
    let cells = numbered(alloc, placement, netlist, library)?;
    let rows = shortened(alloc, placement.rows(), &cells, moves)?;
    let improved = place_in_rows(alloc, netlist, library, rows)?;
    Ok(improved)
}
