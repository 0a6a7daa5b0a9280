// Rows are made shorter: by moves, and then by a descent.
ghost use Rattle.std.specs.Prelude.{◌≡◌, ◌<◌, length, OnOk, OnErr};
ghost use Rattle.row_meaning.specs.Length.{block_of};
ghost use Rattle.row_descent.specs.Steps.{IsImproved};
ghost use Rattle.row_descent.specs.Tables.{rows_of, IsBlock, AreRowsOf, AreNarrow};

use crate::descent::descend;
use crate::moves::try_moves;
use crate::table::Table;
use row_meaning::Cells;
use std::alloc::{AllocError, Global};

/// Makes rows of cells shorter: so many random moves by the words of the generator with this seed, and then exchanges of neighbours,
/// as long as one lowers the length. Takes memory for each cell and each pin; where there is none, the rows stay as they are.
pub fn improve(
    alloc: Global,
    rows: &mut [Vec<u32>],
    cells: &Cells,
    seed: u64,
    moves: u32,
) -> Result<(), AllocError>
    requires some { 0 < length rows.old }
    requires block { IsBlock (block_of cells.now) }
    requires rows { AreRowsOf (block_of cells.now) (rows_of rows.old) }
    requires narrow { AreNarrow (block_of cells.now) (rows_of rows.old) }
    ensures improved { OnOk result (IsImproved (block_of cells.now) seed moves (rows_of rows.old) (rows_of rows.new)) }
    ensures unchanged { OnErr result (rows.new ≡ rows.old) }
{
    let mut table = Table::begin(alloc, rows, cells)?;
    try_moves(rows, cells, &mut table, seed, moves);
    descend(rows, cells, &mut table);
    Ok(())
}
