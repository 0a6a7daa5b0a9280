// Exchanges of neighbours, as long as one lowers the length.
ghost use Rattle.std.specs.Prelude.{◌≡◌, ◌<◌, ◌≤◌, ◌+◌, ℕ, false, length};
ghost use Rattle.row_meaning.specs.Rows.{row_at, exchanged, HaveSameCells};
ghost use Rattle.row_meaning.specs.Length.{block_of, hp, IsStable};
ghost use Rattle.row_descent.specs.Tables.{rows_of, IsReady};
ghost use Rattle.row_descent.specs.Steps.{IsStep};

use crate::table::{Table, lowers, places};
use row_meaning::Cells;

/// Exchanges the cell at a place of a row and the next one where that lowers the length; the latter then goes on to the left as long
/// as that lowers it again. Says whether there was an exchange.
fn sink(rows: &mut [Vec<u32>], cells: &Cells, table: &mut Table, row: usize, place: usize) -> bool
    requires row { row < length rows.old }
    requires place { place + 1 < length (row_at (rows_of rows.old) row) }
    requires ready { IsReady (block_of cells.now) (rows_of rows.old) table.old }
    ensures ready { IsReady (block_of cells.now) (rows_of rows.new) table.new }
    ensures step { IsStep (block_of cells.now) (rows_of rows.old) (rows_of rows.new) result }
    ensures stays { result ≡ false → hp (block_of cells.now) (rows_of rows.old) ≤ hp (block_of cells.now) (exchanged (rows_of rows.old) row place) }
{
    if !lowers(rows, cells, table, row, place) {
        return false;
    }
    for left in (0..place).rev() {
        if !lowers(rows, cells, table, row, left) {
            break;
        }
    }
    true
}

/// Does so at each place of a row, from the left to the right. Says whether there was an exchange.
fn sweep_row(rows: &mut [Vec<u32>], cells: &Cells, table: &mut Table, row: usize) -> bool
    requires row { row < length rows.old }
    requires ready { IsReady (block_of cells.now) (rows_of rows.old) table.old }
    ensures ready { IsReady (block_of cells.now) (rows_of rows.new) table.new }
    ensures step { IsStep (block_of cells.now) (rows_of rows.old) (rows_of rows.new) result }
    ensures stays { result ≡ false → (k : ℕ) → k + 1 < length (row_at (rows_of rows.old) row)
        → hp (block_of cells.now) (rows_of rows.old) ≤ hp (block_of cells.now) (exchanged (rows_of rows.old) row k) }
{
    let mut changed = false;
    for place in 0..places(rows, row).saturating_sub(1) {
        if sink(rows, cells, table, row, place) {
            changed = true;
        }
    }
    changed
}

/// Does so in each row. Says whether there was an exchange.
fn sweep(rows: &mut [Vec<u32>], cells: &Cells, table: &mut Table) -> bool
    requires { IsReady (block_of cells.now) (rows_of rows.old) table.old }
    ensures ready { IsReady (block_of cells.now) (rows_of rows.new) table.new }
    ensures step { IsStep (block_of cells.now) (rows_of rows.old) (rows_of rows.new) result }
    ensures stable { result ≡ false → IsStable (hp (block_of cells.now)) (rows_of rows.new) }
{
    let mut changed = false;
    for row in 0..rows.len() {
        if sweep_row(rows, cells, table, row) {
            changed = true;
        }
    }
    changed
}

/// Does so again and again, until there is no exchange. Each time before lowers the length, so this ends.
pub(crate) fn descend(rows: &mut [Vec<u32>], cells: &Cells, table: &mut Table)
    requires { IsReady (block_of cells.now) (rows_of rows.old) table.old }
    ensures stable { IsStable (hp (block_of cells.now)) (rows_of rows.new) }
    ensures lower { hp (block_of cells.now) (rows_of rows.new) ≤ hp (block_of cells.now) (rows_of rows.old) }
    ensures same { HaveSameCells (rows_of rows.old) (rows_of rows.new) }
{
    while sweep(rows, cells, table) {}
}
