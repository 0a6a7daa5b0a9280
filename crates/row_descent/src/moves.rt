// Random moves that don't raise the length.
ghost use Rattle.std.specs.Prelude.{◌≡◌, ◌<◌, length};
ghost use Rattle.row_meaning.specs.Length.{block_of, hp};
ghost use Rattle.row_meaning.specs.Tried.{moved, tried};
ghost use Rattle.row_descent.specs.Tables.{rows_of, IsReady};

use crate::table::{Table, places, try_exchange};
use rand_core::SeedableRng;
use rand_core::utils::NextWord;
use rand_pcg::Pcg32;
use row_meaning::Cells;

/// The move by two words: the first says in which row, the second at which place.
fn make_move(rows: &mut [Vec<u32>], cells: &Cells, table: &mut Table, u: u32, v: u32)
    requires some { 0 < length rows.old }
    requires ready { IsReady (block_of cells.now) (rows_of rows.old) table.old }
    ensures rows { rows_of rows.new ≡ moved (hp (block_of cells.now)) u v (rows_of rows.old) }
    ensures ready { IsReady (block_of cells.now) (rows_of rows.new) table.new }
{
    let row = u as usize % rows.len();
    let many = places(rows, row);
    if many >= 2 {
        try_exchange(rows, cells, table, row, v as usize % (many - 1));
    }
}

/// So many moves, by the words of the generator with this seed.
pub(crate) fn try_moves(
    rows: &mut [Vec<u32>],
    cells: &Cells,
    table: &mut Table,
    seed: u64,
    moves: u32,
)
    requires some { 0 < length rows.old }
    requires ready { IsReady (block_of cells.now) (rows_of rows.old) table.old }
    ensures rows { rows_of rows.new ≡ tried (hp (block_of cells.now)) seed moves (rows_of rows.old) }
    ensures ready { IsReady (block_of cells.now) (rows_of rows.new) table.new }
{
    let mut generator = Pcg32::seed_from_u64(seed);
    for made in 0..moves {
        let u = generator.next_word();
        let v = generator.next_word();
        make_move(rows, cells, table, u, v);
    }
}
