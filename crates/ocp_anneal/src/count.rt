// How many rows cells stand in.
ghost use Rattle.std.specs.Prelude.{◌≡◌, ◌≤◌, IfSome};
ghost use Rattle.ocp_anneal.specs.Rows.{IsSquare, IsRowCount, most_rows};

/// The most rows.
const MOST_ROWS: u32 = 256;

/// How many columns high a row is.
const ROW_COLUMNS: u64 = 10;

/// The least number of rows for cells of so many columns together, whose block isn't wider than it is high.
fn square_rows(columns: u64) -> u32
    ensures { IsSquare columns result }
{
    for rows in 1..MOST_ROWS {
        if ROW_COLUMNS * u64::from(rows) * u64::from(rows) >= columns {
            return rows;
        }
    }
    MOST_ROWS
}

/// As many rows as are asked for, or else as make a square block of cells of so many columns together.
pub(crate) fn row_count(asked: Option<u32>, columns: u64) -> u32
    requires asked { IfSome asked (λ rows. (1 ≤ rows) × (rows ≤ most_rows)) }
    ensures count { IsRowCount asked columns result }
    ensures some { 1 ≤ result }
    ensures most { result ≤ most_rows }
{
    match asked {
        Some(rows) => rows,
        None => square_rows(columns),
    }
}
