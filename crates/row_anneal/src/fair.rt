// Rows that someone proposes are checked.
ghost use Rattle.std.specs.Prelude.{◌≡◌, ◌↔◌, ◌+◌, ◌<◌, ◌≤◌, ◌^◌, ℕ, All, IsTrue, not, map, length, sum, slice_index, IfOk};
ghost use Rattle.row_meaning.specs.Rows.{row_width, times_in, times};
ghost use Rattle.row_meaning.specs.First.{share_of, widest, AreEven};
ghost use Rattle.row_fill.specs.Law.{HoldsEachOnce};
ghost use Rattle.row_anneal.specs.Amiss.{IsAmiss};

use std::alloc::{AllocError, Global};

/// The width of a cell, and 0 where there is none.
fn width_of(columns: &[u64], cell: usize) -> u64
    ensures { result ≡ slice_index columns.now cell }
{
    if cell < columns.len() {
        columns[cell]
    } else {
        0
    }
}

/// Says whether a row is no wider than this.
fn is_within(row: &[u32], columns: &[u64], most: u64) -> bool
    ensures { IsTrue result ↔ (row_width columns.now row.now ≤ most) }
{
    let mut wide = 0;
    for cell in row {
        let width = width_of(columns, *cell as usize);
        if width > most - wide {
            return false;
        }
        wide += width;
    }
    true
}

/// Says whether each row is no wider than this.
fn are_within(rows: &[Vec<u32>], columns: &[u64], most: u64) -> bool
    ensures { IsTrue result ↔ All (λ row. row_width columns.now row.items ≤ most) rows.now }
{
    for row in rows {
        if !is_within(row, columns, most) {
            return false;
        }
    }
    true
}

/// Counts the cells of a row. Says whether each is below the number of counts, and wasn't counted before.
fn count_row(counts: &mut [u8], row: &[u32]) -> bool
    ensures length { length counts.new ≡ length counts.old }
    ensures counts { IsTrue result → (c : ℕ) → slice_index counts.new c ≡ slice_index counts.old c + times_in row.now c }
    ensures amiss { IsTrue (not result) → IsAmiss (length counts.old) (λ c. slice_index counts.old c + times_in row.now c) }
{
    for cell in row {
        let cell = *cell as usize;
        if cell >= counts.len() || counts[cell] != 0 {
            return false;
        }
        counts[cell] = 1;
    }
    true
}

/// Counts the cells of rows. Says whether each is below the number of counts, and wasn't counted before.
fn count_rows(counts: &mut [u8], rows: &[Vec<u32>]) -> bool
    ensures length { length counts.new ≡ length counts.old }
    ensures counts { IsTrue result → (c : ℕ) → slice_index counts.new c ≡ slice_index counts.old c + times (map (λ v. v.items) rows.now) c }
    ensures amiss { IsTrue (not result) → IsAmiss (length counts.old)
        (λ c. slice_index counts.old c + times (map (λ v. v.items) rows.now) c) }
{
    for row in rows {
        if !count_row(counts, row) {
            return false;
        }
    }
    true
}

/// Says whether each count is 1.
fn are_one(counts: &[u8]) -> bool
    ensures { IsTrue result ↔ All (λ count. count ≡ 1) counts.now }
{
    for count in counts {
        if *count != 1 {
            return false;
        }
    }
    true
}

/// The width of the widest cell.
fn widest(columns: &[u64]) -> u64
    ensures { result ≡ widest columns.now }
{
    let mut most = 0;
    for width in columns {
        most = (*width).max(most);
    }
    most
}

/// The sum of widths.
fn sum(columns: &[u64]) -> u64
    requires { sum columns.now < 2 ^ 63 }
    ensures { result ≡ sum columns.now }
{
    columns.iter().sum()
}

/// How wide a row may be: the share of one of so many rows, and the widest cell.
fn bound(columns: &[u64], many: u64) -> u64
    requires some { 0 < many }
    requires few { many < 2 ^ 62 }
    requires narrow { sum columns.now ≤ 2 ^ 60 }
    ensures { result ≡ share_of columns.now many + widest columns.now }
{
    (sum(columns) + (many - 1)) / many + widest(columns)
}

/// Counts the cells of rows, none of which is counted yet. Says whether each that has a count stands there once, and no other.
fn hold_each(counts: &mut [u8], rows: &[Vec<u32>]) -> bool
    requires none { (c : ℕ) → slice_index counts.old c ≡ 0 }
    ensures { IsTrue result ↔ HoldsEachOnce (length counts.old) (length rows.now) (map (λ v. v.items) rows.now) }
{
    if !count_rows(counts, rows) {
        return false;
    }
    are_one(counts)
}

/// Says whether each number below `many` stands in these rows once, and no other.
fn hold_each_once(alloc: Global, rows: &[Vec<u32>], many: usize) -> Result<bool, AllocError>
    ensures { IfOk result (λ each. IsTrue each ↔ HoldsEachOnce many (length rows.now) (map (λ v. v.items) rows.now)) }
{
    let mut counts = vec![in alloc; 0; many]?;
    Ok(hold_each(&mut counts, rows))
}

/// Says whether rows are a placement of cells of these widths in so many rows: each cell in one place, and no row wider than the share
/// and the widest cell. Takes memory for each cell.
pub fn are_fair(
    alloc: Global,
    rows: &[Vec<u32>],
    columns: &[u64],
    many: usize,
) -> Result<bool, AllocError>
    requires narrow { sum columns.now ≤ 2 ^ 60 }
    ensures { IfOk result (λ fair. IsTrue fair ↔ (HoldsEachOnce (length columns.now) many (map (λ v. v.items) rows.now)
        × AreEven columns.now (map (λ v. v.items) rows.now))) }
{
    if rows.len() != many {
        return Ok(false);
    }
    if rows.is_empty() {
        return Ok(columns.is_empty());
    }
    if !are_within(rows, columns, bound(columns, rows.len() as u64)) {
        return Ok(false);
    }
    hold_each_once(alloc, rows, columns.len())
}
