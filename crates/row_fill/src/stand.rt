// Where the cells of rows stand.
ghost use Rattle.std.specs.Prelude.{◌≡◌, ◌+◌, ◌<◌, ◌≤◌, ◌^◌, ℕ, map, length, slice_index, if◌then◌else◌, IfOk};
ghost use Rattle.std.specs.List.{All};
ghost use Rattle.row_meaning.specs.Rows.{x_in, x_of, row_of, row_width, rows_width, stands_in};

use std::alloc::{AllocError, Global};

/// Puts down where the cells of a row begin.
fn begin_row(starts: &mut [u64], row: &[u32], widths: &[u64], left: u64)
    requires cells { All (λ c. c < length starts.old) row.now }
    requires widths { length starts.old ≡ length widths.now }
    requires narrow { left + row_width widths.now row.now ≤ 2 ^ 62 }
    ensures { (c : ℕ) → c < length starts.old
        → slice_index starts.new c ≡ x_in widths.now left row.now c (slice_index starts.old c) }
{
    let mut x = left;
    for cell in row {
        let cell = *cell as usize;
        starts[cell] = x;
        x += widths[cell];
    }
}

/// Puts down where the cells of rows begin.
fn begin_rows(starts: &mut [u64], rows: &[Vec<u32>], widths: &[u64], left: u64)
    requires cells { All (λ row. All (λ c. c < length starts.old) row.items) rows.now }
    requires widths { length starts.old ≡ length widths.now }
    requires narrow { All (λ row. left + row_width widths.now row.items ≤ 2 ^ 62) rows.now }
    ensures { (c : ℕ) → c < length starts.old
        → slice_index starts.new c ≡ x_of widths.now left (map (λ v. v.items) rows.now) c (slice_index starts.old c) }
{
    for row in rows {
        begin_row(starts, row, widths, left);
    }
}

/// Where cells of these widths begin in rows that begin at `left`, by their numbers; 0 for a cell that stands in none. Takes memory
/// for each cell.
pub fn starts_of(
    alloc: Global,
    rows: &[Vec<u32>],
    widths: &[u64],
    left: u64,
) -> Result<Vec<u64>, AllocError>
    requires cells { All (λ row. All (λ c. c < length widths.now) row.items) rows.now }
    requires narrow { All (λ row. left + row_width widths.now row.items ≤ 2 ^ 62) rows.now }
    ensures many { IfOk result (λ starts. length starts.items ≡ length widths.now) }
    ensures starts { IfOk result (λ starts. (c : ℕ) → c < length widths.now
        → slice_index starts.items c ≡ x_of widths.now left (map (λ v. v.items) rows.now) c 0) }
{
    let mut starts = vec![in alloc; 0; widths.len()]?;
    begin_rows(&mut starts, rows, widths, left);
    Ok(starts)
}

/// Puts down that the cells of a row stand in the row of this number.
fn number_row(numbers: &mut [u32], row: &[u32], number: u32)
    requires cells { All (λ c. c < length numbers.old) row.now }
    ensures { (c : ℕ) → c < length numbers.old
        → slice_index numbers.new c ≡ (if stands_in row.now c then number else slice_index numbers.old c) }
{
    for cell in row {
        numbers[*cell as usize] = number;
    }
}

/// Puts down in which rows the cells stand.
fn number_rows(numbers: &mut [u32], rows: &[Vec<u32>])
    requires cells { All (λ row. All (λ c. c < length numbers.old) row.items) rows.now }
    requires few { length rows.now < 2 ^ 32 }
    ensures { (c : ℕ) → c < length numbers.old
        → slice_index numbers.new c ≡ row_of 0 (map (λ v. v.items) rows.now) c (slice_index numbers.old c) }
{
    for r in 0..rows.len() {
        number_row(numbers, &rows[r], r as u32);
    }
}

/// In which rows so many cells stand, by their numbers; 0 for a cell that stands in none. Takes memory for each cell.
pub fn row_numbers(alloc: Global, rows: &[Vec<u32>], many: usize) -> Result<Vec<u32>, AllocError>
    requires cells { All (λ row. All (λ c. c < many) row.items) rows.now }
    requires few { length rows.now < 2 ^ 32 }
    ensures many { IfOk result (λ numbers. length numbers.items ≡ many) }
    ensures numbers { IfOk result (λ numbers. (c : ℕ) → c < many
        → slice_index numbers.items c ≡ row_of 0 (map (λ v. v.items) rows.now) c 0) }
{
    let mut numbers = vec![in alloc; 0; many]?;
    number_rows(&mut numbers, rows);
    Ok(numbers)
}

/// How wide a row is.
fn row_width(row: &[u32], widths: &[u64]) -> u64
    requires cells { All (λ c. c < length widths.now) row.now }
    requires narrow { row_width widths.now row.now ≤ 2 ^ 62 }
    ensures { result ≡ row_width widths.now row.now }
{
    let mut width = 0;
    for cell in row {
        width += widths[*cell as usize];
    }
    width
}

/// How wide the widest row is.
pub fn rows_width(rows: &[Vec<u32>], widths: &[u64]) -> u64
    requires cells { All (λ row. All (λ c. c < length widths.now) row.items) rows.now }
    requires narrow { All (λ row. row_width widths.now row.items ≤ 2 ^ 62) rows.now }
    ensures { result ≡ rows_width widths.now (map (λ v. v.items) rows.now) }
{
    let mut width = 0;
    for row in rows {
        width = row_width(row, widths).max(width);
    }
    width
}
