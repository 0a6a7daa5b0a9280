// Cells are put into rows.
ghost use Rattle.std.specs.Prelude.{◌≡◌, ◌++◌, ◌∷◌, [], ◌+◌, ◌-◌, ◌*◌, ◌/◌, ◌<◌, ◌≤◌, ◌^◌, ℕ, nat_le, map, length, replicate, sum, drop, if◌then◌else◌, IfOk, OnOk};
ghost use Rattle.std.specs.List.{All};
ghost use Rattle.row_meaning.specs.Rows.{row_at};
ghost use Rattle.row_meaning.specs.First.{put_in, filled, share_of, numbers, first_rows};

use std::alloc::{AllocError, Global};

/// A row, and how wide it is so far.
#[derive(Clone, Copy)]
struct Place {
    row: usize,
    wide: u64,
}

/// The row that takes a cell of this width, and how wide it then is: the next row, where this one is as wide as the share.
fn next(place: Place, share: u64, width: u64) -> Place
    requires row { place.row < 2 ^ 32 }
    requires wide { place.wide + width < 2 ^ 64 }
    ensures row { result.row ≡ (if nat_le share place.wide then place.row + 1 else place.row) }
    ensures wide { result.wide ≡ (if nat_le share place.wide then width else place.wide + width) }
{
    if place.wide >= share {
        Place {
            row: place.row + 1,
            wide: width,
        }
    } else {
        Place {
            row: place.row,
            wide: place.wide + width,
        }
    }
}

/// Puts a cell at the end of a row.
fn put(rows: &mut [Vec<u32>], row: usize, cell: u32) -> Result<(), AllocError>
    requires { row < length rows.old }
    ensures length { length rows.new ≡ length rows.old }
    ensures rows { OnOk result (map (λ v. v.items) rows.new ≡ put_in (map (λ v. v.items) rows.old) row cell) }
{
    rows[row].push(cell)?;
    Ok(())
}

/// Puts all cells into rows in their order.
fn fill(rows: &mut [Vec<u32>], widths: &[u64], share: u64) -> Result<(), AllocError>
    requires some { 0 < length rows.old }
    requires many { length rows.old < 2 ^ 32 }
    requires few { length widths.now < 2 ^ 32 }
    requires wide { All (λ w. 0 < w) widths.now }
    requires narrow { sum widths.now < 2 ^ 63 }
    requires share { sum widths.now ≤ length rows.old * share }
    ensures length { length rows.new ≡ length rows.old }
    ensures rows { OnOk result (map (λ v. v.items) rows.new
        ≡ filled widths.now share 0 0 (numbers 0 (length widths.now)) (map (λ v. v.items) rows.old)) }
{
    let mut place = Place { row: 0, wide: 0 };
    for cell in 0..widths.len() {
        place = next(place, share, widths[cell]);
        put(rows, place.row, cell as u32)?;
    }
    Ok(())
}

/// The sum of widths.
fn sum(widths: &[u64]) -> u64
    requires { sum widths.now < 2 ^ 63 }
    ensures { result ≡ sum widths.now }
{
    widths.iter().sum()
}

/// Empty rows, so many.
fn no_rows(alloc: Global, many: usize) -> Result<Vec<Vec<u32>>, AllocError>
    ensures { IfOk result (λ rows. map (λ v. v.items) rows.items ≡ replicate many []) }
{
    let mut rows = Vec::new(alloc);
    for _ in 0..many {
        rows.push(Vec::new(alloc))?;
    }
    Ok(rows)
}

/// Puts cells of these widths into so many rows in their order: into each until it is at least as wide as the share. Takes memory
/// for each cell and each row.
pub fn fill_rows(alloc: Global, widths: &[u64], many: u32) -> Result<Vec<Vec<u32>>, AllocError>
    requires many { 0 < many }
    requires few { length widths.now < 2 ^ 32 }
    requires wide { All (λ w. 0 < w) widths.now }
    requires narrow { sum widths.now ≤ 2 ^ 60 }
    ensures { IfOk result (λ rows. map (λ v. v.items) rows.items ≡ first_rows widths.now many) }
{
    let share = (sum(widths) + u64::from(many - 1)) / u64::from(many);
    let mut rows = no_rows(alloc, many as usize)?;
    fill(&mut rows, widths, share)?;
    Ok(rows)
}
