// Where the instances of a figure stand, and the rows of their numbers.
ghost use Rattle.std.specs.Prelude.{◌≡◌, ◌≤◌, ◌<◌, ◌+◌, ◌*◌, ◌^◌, ℕ, pos, [], map, flat_map, length, IsPermutation, IfOk, OnOk};
ghost use Rattle.std.specs.List.{All};
ghost use Rattle.std.specs.List.Sorted.{IsNonDecreasingBy};
ghost use Rattle.sym_geom.specs.declared.grid.TheConstants.{PITCH as pitch, ROW_HEIGHT as row_height};
ghost use Rattle.cell_model.specs.Layout.{instances_of};
ghost use Rattle.row_meaning.specs.First.{numbers};
ghost use Rattle.ocp_rows.specs.Placement.{natural};
ghost use Rattle.ocp_figure.specs.Stands.{row_near, stands_from, AreFilled, AreReadRows};

use std::alloc::{AllocError, Global};
use sym_geom::{Instance, Item, ROW_HEIGHT, Rect};

/// No block is read that has more rows.
const MOST_ROWS: u64 = 256;

/// Where an instance stands: where it begins, in which row, and its number in the order of lines.
#[derive(Clone, Copy)]
pub(crate) struct Stand {
    pub(crate) x: u64,
    pub(crate) row: usize,
    pub(crate) number: u32,
}

/// A coordinate; 0 for one below 0, at which no placement has an instance.
fn natural(z: &i64) -> u64
    ensures { result ≡ natural z.now }
{
    if *z < 0 {
        return 0;
    }
    *z as u64
}

/// How many rows the box of a figure has, from 1 to 256. A box that no rows have is given some number of them.
pub(crate) fn row_count(bounds: &Rect) -> usize
    ensures some { 1 ≤ result }
    ensures few { result ≤ 256 }
    ensures value { (rows : ℕ) → 1 ≤ rows → rows ≤ 256 → bounds.now.y2 ≡ pos (row_height * rows + 2 * pitch) → result ≡ rows }
{
    let rows = natural(&bounds.y2) / u64::from(ROW_HEIGHT);
    rows.max(1).min(MOST_ROWS) as usize
}

/// In which of so many rows an instance stands. One that stands in none is given one of them.
fn row_near(instance: &Instance, rows: usize) -> usize
    requires some { 1 ≤ rows }
    requires few { rows ≤ 256 }
    ensures value { result ≡ row_near rows instance.now.y }
    ensures inside { result < rows }
{
    let row = natural(&instance.y) / u64::from(ROW_HEIGHT);
    row.min(rows as u64 - 1) as usize
}

/// How many instances there are among lines.
pub(crate) fn instance_count(items: &[Item]) -> usize
    ensures { result ≡ length (instances_of items.now) }
{
    let mut count = 0;
    for item in items {
        if let Item::Instance(_) = item {
            count += 1;
        }
    }
    count
}

/// Where the instances among lines stand in so many rows, in their order.
fn stands_of(alloc: Global, items: &[Item], rows: usize) -> Result<Vec<Stand>, AllocError>
    requires some { 1 ≤ rows }
    requires few { rows ≤ 256 }
    requires count { length (instances_of items.now) < 2 ^ 32 }
    ensures stands { IfOk result (λ stands. stands.items ≡ stands_from rows 0 (instances_of items.now)) }
    ensures inside { IfOk result (λ stands. All (λ s. s.row < rows) stands.items) }
{
    let mut stands = Vec::new(alloc);
    for item in items {
        if let Item::Instance(instance) = item {
            stands.push(Stand {
                x: natural(&instance.x),
                row: row_near(instance, rows),
                number: stands.len() as u32,
            })?;
        }
    }
    Ok(stands)
}

/// Puts instances in the order of where they begin.
fn sort_stands(stands: &mut Vec<Stand>) -> Result<(), AllocError>
    ensures same { IsPermutation stands.old.items stands.new.items }
    ensures rising { OnOk result (IsNonDecreasingBy (λ s. s.x) stands.new.items) }
{
    stands.sort_by_key(|stand| stand.x)?;
    Ok(())
}

/// Empty rows, so many.
fn no_rows(alloc: Global, many: usize) -> Result<Vec<Vec<u32>>, AllocError>
    ensures many { IfOk result (λ rows. length rows.items ≡ many) }
    ensures empty { IfOk result (λ rows. AreFilled [] rows.items) }
{
    let mut rows = Vec::new(alloc);
    for _ in 0..many {
        rows.push(Vec::new(alloc))?;
    }
    Ok(rows)
}

/// So many rows of the numbers of instances, which keep their order.
fn fill_rows(alloc: Global, stands: &[Stand], many: usize) -> Result<Vec<Vec<u32>>, AllocError>
    requires inside { All (λ s. s.row < many) stands.now }
    ensures many { IfOk result (λ rows. length rows.items ≡ many) }
    ensures filled { IfOk result (λ rows. AreFilled stands.now rows.items) }
{
    let mut rows = no_rows(alloc, many)?;
    for stand in stands {
        rows[stand.row].push(stand.number)?;
    }
    Ok(rows)
}

/// The rows of the numbers of the instances among lines, in so many rows: in each from the left to the right. Takes memory for each
/// instance and each row, and time for the instances, times a logarithm.
pub(crate) fn read_rows(
    alloc: Global,
    items: &[Item],
    rows: usize,
) -> Result<Vec<Vec<u32>>, AllocError>
    requires some { 1 ≤ rows }
    requires few { rows ≤ 256 }
    requires count { length (instances_of items.now) < 2 ^ 32 }
    ensures many { IfOk result (λ made. length made.items ≡ rows) }
    ensures once { IfOk result (λ made. IsPermutation (flat_map (λ row. row) (map (λ v. v.items) made.items))
        (numbers 0 (length (instances_of items.now)))) }
    ensures read { IfOk result (λ made. AreReadRows rows (stands_from rows 0 (instances_of items.now)) (map (λ v. v.items) made.items)) }
{
    let mut stands = stands_of(alloc, items, rows)?;
    sort_stands(&mut stands)?;
    let made = fill_rows(alloc, &stands, rows)?;
    Ok(made)
}
