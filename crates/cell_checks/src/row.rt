// The box of a cell, and the strips of the supplies along it.
ghost use Rattle.std.specs.Prelude.{◌≡◌, ◌↔◌, IsTrue, IfSome, IfNone, pos, ◌≤ℤ◌};
ghost use Rattle.cell_model.specs.Cell.{cell_width};
ghost use Rattle.cell_model.specs.Usable.{IsFormed};
ghost use Rattle.cell_checks.specs.Checks.{HasColumns, StandsInRow, strip, rail};

use cell_model::Cell;
use sym_geom::{PITCH, RAIL_INSET, RAIL_OVERHANG, ROW_HEIGHT, Rect};

/// How many columns wide a cell is whose box stands in a row of cells: starts at 0,0, is as high as a row, and a positive number
/// of columns wide. None for any other.
pub fn columns_of(cell: &Cell) -> Option<u64>
    ensures columns { IfSome result (λ n. HasColumns cell.now n) }
    ensures none { IfNone result (StandsInRow cell.now → ⊥) }
{
    let bounds = &cell.bounds;
    if bounds.x1 != 0 {
        return None;
    }
    if bounds.y1 != 0 {
        return None;
    }
    if bounds.y2 != i64::from(ROW_HEIGHT) {
        return None;
    }
    if bounds.x2 <= 0 {
        return None;
    }
    let width = bounds.x2 as u64;
    if width % u64::from(PITCH) != 0 {
        return None;
    }
    Some(width / u64::from(PITCH))
}

/// Whether the box of a cell stands in a row of cells.
pub fn stands_in_row(cell: &Cell) -> bool
    ensures { IsTrue result ↔ StandsInRow cell.now }
{
    match columns_of(cell) {
        Some(_) => true,
        None => false,
    }
}

/// The width of the box.
pub fn width_of(cell: &Cell) -> i64
    requires { IsFormed cell.now }
    ensures value { result ≡ cell_width cell.now }
    ensures low { pos 0 ≤ℤ result }
    ensures high { result ≤ℤ pos 20000000000000 }
{
    cell.bounds.x2 - cell.bounds.x1
}

/// The strip of a supply between two heights.
pub fn strip(cell: &Cell, from: u16, to: u16) -> Rect
    requires { IsFormed cell.now }
    ensures { result ≡ strip (cell_width cell.now) from to }
{
    let overhang = i64::from(RAIL_OVERHANG);
    Rect {
        x1: -overhang,
        y1: i64::from(from),
        x2: width_of(cell) + overhang,
        y2: i64::from(to),
    }
}

/// What a rail has to hold between two heights.
pub fn rail(cell: &Cell, from: u16, to: u16) -> Rect
    requires { IsFormed cell.now }
    ensures { result ≡ rail (cell_width cell.now) from to }
{
    let inset = i64::from(RAIL_INSET);
    Rect {
        x1: inset,
        y1: i64::from(from),
        x2: width_of(cell) - inset,
        y2: i64::from(to),
    }
}
