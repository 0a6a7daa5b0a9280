// Pins of a cell that are reached in one column.
ghost use Rattle.std.specs.Prelude.{◌≡◌, ◌↔◌, Any, IfOk, IfSome, IfNone, IsTrue};
ghost use Rattle.sym_shapes.specs.Shape.{drawn};
ghost use Rattle.cell_model.specs.Usable.{IsFormed};
ghost use Rattle.cell_checks.specs.Checks.{StandsInRow, ColumnsDiffer};
ghost use Rattle.cell_checks.specs.Columns.{IsSharedAt, AreOne, IsRepeatedAt, AreAllOther};

use crate::nodes::access_columns;
use cell_model::Cell;
use std::alloc::{AllocError, Global};
use sym_shapes::{Shape, drawn};

/// Whether two columns are there, and are one.
fn are_one(one: Option<u64>, other: Option<u64>) -> bool
    ensures { IsTrue result ↔ AreOne one other }
{
    let Some(one) = one else {
        return false;
    };
    let Some(other) = other else {
        return false;
    };
    one == other
}

/// Whether a column stands among some.
fn is_among(columns: &[Option<u64>], column: Option<u64>) -> bool
    ensures { IsTrue result ↔ Any (λ a. AreOne a column) columns.now }
{
    for other in columns {
        if are_one(*other, column) {
            return true;
        }
    }
    false
}

/// The place of the first column that is an earlier one.
fn repeated(columns: &[Option<u64>]) -> Option<usize>
    ensures some { IfSome result (λ j. IsRepeatedAt columns.now j) }
    ensures none { IfNone result (AreAllOther columns.now) }
{
    for j in 0..columns.len() {
        if is_among(&columns[..j], columns[j]) {
            return Some(j);
        }
    }
    None
}

/// The place of the first signal pin that is reached in the column of an earlier one, of a cell whose shapes are drawn.
fn shared_place(alloc: Global, cell: &Cell, shapes: &[Shape]) -> Result<Option<usize>, AllocError>
    requires formed { IsFormed cell.now }
    requires row { StandsInRow cell.now }
    requires shapes { shapes.now ≡ drawn cell.now.items }
    ensures shared { IfOk result (λ found. IfSome found (λ place. IsSharedAt cell.now place)) }
    ensures none { IfOk result (λ found. IfNone found (ColumnsDiffer cell.now)) }
{
    let columns = access_columns(alloc, cell, shapes)?;
    Ok(repeated(&columns))
}

/// The place of the first signal pin of a cell, in the order of names, that is reached in the column of an earlier one. Takes memory
/// for the cell's shapes and the columns of a few nodes.
pub fn shared_pin(alloc: Global, cell: &Cell) -> Result<Option<usize>, AllocError>
    requires formed { IsFormed cell.now }
    requires row { StandsInRow cell.now }
    ensures shared { IfOk result (λ found. IfSome found (λ place. IsSharedAt cell.now place)) }
    ensures none { IfOk result (λ found. IfNone found (ColumnsDiffer cell.now)) }
{
    let shapes = drawn(alloc, cell.items.as_slice())?;
    shared_place(alloc, cell, &shapes)
}

/// Whether no two signal pins are reached at one x. Takes memory for the columns of a few nodes.
#[tactic(auto, using(crate::proofs::SharedColumns::not_shared))]
pub fn columns_differ(alloc: Global, cell: &Cell, shapes: &[Shape]) -> Result<bool, AllocError>
    requires formed { IsFormed cell.now }
    requires row { StandsInRow cell.now }
    requires shapes { shapes.now ≡ drawn cell.now.items }
    ensures { IfOk result (λ differ. IsTrue differ ↔ ColumnsDiffer cell.now) }
{
    match shared_place(alloc, cell, shapes)? {
        Some(_) => Ok(false),
        None => Ok(true),
    }
}
